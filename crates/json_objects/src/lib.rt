//! JSON objects that are built member by member.
#![tactic(auto)]

mod object;
mod words;

pub use object::Object;
pub use words::words_value;
