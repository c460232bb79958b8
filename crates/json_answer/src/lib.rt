//! A JSON text as the answer to a request.
#![tactic(auto)]

mod asking;
mod writing;

pub use asking::Terms;
pub use writing::write_json;
