//! Execs of containers with their outputs, in order of number.
#![tactic(auto)]

mod execs;
mod ids;
mod listing;
mod owned;
mod removal;
mod row;
mod rows;

pub use execs::Execs;
pub use listing::ExecList;
