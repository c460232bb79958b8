//! Connections that come to a door and leave it, and what the endings of their sessions call for.
#![tactic(auto)]

mod worsts;

pub use worsts::{called_by, most_from, worse_of};
