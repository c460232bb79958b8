//! A drill: one session over requests made by chance, by a new daemon, whose journal is checked, and its report.
#![tactic(auto)]

mod drill;
mod drilling;
mod judging;

pub use drill::{Drill, Drilled};
pub use drilling::drilled;
