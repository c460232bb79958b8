//! The top call of the program `engined`: one session, the shared daemon behind a door, or a drill.
#![tactic(auto)]

mod drilling;
mod laws;
mod listening;
mod opening;
mod program;
mod running;

pub use laws::{law_of_faults, law_of_stops};
pub use program::run_engined;
