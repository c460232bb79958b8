//! A container's health, by its events and its check.
#![tactic(auto)]

mod health;
mod laws;
mod mark;
mod open_run;
mod outcome;
mod position;
mod probes;
mod reached;
mod tally;
mod watch;

pub use health::{Change, Health};
pub use laws::{law_checks, law_probes};
pub use mark::{Mark, Turn};
pub use outcome::{Outcome, ProbeResult};
pub use probes::probe;
pub use watch::Watch;
