//! A front between a connection and its session, which answers what the profile leaves out.
#![tactic(auto)]

mod choosing;
mod fronting;
mod giving;
mod handing;
mod keeping;
mod laws;
mod looking;
mod opening;
mod parting;
mod putting;
mod reading;
mod resting;
mod sharing;
mod standing;
mod stepping;
mod wiring;

pub use choosing::Way;
pub use giving::Given;
pub use laws::{law_one_front, law_runs_are_fronts, law_sessions_see_others};
pub use opening::FrontDoor;
pub use parting::{FrontPast, Left};
pub use reading::FrontSource;
pub use sharing::{SharedSink, Showing};
pub use standing::Stage;
pub use stepping::{Act, FrontState};
pub use wiring::{TwoWays, Ways};
