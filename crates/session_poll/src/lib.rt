//! A session that is polled: it holds no thread while it waits.
#![tactic(auto)]

mod asking;
mod budget;
mod laws;
mod pausing;
mod session;
mod state;
mod streaming;
mod told;
mod waiting;
mod writing;

pub use laws::{law_of_new_sessions, law_of_others, law_of_polls, law_of_standing};
pub use polled_model::{Cause, Polled};
pub use session::Session;
