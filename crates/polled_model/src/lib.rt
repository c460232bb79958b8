//! How far a session has come that is polled, and what a poll of it says: definitions and laws.
#![tactic(auto)]

mod laws;
mod polled;

pub use laws::{
    law_of_beginnings, law_of_others, law_of_pauses, law_of_progress, law_of_stages,
    law_of_takeovers,
};
pub use polled::{Cause, Polled};
