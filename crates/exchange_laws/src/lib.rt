//! What a turn came to, and what a request is answered by then: definitions and laws, for all that serve requests,
//! and the texts of answers that they share.
#![tactic(auto)]

mod fixed;
mod form;
mod laws;
mod messages;

pub use fixed::Fixed;
pub use form::form_of;
pub use laws::{law_of_answers, law_of_early_waits, law_of_turns, law_of_waits};
pub use messages::message;
