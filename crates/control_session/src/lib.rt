//! A connection of control: its requests read, one after the other, and answered.
#![tactic(auto)]

mod answering;
mod journal;
mod session;
mod way;

pub use session::serve_control;
