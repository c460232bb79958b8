//! The client of the Engine API: a line read, its command performed step by step, and its fault told.
#![tactic(auto)]

mod asking;
mod beginning;
mod checking;
mod client;
mod going_on;
mod input;
mod onward;
mod performed;
mod performing;
mod places;
mod printing;
mod reading;
mod replaying;
mod rows;
mod step;
mod telling;
mod watching;
mod writing;

pub use client::run_client;
pub use client_exchange::Outside;
