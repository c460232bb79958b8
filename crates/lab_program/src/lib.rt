//! The top call of the program `enginelab`: the daemon behind one door, control behind another, and their end.
#![tactic(auto)]

mod address;
mod controls;
mod ends;
mod input;
mod opening;
mod program;
mod serving;
mod starting;
mod tools;
mod why;

pub use program::run_lab;
