//! Turns that refuse memory where they are told to, for tests of what takes turns.
#![tactic(auto)]

mod counting;
mod refusing;

pub use counting::Scarcity;
pub use refusing::Scarce;
