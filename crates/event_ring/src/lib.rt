//! The last events, filters of events, and what events tell of containers.
#![tactic(auto)]

mod attributes;
mod filters;
mod fold;
mod part;
mod prepared;
mod ring;
mod search;

pub use filters::matches;
pub use fold::Fold;
pub use part::{FromRing, RingPart};
pub use prepared::PreparedEvent;
pub use ring::Ring;
