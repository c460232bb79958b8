//! What a drill asks, and what its report says: definitions, and laws over them.
#![tactic(auto)]

mod deed;

pub use deed::{Deed, Program};
