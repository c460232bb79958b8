//! Networks kept as names alone: which requests are asked of them, what these do to them, and what they are answered.
#![tactic(auto)]

mod answer;
mod asking;
mod known;
mod listing;
mod made;
mod making;
mod removing;
mod sharing;
mod showing;
mod stepping;

pub use answer::Answer;
pub use asking::{Kind, kind_of};
pub use known::Fixed;
pub use made::Made;
pub use sharing::Networks;
pub use stepping::apply;
