//! The tables of every part of the machine's state, and one method for each effect of a step.
#![tactic(auto)]

mod counts;
mod deaths;
mod effects;
mod exec_lists;
mod foretell;
mod foretell_calls;
mod foretell_end;
mod foretell_kill;
mod foretell_met;
mod least;
mod listing;
mod logs;
mod rooms;
mod tables;

pub use container_table::{Held, LifeChange, Rank};
pub use deaths::death_with;
pub use tables::Tables;
