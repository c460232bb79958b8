//! Containers by number, id, name and prefix, their timers, and the next due moments of processes.
#![tactic(auto)]

mod blank;
mod boxes;
mod changes;
mod dues;
mod entries;
mod held;
mod life_change;
mod lookups;
mod rank;
mod rows;
mod table;
mod timers;

pub use blank::blank_life;
pub use dues::Dues;
pub use held::Held;
pub use life_change::LifeChange;
pub use rank::Rank;
pub use rows::Rows;
pub use table::Table;
