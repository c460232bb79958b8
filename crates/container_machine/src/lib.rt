//! The machine of containers over its tables: a call is prepared, and then committed.
#![tactic(auto)]

mod counts;
mod due;
mod feeding;
mod found;
pub mod laws;
mod listing;
mod log_part;
mod machine;
mod performing;
mod waiting;

pub use due::PreparedDue;
pub use listing::{Listing, Tickets};
pub use machine::Machine;
