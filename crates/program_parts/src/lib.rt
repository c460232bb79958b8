//! What the top calls of both daemons share: how a line's daemon is opened, its clock, its address, the statuses, and what is told.
#![tactic(auto)]

mod address;
mod opening;
mod status;
mod telling;

pub use address::address_of;
pub use opening::opening_by;
pub use status::status_by;
pub use telling::{tell, tell_usage};
