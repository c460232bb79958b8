//! A daemon that begins with a written history: what ran is killed, and what its policy brings back is started.
#![tactic(auto)]

mod following;
mod planning;
mod rebooting;
mod reopening;
mod replaying;

pub use planning::{Planned, plan};
pub use rebooting::{Rebooted, reboot};
