//! Volumes by name, and the containers that refer to them.
#![tactic(auto)]

mod answers;
mod listing;
mod references;
mod volumes;

pub use answers::{Made, Removed};
pub use listing::VolumeListing;
pub use volumes::Volumes;
