//! The one daemon value with its whole history, and turns on it by whoever holds a pass.
#![tactic(auto)]

mod alone;
mod append;
mod counts;
mod daemon;
mod due;
mod events_from;
mod frames;
mod journal_from;
mod lines;
mod log_from;
mod moment;
mod pairing;
mod ready;
mod remaking;
mod room;
mod stored;
mod telling;
mod texts;
mod turning;

pub use alone::Alone;
pub use daemon::Daemon;
pub use pairing::{Pairs, input_of};
pub use turning::Turns;
