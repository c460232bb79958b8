//! Waiting on the daemon for one connection: for a ticket, for more of a stream, for its standard input.
#![tactic(auto)]

mod connection;
mod following;
mod polling;
mod pumping;
mod sides;
mod tickets;

pub use connection::Connection;
pub use following::{follow_events, follow_journal, follow_log};
pub use sides::take_over;
pub use tickets::{await_ticket, drop_ticket};
