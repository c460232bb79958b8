//! The outside, as the daemon sees it: where bytes come from, where they go, and what time it is.
#![tactic(auto)]

mod adapters;
mod bound;
mod clock;
mod door;
mod link;
mod memory;
mod ports;

pub use adapters::{
    Half, HeldStreams, ReadSource, StreamPast, StreamSink, SystemClock, TcpDoor, TcpLink, WriteSink,
};
pub use clock::StepClock;
pub use door::{Arrival, Door, NoDoor, Parting, Parts};
pub use link::Link;
pub use memory::{Closed, Departed, MemClock, MemDoor, MemLink, MemSink, MemSource, NoMemory};
pub use ports::{Clock, Failed, Got, Pause, Sink, Source};
