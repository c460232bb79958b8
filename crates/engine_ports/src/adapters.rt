// The outside of a real process: readers, writers, sockets and the clock of the system. They tell nothing.
mod connection;
mod input;
mod listener;
mod output;
mod stream;
mod streams;
mod time;

pub use connection::TcpLink;
pub use input::ReadSource;
pub use listener::TcpDoor;
pub use output::WriteSink;
pub use stream::{Half, StreamPast, StreamSink};
pub use streams::HeldStreams;
pub use time::SystemClock;
