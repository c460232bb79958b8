// The ports over tokio.
mod listener;
mod runner;
mod socket;
mod spaced;
mod stream;

pub use listener::TcpPollDoor;
pub use runner::LocalRunner;
pub use stream::{TcpPollSink, TcpPollSource};
