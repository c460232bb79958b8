//! The frames of a multiplexed stream: their header, and the demultiplexer.
#![tactic(auto)]

mod demux;
mod fault;
mod heads;
mod laws;
mod pieces;

pub use demux::Demux;
pub use fault::{Ended, FrameFault};
pub use heads::header;
pub use laws::{law_first_wrong, law_gives_back, law_goes_on, law_one_reading};
pub use pieces::Pieces;
