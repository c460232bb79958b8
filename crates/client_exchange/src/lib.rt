//! One request of the client over a connection of its own, and its answer, whose body is shown as it comes.
#![tactic(auto)]

mod answer;
mod asking;
mod body;
mod connection;
mod failure;
mod feeding;
mod following;
mod frames;
mod got;
mod laws;
mod limit;
mod made;
mod naming;
mod outside;
mod request;
mod sending;
mod taker;

pub use asking::ask;
pub use body::Body;
pub use laws::{law_ends, law_frames, law_pieces};
pub use limit::cut_fault;
pub use naming::fault_to;
pub use outside::Outside;
pub use request::Ask;
