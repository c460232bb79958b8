//! Responses read by a client: a head, and then its body in pieces.
#![tactic(auto)]

mod chunks;
mod framing;
mod front;
mod got;
mod heads;
mod numbers;
mod pieces;
mod reader;

pub use framing::Left;
pub use got::{Answered, BodyGot, Stage, Stopped};
pub use numbers::leading_number;
pub use reader::ResponseReader;
