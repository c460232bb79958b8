//! Requests read in pieces, as they come: who reads holds no thread while it waits for more.
#![tactic(auto)]

mod body;
mod chunks;
mod head;
mod laws;
mod reader;
mod source;
mod standing;
mod taking;

pub use laws::{law_pieces_are_next, law_pieces_end, law_pieces_tell_requests};
pub use reader::{PieceReader, Pushed};
