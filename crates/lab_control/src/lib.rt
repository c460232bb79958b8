//! What requests ask of control, and what it tells.
#![tactic(auto)]

mod asking;
mod describing;
mod moving;
mod number;
mod telling;

pub use asking::{Asked, Move, asked_of};
pub use describing::write_description;
pub use moving::moved;
pub use telling::{Told, write_told};
