// What a command does next.
use crate::onward::Then;
use client_exchange::Ask;

/// What a command does next.
#[derive(Drop)]
pub enum Step {
    /// It asks, and goes on behind the answer.
    Asks {
        ask: Ask,
        place: Then,
    },
    /// It writes this to standard output, and ends with this status.
    Writes {
        text: Vec<u8>,
        status: u8,
    },
    /// It reads standard input to its end, and prints the verdict on that journal of a daemon opened so, or that journal in
    /// format 2; the moment is in milliseconds.
    Judges {
        upgrade: bool,
        seed: [u8; 32],
        moment: u64,
    },
}
