// A request that is to be asked.
use client_model::Showing;

/// A request: its bytes, whether standard input follows it to its end, and what is done with the body of its answer as it
/// comes.
#[derive(Drop)]
pub struct Ask {
    pub request: Vec<u8>,
    pub input: bool,
    pub showing: Showing,
}
