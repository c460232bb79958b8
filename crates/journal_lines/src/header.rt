// What a journal's header names (own: format 2).

/// The seed of ids, and the moment of the opening in milliseconds since 1970.
#[derive(Clone, Copy, Drop)]
pub struct Header {
    pub seed: [u8; 32],
    pub opening: u64,
}
