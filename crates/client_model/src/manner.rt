// How a connection ends behind its request (RFC 9110, sections 7.6.1 and 7.8).

/// How a connection ends behind its one request.
#[derive(Clone, Copy)]
pub enum Manner {
    /// It closes.
    Closes,
    /// The answer takes it over.
    Upgrades,
}
