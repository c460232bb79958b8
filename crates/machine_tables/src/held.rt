// What stands in memory otherwise than the model says it: replies of tickets without their texts, so that
// a ticket becomes ready without memory.

use engine_text::Asked;

/// A reply of a ticket, whose text is made when it is taken.
#[derive(Clone, Copy, PartialEq, Eq, Debug, Drop)]
pub enum Ready {
    Done,
    Waited(u8),
    TimedOut,
}

/// What befalls a container and answers its tickets: it is gone, its last code being that, or its
/// removal takes too long.
#[derive(Clone, Copy, PartialEq, Eq, Debug, Drop)]
pub enum RemovalResult {
    Gone(u8),
    TimedOut,
}

/// A ticket.
#[derive(Drop)]
pub struct HeldTicket {
    pub number: u64,
    pub connection: u32,
    pub container: u64,
    pub asked: Asked,
    pub ready: Option<Ready>,
}
