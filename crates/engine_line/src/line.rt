// What a line asks for.

/// The moment at which a clock starts, and its step, in milliseconds.
#[derive(Clone, Copy, Debug, PartialEq, Eq)]
pub struct Stepping {
    pub start: u64,
    pub step: u64,
}

/// What is to be done.
#[derive(Clone, Copy, Debug, PartialEq, Eq)]
pub enum Work {
    /// One session, over standard input and output.
    Stdio,
    /// Sessions of the connections that come to this port of 127.0.0.1.
    Listen(u16),
    /// So many requests, made up.
    Drill(u32),
}

/// What a line asks for.
#[derive(Clone, Copy, Debug, PartialEq, Eq)]
pub struct Line {
    pub work: Work,
    /// The seed of ids.
    pub seed: [u8; 32],
    pub clock: Option<Stepping>,
    /// How many connections are taken in at most.
    pub connections: Option<u32>,
    /// The greatest number of entries of the journal.
    pub entries: u32,
}

/// How the daemon of a line of `engineone` begins.
#[derive(Clone, Copy, Debug, PartialEq, Eq)]
pub enum Beginning {
    /// Without a history, by this seed of ids.
    New { seed: [u8; 32] },
    /// With the written history that standard input gives.
    Reboot,
}

/// What a line of `engineone` asks for: sessions of the connections that come to a port of 127.0.0.1, in one thread.
#[derive(Clone, Copy, Debug, PartialEq, Eq)]
pub struct OneLine {
    pub port: u16,
    pub beginning: Beginning,
    pub clock: Option<Stepping>,
    /// How many connections are taken in at most.
    pub connections: Option<u32>,
    /// The greatest number of entries of the journal.
    pub entries: u32,
}
