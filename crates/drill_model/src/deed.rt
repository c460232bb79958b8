// What a word of a drill asks for.
/// What a request of a drill does.
#[derive(Clone, Copy, Debug, PartialEq, Eq)]
pub enum Deed {
    Create,
    Start,
    Stop,
    Kill,
    Pause,
    Unpause,
    Restart,
    Rename,
    Remove,
    RemoveByForce,
    ListAll,
    Inspect,
}

/// What a container of a drill runs.
#[derive(Clone, Copy, Debug, PartialEq, Eq)]
pub enum Program {
    /// It hears no signal but the one that kills.
    Deaf,
    /// It ends at once, with 3.
    Exit,
    /// It writes 5 lines, one each 20 milliseconds.
    Tick,
    /// Its first two runs fail, and it is restarted.
    Flaky,
}
