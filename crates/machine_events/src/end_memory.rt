// The memory that a step may want at its end.

use engine_text::{Numbers, OwnedLog, Script};

/// The script of a launch; of a removal the list of the logs, with its room, and the numbers of execs.
#[derive(Drop)]
pub struct EndMemory {
    pub script: Option<Script>,
    pub logs: Vec<OwnedLog>,
    pub execs: Numbers,
}
