// A container that is held beside its log.
use engine_text::{Container, OpenLog};

/// A container and its log; the log of `container.life` itself stays empty.
#[derive(Drop)]
pub struct Held {
    pub container: Container,
    pub log: OpenLog,
}
