// What a step comes to.
use crate::step::Step;

/// What a step comes to.
#[derive(Drop)]
pub enum Performed {
    /// This is to be done next.
    On(Step),
    /// The command ended with this status.
    Ended(u8),
}
