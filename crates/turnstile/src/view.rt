// What a pass knows.
use std::collections::LinkedList;

/// What a pass knows, as contracts see it. No value of it is ever made, so that its lists and
/// counts cost nothing.
pub struct View<S, C> {
    /// It was joined into another pass.
    pub spent: bool,
    /// It holds the turn.
    pub holds_turn: bool,
    /// The number of the connection that it steps for; the root's is 4,294,967,295.
    pub number: u64,
    /// It may yet admit a pass of its number plus 2,147,483,648, for the connection's input.
    pub pair: bool,
    /// The least number that the root may yet admit.
    pub next: u64,
    /// The history that it has seen.
    pub seen: LinkedList<S>,
    /// The steps of its own number in the history seen, in order.
    pub own_calls: LinkedList<S>,
    /// The steps of the passes that were joined in, and of numbers passed over, by number.
    pub joined_calls: LinkedList<(u64, LinkedList<S>)>,
    /// What it and another had seen when that was joined in last.
    pub ends: LinkedList<LinkedList<S>>,
    /// How many turns it has had.
    pub looks: u64,
    /// How often it has found the door held.
    pub found_busy: u64,
    /// What no job changes; none only of a spent pass.
    pub charter: Option<C>,
}
