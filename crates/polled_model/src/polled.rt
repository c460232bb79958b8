// What polls answer.
use session_model::Ending;

/// What a session that was polled waits for.
#[derive(Clone, Copy, Debug, PartialEq, Eq, Drop)]
pub enum Cause {
    /// More of a request.
    Source,
    /// Room for more of an answer.
    Sink,
    /// A ticket that isn't ready, or more of a stream: the task was woken.
    NotYet,
    /// Its next poll, since it did as much as one may do: the task was woken.
    Yield,
}

/// The answer of a poll.
#[derive(Clone, Copy, Debug, PartialEq, Eq, Drop)]
pub enum Polled {
    /// The session has ended.
    Done(Ending),
    /// It waits, and is to be polled again.
    Pending(Cause),
}
