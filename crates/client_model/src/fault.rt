// What ends a command before its end.
use engine_text::{Bytes, Text};

/// What ends a command before its end.
#[derive(Drop)]
pub enum Fault {
    /// The words are no line of the table.
    Words,
    /// Standard input couldn't be read.
    Input,
    /// Standard output couldn't be written.
    Output,
    /// Standard error couldn't be written.
    Errors,
    /// An answer isn't one of this API's.
    Answer,
    /// The answer to this request isn't: the request's first line without its end, and the status, where there is one.
    AnswerTo { request: Bytes, status: Option<u16> },
    /// An exec shows no exit code.
    NoCode,
    /// A container shows no health check.
    NoCheck,
    /// The first events are kept no more.
    EventsGone,
    /// A body has more bytes than are kept.
    TooLong,
    /// Memory was refused.
    NoMemory,
    /// The daemon refused a request, with this message.
    Refused { message: Text },
    /// No connection could be made.
    Link,
    /// A connection failed.
    Connection,
}
