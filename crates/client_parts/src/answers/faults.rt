// What a fault ends a command with.
ghost use Rattle.std.specs.Prelude.{◌≡◌, ◌++◌};
ghost use Rattle.client_model.specs.Faults as spec;
ghost use Rattle.client_parts.specs.Telling.{before_request};

use super::usage::{address_in, usage_for};
use client_model::Fault;
use engine_text::Text;

/// The status that a command ends with.
pub fn status_of(fault: &Fault) -> u8
    ensures { result ≡ spec.status_of fault.now }
{
    match fault {
        Fault::Words => 2,
        Fault::Input | Fault::Output | Fault::Errors => 122,
        Fault::Answer | Fault::AnswerTo { .. } | Fault::NoCode | Fault::NoCheck => 123,
        Fault::EventsGone | Fault::TooLong => 123,
        Fault::NoMemory => 124,
        Fault::Refused { .. } | Fault::Link | Fault::Connection => 125,
    }
}

/// What a fault adds to standard error, where the program was given these words, in three parts; of an answer that isn't one of
/// the API's what stands before its request.
pub(crate) fn fault_line<'a>(words: &'a [Text], fault: &'a Fault) -> (&'a str, &'a str, &'a str)
    ensures { result.0.now ++ result.1.now ++ result.2.now ≡ before_request words.now fault.now }
{
    match fault {
        Fault::Words => (
            "usage: dockc ADDR ",
            usage_for(words),
            " (ADDR is 127.0.0.1:PORT)\n",
        ),
        Fault::Input => ("dockc: standard input can't be read\n", "", ""),
        Fault::Output => ("dockc: standard output can't be written\n", "", ""),
        Fault::Errors => ("", "", ""),
        Fault::Answer => ("dockc: the answer isn't one of the Engine API's\n", "", ""),
        Fault::AnswerTo { .. } => ("dockc: the answer to ", "", ""),
        Fault::NoCode => ("dockc: the exec has no exit code\n", "", ""),
        Fault::NoCheck => ("dockc: the container has no health check\n", "", ""),
        Fault::EventsGone => ("dockc: the first events are no longer kept\n", "", ""),
        Fault::TooLong => ("dockc: the answer has more than 67108864 bytes\n", "", ""),
        Fault::NoMemory => ("dockc: out of memory\n", "", ""),
        Fault::Refused { message } => ("", message.as_str(), "\n"),
        Fault::Link => (
            "dockc: can't connect to the daemon at ",
            address_in(words),
            "\n",
        ),
        Fault::Connection => ("dockc: the connection to the daemon failed\n", "", ""),
    }
}
