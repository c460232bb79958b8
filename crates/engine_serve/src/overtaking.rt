// A request for the connection itself, and the takeover that its call gives.
ghost use Rattle.std.specs.Prelude.{◌≡◌};
ghost use Rattle.engine_text.specs.Soundness.{IsSound};
ghost use Rattle.engine_ports.specs.Sink.{WriteSays};
ghost use Rattle.http_edge.specs.Reader.{request_of};
ghost use Rattle.machine_model.specs.History.{state_after};
ghost use Rattle.api_routes.specs.Class.{class_of};
ghost use Rattle.api_routes.specs.RouteClass.{takeover};
ghost use Rattle.api_routes.specs.declared.class.Class.TheVariants.{Stream};
ghost use Rattle.session_model.specs.Pass.{IsConnection};
ghost use Rattle.session_model.specs.Responses.{takeover_head};
ghost use Rattle.attach_hub.specs.Connection.{HasNumbers};
ghost use Rattle.attach_hub.specs.Following.{MayFollow};
ghost use Rattle.exchange_laws.specs.Kinds.{IsAttaching, stream_of};
ghost use Rattle.engine_serve.specs.Overtaking.{Overtakes, TriesSo};

use crate::answer::{send_journal_full, send_out_of_memory, send_reply};
use crate::streaming::ending_of;
use crate::went::Tried;
use attach_hub::{Connection, take_over};
use daemon_core::{Pairs, Turns};
use engine_ports::{Clock, Failed, Sink, Source};
use engine_text::{Call, LogSpec, Reply};
use http_edge::{Form, Head, RequestReader, RequestView, write_head};
use session_model::{Ending, Terms, Turned};
use std::sync::Wait;
use std::thread::Threads;

/// The log's stream that a reply gives.
fn stream_of(reply: &Reply) -> Option<LogSpec>
    ensures { result ≡ stream_of reply.now }
{
    match reply {
        Reply::LogStream { spec } => Some(*spec),
        Reply::Answer { .. }
        | Reply::Begun { .. }
        | Reply::EventStream { .. }
        | Reply::JournalStream { .. }
        | Reply::Fed { .. }
        | Reply::Dropped => None,
    }
}

/// Makes the call of a request for the connection. Its refusal is sent.
pub(crate) fn open<W, T: Turns, K: Sink, C: Clock>(
    conn: &mut Connection<'_, W, T, K, C>,
    request: &RequestView<'_>,
    call: &Call,
    upgrade: bool,
) -> Tried
    requires numbers { HasNumbers conn.old }
    requires class { class_of (request_of request.now) ≡ Stream call.now (takeover upgrade) }
    requires sound { IsSound call.now }
    requires attaching { IsAttaching call.now }
    ensures same { conn.new.who ≡ conn.old.who }
    ensures tries { TriesSo (request_of request.now) result conn.old conn.new }
{
    let terms = Terms::of(request);
    match conn.turn(call) {
        Turned::Replied(reply) => match stream_of(&reply) {
            Some(spec) => Tried::Over { upgrade, spec },
            None => Tried::Answered(send_reply(conn.sink, terms, &reply)),
        },
        Turned::JournalFull => Tried::Answered(send_journal_full(conn.sink, terms)),
        Turned::NoMemory => Tried::Answered(send_out_of_memory(conn.sink, terms)),
        Turned::Begun { .. } | Turned::NotYet | Turned::Nothing => unreachable!(),
    }
}

/// Writes the head of a takeover. It takes no memory.
fn write_takeover<K: Sink>(sink: &mut K, upgrade: bool) -> Result<(), Failed>
    ensures { WriteSays result (takeover_head (takeover upgrade))
        (K.takes sink.old) (K.takes sink.new) }
{
    let head = Head {
        status: if upgrade { 101 } else { 200 },
        form: Form::Takeover { upgrade },
        close: false,
    };
    write_head(sink, &head)
}

/// Takes the connection over: the head at once, and then the stream as it comes, while what comes behind the
/// request is fed to the run, where that takes input. It may wait.
#[inline(never)]
pub(crate) fn overtake<R: Threads + Wait + Sync, T: Pairs, S: Source, K: Sink, C: Clock>(
    conn: &mut Connection<'_, R, T, K, C>,
    upgrade: bool,
    spec: &LogSpec,
    reader: &mut RequestReader,
    source: &mut S,
) -> Ending
    requires connection { IsConnection conn.old.who.number }
    requires numbers { HasNumbers conn.old }
    requires may { MayFollow (state_after conn.old.pass.charter conn.old.pass.seen) spec.now }
    ensures same { conn.new.who ≡ conn.old.who }
    ensures overtakes { Overtakes upgrade spec.now result conn.old conn.new reader.old.ahead
        (S.gives source.old) (S.gives source.new) }
{
    match write_takeover(conn.sink, upgrade) {
        Err(Failed) => Ending::WriteFault,
        Ok(()) => {
            let (followed, pumped) = take_over(conn, spec, reader, source);
            ending_of(followed, pumped)
        }
    }
}
