// A request for a stream, answered.
ghost use Rattle.std.specs.Prelude.{◌≡◌, true, Some};
ghost use Rattle.engine_text.specs.Soundness.{IsSound};
ghost use Rattle.http_edge.specs.Reader.{request_of};
ghost use Rattle.api_routes.specs.Class.{class_of};
ghost use Rattle.api_routes.specs.declared.class.Class.TheVariants.{Stream};
ghost use Rattle.api_routes.specs.declared.class.Takeover.TheVariants as takes;
ghost use Rattle.session_model.specs.Responses.{chunked_form};
ghost use Rattle.session_model.specs.Session.{ending_by_pump, ending_of_ends};
ghost use Rattle.attach_hub.specs.Connection.{HasNumbers};
ghost use Rattle.attach_hub.specs.Following.{CanFollow, Follows};
ghost use Rattle.exchange_laws.specs.Kinds.{IsStreamed};
ghost use Rattle.engine_serve.specs.Serving.{Tries};
ghost use Rattle.engine_serve.specs.Streaming.{EndsStream, SendsStream};

use crate::answer::{behind, send_journal_full, send_out_of_memory, send_reply};
use crate::went::Went;
use attach_hub::{Connection, follow_events, follow_journal, follow_log};
use daemon_core::Turns;
use engine_ports::{Clock, Failed, Sink};
use engine_text::{Call, Reply};
use http_edge::{Form, Head, RequestView, write_head, write_last};
use session_model::{Ending, Followed, PumpEnd, Terms, Turned};
use std::sync::Wait;

/// The form of the stream that a reply gives.
fn form_of(reply: &Reply) -> Option<Form>
    ensures { result ≡ chunked_form reply.now }
{
    match reply {
        Reply::LogStream { .. } => Some(Form::ChunkedFrames),
        Reply::EventStream { first, .. } => Some(Form::ChunkedJson {
            first: Some(*first),
        }),
        Reply::JournalStream { .. } => Some(Form::ChunkedPlain),
        Reply::Answer { .. } | Reply::Begun { .. } | Reply::Fed { .. } | Reply::Dropped => None,
    }
}

/// The ending of a session whose last stream is whole, by how its input was pumped, if it was.
fn ending_by_pump(pumped: Option<PumpEnd>) -> Ending
    ensures { result ≡ ending_by_pump pumped }
{
    match pumped {
        Some(PumpEnd::Stopped) => Ending::Stopped,
        Some(PumpEnd::JournalFull) => Ending::JournalFull,
        Some(PumpEnd::ReadFault) => Ending::ReadFault,
        Some(PumpEnd::NoMemory) => Ending::NoMemory,
        Some(PumpEnd::Ended) | Some(PumpEnd::Gone) | None => Ending::Closed,
    }
}

/// The ending of a session whose last stream was followed so, and its input pumped so, if it was.
pub(crate) fn ending_of(followed: Followed, pumped: Option<PumpEnd>) -> Ending
    ensures { result ≡ ending_of_ends followed pumped }
{
    match followed {
        Followed::Whole => ending_by_pump(pumped),
        Followed::Stopped => Ending::Stopped,
        Followed::Lagged { next, first } => Ending::Lagged { next, first },
        Followed::WriteFault => Ending::WriteFault,
        Followed::NoMemory => Ending::NoMemory,
    }
}

/// Ends a stream in chunks: by the last chunk exactly where it is whole. It takes no memory.
fn end_stream<K: Sink>(sink: &mut K, terms: Terms, followed: Followed) -> Went
    ensures { EndsStream terms followed result (K.takes sink.old) (K.takes sink.new) }
{
    match followed {
        Followed::Whole => {
            let written = write_last(sink);
            behind(terms, written)
        }
        broken => Went::Ends(ending_of(broken, None)),
    }
}

/// Writes the stream that a reply gives, as it comes.
fn follow<W: Wait, T: Turns, K: Sink, C: Clock>(
    conn: &mut Connection<'_, W, T, K, C>,
    reply: &Reply,
) -> Followed
    requires numbers { HasNumbers conn.old }
    requires may { CanFollow conn.old.pass.charter conn.old.pass.seen reply.now }
    ensures same { conn.new.who ≡ conn.old.who }
    ensures follows { Follows reply.now true result conn.old conn.new }
{
    match reply {
        Reply::LogStream { spec } => follow_log(conn, spec, true),
        Reply::EventStream {
            first,
            until,
            filter,
        } => follow_events(conn, *first, *until, filter, true),
        Reply::JournalStream { count } => follow_journal(conn, *count, true),
        _ => unreachable!(),
    }
}

/// Sends a stream in chunks: the head at once, and then its parts as they come.
fn send_stream<W: Wait, T: Turns, K: Sink, C: Clock>(
    conn: &mut Connection<'_, W, T, K, C>,
    terms: Terms,
    form: Form,
    reply: &Reply,
) -> Went
    requires numbers { HasNumbers conn.old }
    requires form { chunked_form reply.now ≡ Some form }
    requires may { CanFollow conn.old.pass.charter conn.old.pass.seen reply.now }
    ensures same { conn.new.who ≡ conn.old.who }
    ensures sends { SendsStream terms reply.now result conn.old conn.new }
{
    let head = Head {
        status: 200,
        form,
        close: terms.close,
    };
    match write_head(conn.sink, &head) {
        Err(Failed) => Went::Ends(Ending::WriteFault),
        Ok(()) => {
            let followed = follow(conn, reply);
            end_stream(conn.sink, terms, followed)
        }
    }
}

/// Answers a request for a log, for events or for the journal by its call: with the stream that it gives, or
/// with its refusal.
pub(crate) fn stream<W: Wait, T: Turns, K: Sink, C: Clock>(
    conn: &mut Connection<'_, W, T, K, C>,
    request: &RequestView<'_>,
    call: &Call,
) -> Went
    requires numbers { HasNumbers conn.old }
    requires class { class_of (request_of request.now) ≡ Stream call.now takes.None }
    requires sound { IsSound call.now }
    requires streamed { IsStreamed call.now }
    ensures same { conn.new.who ≡ conn.old.who }
    ensures tries { Tries (request_of request.now) result conn.old conn.new }
{
    let terms = Terms::of(request);
    match conn.turn(call) {
        Turned::Replied(reply) => match form_of(&reply) {
            Some(form) => send_stream(conn, terms, form, &reply),
            None => send_reply(conn.sink, terms, &reply),
        },
        Turned::JournalFull => send_journal_full(conn.sink, terms),
        Turned::NoMemory => send_out_of_memory(conn.sink, terms),
        Turned::Begun { .. } | Turned::NotYet | Turned::Nothing => unreachable!(),
    }
}
