// A wait whose head comes before it is over.
ghost use Rattle.std.specs.Prelude.{◌≡◌, ◌++◌, []};
ghost use Rattle.engine_ports.specs.Sink.{WriteSays};
ghost use Rattle.http_edge.specs.Chunks.{last_chunk};
ghost use Rattle.http_edge.specs.Reader.{request_of};
ghost use Rattle.session_model.specs.Exchange.{is_early};
ghost use Rattle.session_model.specs.Responses.{early_head};
ghost use Rattle.session_model.specs.Turning.{HasBegun};
ghost use Rattle.daemon_core.specs.Whole.{IsAnswer};
ghost use Rattle.attach_hub.specs.Connection.{HasNumbers};
ghost use Rattle.exchange_laws.specs.Answers.{one_chunk};
ghost use Rattle.engine_serve.specs.Answering.{WasAnswered};
ghost use Rattle.engine_serve.specs.Early.{SendsBody, SendsBehind, WaitsEarly};

use crate::answer::behind;
use crate::went::Went;
use attach_hub::{Connection, await_ticket, drop_ticket};
use daemon_core::Turns;
use engine_ports::{Clock, Failed, Sink};
use engine_text::{Call, Reply};
use http_edge::{Form, Head, RequestView, write_chunk, write_head, write_last};
use session_model::{Awaited, Ending, Terms};
use std::sync::Wait;

/// Whether the head of the call's answer comes before its ticket is taken.
pub(crate) fn is_early(request: &RequestView<'_>, call: &Call) -> bool
    ensures { result ≡ is_early (request_of request.now) call.now }
{
    match call {
        Call::Wait { .. } => request.asks_early(),
        _ => false,
    }
}

/// Writes the head of a body whose length isn't known yet.
fn write_early<K: Sink>(sink: &mut K, terms: Terms) -> Result<(), Failed>
    ensures { WriteSays result (early_head terms) (K.takes sink.old) (K.takes sink.new) }
{
    let head = Head {
        status: 200,
        form: Form::ChunkedJson { first: None },
        close: terms.close,
    };
    write_head(sink, &head)
}

/// Writes a body as one chunk, or as none where it is empty, and the last chunk.
fn write_chunked<K: Sink>(sink: &mut K, body: &[u8]) -> Result<(), Failed>
    ensures { WriteSays result (one_chunk body.now ++ last_chunk)
        (K.takes sink.old) (K.takes sink.new) }
{
    if body.is_empty() {
        return write_last(sink);
    }
    write_chunk(sink, body)?;
    write_last(sink)
}

/// Sends the body of a reply, behind its head.
fn send_chunked<K: Sink>(sink: &mut K, terms: Terms, reply: &Reply) -> Went
    requires { IsAnswer reply.now }
    ensures { SendsBody terms [] reply.now result (K.takes sink.old) (K.takes sink.new) }
{
    match reply {
        Reply::Answer { body, .. } => {
            let written = write_chunked(sink, body.as_slice());
            behind(terms, written)
        }
        _ => unreachable!(),
    }
}

/// Sends what a wait for a ticket came to, behind its head: nothing where it was broken off.
fn send_late<K: Sink>(sink: &mut K, terms: Terms, awaited: &Awaited) -> Went
    requires { WasAnswered awaited.now }
    ensures { SendsBehind terms [] awaited.now result (K.takes sink.old) (K.takes sink.new) }
{
    match awaited {
        Awaited::Replied(reply) => send_chunked(sink, terms, reply),
        Awaited::Stopped => Went::Ends(Ending::Stopped),
        Awaited::WriteFault => Went::Ends(Ending::WriteFault),
        Awaited::NoMemory => Went::Ends(Ending::NoMemory),
    }
}

/// Sends a head at once, waits for the ticket, and sends the rest. Where the head can't be written, the
/// ticket is dropped.
pub(crate) fn wait_early<W: Wait, T: Turns, K: Sink, C: Clock>(
    conn: &mut Connection<'_, W, T, K, C>,
    ticket: u64,
    terms: Terms,
) -> Went
    requires numbers { HasNumbers conn.old }
    requires begun { HasBegun conn.old.pass.charter conn.old.who.number ticket
        conn.old.pass.seen }
    ensures same { conn.new.who ≡ conn.old.who }
    ensures waits { WaitsEarly ticket terms result conn.old conn.new }
{
    match write_early(conn.sink, terms) {
        Ok(()) => {
            let awaited = await_ticket(conn, ticket);
            send_late(conn.sink, terms, &awaited)
        }
        Err(Failed) => {
            drop_ticket(conn, ticket);
            Went::Ends(Ending::WriteFault)
        }
    }
}
