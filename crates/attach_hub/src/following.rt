// Following a stream: a log, events, or the journal.
ghost use Rattle.std.specs.Prelude.{ℕ, ◌≡◌, ◌≤◌, length};
ghost use Rattle.engine_text.specs.declared.reply.Reply.TheVariants.{EventStream, JournalStream, LogStream};
ghost use Rattle.engine_ports.specs.Sink.{WriteSays};
ghost use Rattle.machine_model.specs.History.{events_of, state_after};
ghost use Rattle.journal_lines.specs.Entries.{history_entries};
ghost use Rattle.session_model.specs.Pass.{IsNumber};
ghost use Rattle.attach_hub.specs.Following.{Follows, FollowsSince, MayFollow, written_of};
ghost use Rattle.attach_hub.specs.Streams.{PartOf, StandsIn, first_of, reply_of};

use crate::connection::Connection;
use crate::polling::{Polled, poll};
use daemon_core::Turns;
use engine_ports::{Clock, Failed, Sink};
use engine_text::{Filter, LogSpec};
use http_edge::write_chunk;
use session_model::{Followed, Part};
use std::sync::Wait;

/// A stream that is followed.
#[derive(Drop)]
pub enum Stream<'a> {
    Log(&'a LogSpec),
    Events {
        first: u64,
        until: Option<u64>,
        filter: &'a Filter,
    },
    Journal {
        count: u64,
    },
}

/// Where the stream begins.
fn first_of(stream: &Stream<'_>) -> u64
    ensures { result ≡ first_of (reply_of stream.now) }
{
    match stream {
        Stream::Log(spec) => spec.first,
        Stream::Events { first, .. } => *first,
        Stream::Journal { .. } => 0,
    }
}

/// The journal's next line, of the header and so many entries; whole behind the last.
fn line_from<W, T: Turns, K: Sink, C: Clock>(
    conn: &mut Connection<'_, W, T, K, C>,
    count: u64,
    place: u64,
    out: &mut Vec<u8>,
) -> Part
    requires { IsNumber conn.old.pass.number conn.old.who.number }
    ensures { PartOf (JournalStream count) place result out.old.items out.new.items
        conn.old conn.new }
{
    if count < place {
        return Part::Whole;
    }
    conn.turns.journal_from(conn.alloc, conn.number, place, out)
}

/// A part of a log from a place on, at a moment of the clock.
fn log_part<W, T: Turns, K: Sink, C: Clock>(
    conn: &mut Connection<'_, W, T, K, C>,
    spec: &LogSpec,
    place: u64,
    out: &mut Vec<u8>,
) -> Part
    requires { IsNumber conn.old.pass.number conn.old.who.number }
    ensures { PartOf (LogStream spec.now) place result out.old.items out.new.items
        conn.old conn.new }
{
    let handed = conn.clock.now();
    conn.turns
        .log_from(conn.alloc, conn.number, handed, spec, place, out)
}

/// A part of a stream of events from a number on, at a moment of the clock.
fn event_part<W, T: Turns, K: Sink, C: Clock>(
    conn: &mut Connection<'_, W, T, K, C>,
    until: Option<u64>,
    filter: &Filter,
    place: u64,
    out: &mut Vec<u8>,
) -> Part
    requires number { IsNumber conn.old.pass.number conn.old.who.number }
    requires counted { place ≤ length (events_of conn.old.pass.charter conn.old.pass.seen) }
    ensures { (first : ℕ) → PartOf (EventStream first until filter.now) place result
        out.old.items out.new.items conn.old conn.new }
{
    let handed = conn.clock.now();
    conn.turns
        .events_from(conn.alloc, conn.number, handed, place, out, filter, until)
}

/// A part of the stream from a place on. The clock isn't asked for the journal.
fn part_of<W, T: Turns, K: Sink, C: Clock>(
    conn: &mut Connection<'_, W, T, K, C>,
    stream: &Stream<'_>,
    place: u64,
    out: &mut Vec<u8>,
) -> Part
    requires number { IsNumber conn.old.pass.number conn.old.who.number }
    requires stands { StandsIn conn.old.pass.charter conn.old.pass.seen (reply_of stream.now)
        place }
    ensures { PartOf (reply_of stream.now) place result out.old.items out.new.items
        conn.old conn.new }
{
    match stream {
        Stream::Log(spec) => log_part(conn, *spec, place, out),
        Stream::Events { until, filter, .. } => event_part(conn, *until, *filter, place, out),
        Stream::Journal { count } => line_from(conn, *count, place, out),
    }
}

/// Writes a piece of a body, as a chunk or as it is; of an empty one nothing. It takes no memory.
fn write_piece<W, T: Turns, K: Sink, C: Clock>(
    conn: &mut Connection<'_, W, T, K, C>,
    chunked: bool,
    piece: &[u8],
) -> Result<(), Failed>
    ensures same { conn.new ≡ record conn.old { sink = conn.new.sink } }
    ensures says { WriteSays result (written_of chunked piece.now) conn.old.sink conn.new.sink }
{
    if piece.is_empty() {
        return Ok(());
    }
    if chunked {
        write_chunk(conn.sink, piece)
    } else {
        conn.sink.write(piece)
    }
}

// Writes the stream as it comes, until it is whole: a part, and where it is up to date the next one
// 50 ms later, as long as its peer is there. It may begin where it could once be followed.
pub(crate) fn follow<W: Wait, T: Turns, K: Sink, C: Clock>(
    conn: &mut Connection<'_, W, T, K, C>,
    stream: &Stream<'_>,
    chunked: bool,
) -> Followed
    requires number { IsNumber conn.old.pass.number conn.old.who.number }
    requires stands { StandsIn conn.old.pass.charter conn.old.pass.seen (reply_of stream.now)
        (first_of (reply_of stream.now)) }
    ensures same { conn.new.who ≡ conn.old.who }
    ensures follows { FollowsSince (reply_of stream.now) chunked result conn.old conn.new }
{
    let mut place = first_of(stream);
    let rt = conn.rt;
    let alloc = conn.alloc;
    for _ in rt.forever() {
        let mut out = Vec::new(alloc);
        match part_of(conn, stream, place, &mut out) {
            Part::More { next } => {
                match write_piece(conn, chunked, out.as_slice()) {
                    Ok(()) => {}
                    Err(Failed) => return Followed::WriteFault,
                }
                place = next;
            }
            Part::UpToDate => match poll(conn) {
                Polled::Again => {}
                Polled::Stopped => return Followed::Stopped,
                Polled::WriteFault => return Followed::WriteFault,
            },
            Part::Whole => return Followed::Whole,
            Part::Gone { next, first } => return Followed::Lagged { next, first },
            Part::NoMemory => return Followed::NoMemory,
        }
    }
    unreachable!()
}

/// Writes the stream of a log as it comes, until it is whole. It may wait.
pub fn follow_log<W: Wait, T: Turns, K: Sink, C: Clock>(
    conn: &mut Connection<'_, W, T, K, C>,
    spec: &LogSpec,
    chunked: bool,
) -> Followed
    requires number { IsNumber conn.old.pass.number conn.old.who.number }
    requires may { MayFollow (state_after conn.old.pass.charter conn.old.pass.seen) spec.now }
    ensures same { conn.new.who ≡ conn.old.who }
    ensures follows { Follows (LogStream spec.now) chunked result conn.old conn.new }
{
    let stream = Stream::Log(spec);
    follow(conn, &stream, chunked)
}

/// Writes the lines of events as they come: those from a number on that the filter lets pass, at or
/// before the moment `until`. It is whole once the clock hands a moment that isn't before `until`,
/// and no event up to it is left; without that moment never. It may wait.
pub fn follow_events<W: Wait, T: Turns, K: Sink, C: Clock>(
    conn: &mut Connection<'_, W, T, K, C>,
    first: u64,
    until: Option<u64>,
    filter: &Filter,
    chunked: bool,
) -> Followed
    requires number { IsNumber conn.old.pass.number conn.old.who.number }
    requires counted { first ≤ length (events_of conn.old.pass.charter conn.old.pass.seen) }
    ensures same { conn.new.who ≡ conn.old.who }
    ensures follows { Follows (EventStream first until filter.now) chunked result
        conn.old conn.new }
{
    let stream = Stream::Events {
        first,
        until,
        filter,
    };
    follow(conn, &stream, chunked)
}

/// Writes the journal's header and the lines of its first entries, so many of them. The clock isn't asked for them.
pub fn follow_journal<W: Wait, T: Turns, K: Sink, C: Clock>(
    conn: &mut Connection<'_, W, T, K, C>,
    count: u64,
    chunked: bool,
) -> Followed
    requires number { IsNumber conn.old.pass.number conn.old.who.number }
    requires counted { count ≤ length
        (history_entries conn.old.pass.charter conn.old.pass.seen) }
    ensures same { conn.new.who ≡ conn.old.who }
    ensures follows { Follows (JournalStream count) chunked result conn.old conn.new }
{
    let stream = Stream::Journal { count };
    follow(conn, &stream, chunked)
}
