// Parts of a stream.
ghost use Rattle.std.specs.Prelude.{◌≡◌, IsSome, IsTrue};
ghost use Rattle.session_model.specs.Pass.{IsNumber};
ghost use Rattle.session_model.specs.Responses.{chunked_form};
ghost use Rattle.attach_hub.specs.Streams.{StandsIn, first_of};
ghost use Rattle.polled_steps.specs.Telling.{AsksPart, IsToldBy, TellsOnce, is_last};

use daemon_core::Turns;
use engine_text::Reply;
use session_model::Part;
use std::alloc::Global;

/// What asking for a part of a stream came to.
#[derive(Drop)]
pub enum Told {
    /// These bytes, perhaps none, and more from this place on.
    More { next: u64, bytes: Vec<u8> },
    UpToDate,
    /// These bytes, perhaps none, are its last.
    Whole(Vec<u8>),
    /// What comes next isn't kept any more.
    Gone { next: u64, first: u64 },
    NoMemory,
}

/// Where the stream of a reply begins.
pub fn first_of(reply: &Reply) -> u64
    ensures { result ≡ first_of reply.now }
{
    match reply {
        Reply::LogStream { spec } => spec.first,
        Reply::EventStream { first, .. } => *first,
        _ => 0,
    }
}

/// Whether a part up to this place is the stream's last.
fn is_last(reply: &Reply, next: u64) -> bool
    ensures { result ≡ is_last reply.now next }
{
    match reply {
        Reply::JournalStream { count } => *count < next,
        _ => false,
    }
}

/// A part of the stream of a reply from a place on. No moment counts for the journal.
fn ask_part<T: Turns>(
    turns: &mut T,
    alloc: Global,
    conn: u32,
    handed: u64,
    reply: &Reply,
    place: u64,
    out: &mut Vec<u8>,
) -> Part
    requires number { IsNumber (T.pass turns.old).number conn }
    requires pair { IsTrue (T.pass turns.old).pair }
    requires streams { IsSome (chunked_form reply.now) }
    requires stands { StandsIn (T.pass turns.old).charter (T.pass turns.old).seen reply.now place }
    ensures { AsksPart conn handed reply.now place result out.old.items out.new.items
        (T.pass turns.old) (T.pass turns.new) }
{
    match reply {
        Reply::LogStream { spec } => turns.log_from(alloc, conn, handed, spec, place, out),
        Reply::EventStream { until, filter, .. } => {
            turns.events_from(alloc, conn, handed, place, out, filter, *until)
        }
        Reply::JournalStream { .. } => turns.journal_from(alloc, conn, place, out),
        _ => unreachable!(),
    }
}

fn by_part(reply: &Reply, part: Part, bytes: Vec<u8>) -> Told
    ensures { IsToldBy reply.now result part bytes.items }
{
    match part {
        Part::More { next } if is_last(reply, next) => Told::Whole(bytes),
        Part::More { next } => Told::More { next, bytes },
        Part::Whole => Told::Whole(bytes),
        Part::UpToDate => Told::UpToDate,
        Part::Gone { next, first } => Told::Gone { next, first },
        Part::NoMemory => Told::NoMemory,
    }
}

/// Asks for a part of the stream that a reply gave, from a place on.
pub fn tell_once<T: Turns>(
    turns: &mut T,
    alloc: Global,
    conn: u32,
    handed: u64,
    reply: &Reply,
    place: u64,
) -> Told
    requires number { IsNumber (T.pass turns.old).number conn }
    requires pair { IsTrue (T.pass turns.old).pair }
    requires streams { IsSome (chunked_form reply.now) }
    requires stands { StandsIn (T.pass turns.old).charter (T.pass turns.old).seen reply.now place }
    ensures { TellsOnce conn handed reply.now place result (T.pass turns.old) (T.pass turns.new) }
{
    let mut bytes = Vec::new(alloc);
    let part = ask_part(turns, alloc, conn, handed, reply, place, &mut bytes);
    by_part(reply, part, bytes)
}
