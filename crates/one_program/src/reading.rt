// A journal, read from a source to its end.
ghost use Rattle.std.specs.Prelude.{◌<◌, ◌≤◌, length};
ghost use Rattle.one_program.specs.Reading.{Adds, ReadsJournal, most_bytes};

use engine_ports::{Got, Source};
use std::alloc::Global;

/// The most bytes of a journal.
const MOST: usize = 268_435_456;

/// How many bytes are read at once at most.
const PIECE: usize = 4_096;

/// Why there is no journal.
#[derive(Clone, Copy)]
pub(crate) enum Unread {
    TooLong,
    /// A read failed.
    Failed,
    NoMemory,
}

/// Adds a piece to a text, unless the text would be too long.
fn add(text: &mut Vec<u8>, piece: &[u8]) -> Result<(), Unread>
    requires { length text.old.items ≤ most_bytes }
    ensures { Adds result text.old.items piece.now text.new.items }
{
    if piece.len() > MOST - text.len() {
        return Err(Unread::TooLong);
    }
    match text.extend_from_slice(piece) {
        Ok(()) => Ok(()),
        Err(_) => Err(Unread::NoMemory),
    }
}

/// All that a source gives, through this place.
fn read_through<S: Source>(
    alloc: Global,
    source: &mut S,
    place: &mut [u8],
) -> Result<Vec<u8>, Unread>
    requires { 0 < length place.old }
    ensures { ReadsJournal result (S.gives source.old) (S.gives source.new) }
{
    let mut text = Vec::new(alloc);
    'more: loop {
        match source.read(place) {
            Got::Bytes(count) => match add(&mut text, &place[..count]) {
                Ok(()) => {}
                Err(why) => return Err(why),
            },
            Got::End => return Ok(text),
            Got::Failed => return Err(Unread::Failed),
        }
    }
}

/// All that a source gives up to its end.
pub(crate) fn read_journal<S: Source>(alloc: Global, source: &mut S) -> Result<Vec<u8>, Unread>
    ensures { ReadsJournal result (S.gives source.old) (S.gives source.new) }
{
    let mut place = Vec::new(alloc);
    match place.resize(PIECE, 0) {
        Ok(()) => read_through(alloc, source, &mut place),
        Err(_) => Err(Unread::NoMemory),
    }
}
