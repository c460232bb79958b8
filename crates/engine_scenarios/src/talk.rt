// A talk: what several connections do, one slot behind the other.
use std::alloc::{AllocError, Global};
use std::str;

/// The moment of the opening, in milliseconds since 1970.
pub const MOMENT: u64 = 1_700_000_000_000;

/// What a connection does in its slot.
#[derive(Clone, Copy, Debug, PartialEq, Eq)]
pub enum Act {
    /// It goes on, by the bytes of the slot where there are some.
    GoesOn,
    /// Its input ends.
    Ends,
    /// The pause in which it is is answered by a stop.
    Stops,
    /// From here on each of its writes fails.
    Breaks,
}

/// A connection goes on in its slot until it wants more input, pauses or ends.
#[derive(Drop)]
pub struct Slot {
    /// The line that it stands in, without its end.
    pub line: Vec<u8>,
    pub who: u32,
    /// What its clock tells, in milliseconds since 1970.
    pub moment: u64,
    pub act: Act,
    pub bytes: Vec<u8>,
}

/// What the line of a slot says.
#[derive(Clone, Copy)]
struct Head {
    who: u32,
    moment: u64,
    act: Act,
    /// How many bytes of what follows are the slot's.
    count: usize,
}

// `on`, `end`, `stop`, `gone`, or how many bytes of what follows are sent.
fn read_act(word: &str) -> Option<(Act, usize)> {
    match word {
        "on" => Some((Act::GoesOn, 0)),
        "end" => Some((Act::Ends, 0)),
        "stop" => Some((Act::Stops, 0)),
        "gone" => Some((Act::Breaks, 0)),
        _ => Some((Act::GoesOn, word.parse().ok()?)),
    }
}

// The connection, the moment behind the opening, and what it does.
fn read_head(line: &str) -> Option<Head> {
    let mut words = line.split_whitespace();
    let who = words.next()?.parse().ok()?;
    let behind: u64 = words.next()?.parse().ok()?;
    let (act, count) = read_act(words.next()?)?;
    Some(Head {
        who,
        moment: MOMENT.saturating_add(behind),
        act,
        count,
    })
}

/// So many bytes that stand behind a line, and what follows behind the end of theirs. Without bytes there is no such line.
pub fn cut(text: &str, count: usize) -> Option<(&str, &str)> {
    if count == 0 {
        return Some(("", text));
    }
    let (bytes, rest) = text.split_at_checked(count)?;
    Some((bytes, rest.strip_prefix('\n')?))
}

fn slot_of(alloc: Global, line: &str, head: Head, bytes: &str) -> Result<Slot, AllocError> {
    Ok(Slot {
        line: line.as_bytes().to_vec(alloc)?,
        who: head.who,
        moment: head.moment,
        act: head.act,
        bytes: bytes.as_bytes().to_vec(alloc)?,
    })
}

/// Reads the slots of a talk: of each a line, and its bytes with the end of a line behind them. Or
/// tells that the bytes are none.
pub fn read_talk(alloc: Global, bytes: &[u8]) -> Result<Option<Vec<Slot>>, AllocError> {
    let Ok(text) = str::from_utf8(bytes) else {
        return Ok(None);
    };
    let mut slots = Vec::new(alloc);
    let mut left = text;
    for _ in 0..bytes.len() {
        let Some((line, rest)) = left.split_once('\n') else {
            break;
        };
        let Some(head) = read_head(line) else {
            return Ok(None);
        };
        let Some((sent, rest)) = cut(rest, head.count) else {
            return Ok(None);
        };
        slots.push(slot_of(alloc, line, head, sent)?)?;
        left = rest;
    }
    Ok(Some(slots))
}
