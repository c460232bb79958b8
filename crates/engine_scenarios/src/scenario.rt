// One line of standard input.
ghost use Rattle.std.specs.Prelude.{◌<◌};

use engine_text::Text;
use std::alloc::{AllocError, Global};

/// How the bytes of a file come.
#[derive(Clone, Copy, Debug, PartialEq, Eq)]
pub enum Coming {
    /// At most so many at once, at least one.
    Pieces(usize),
    /// Cut after each of its bytes in turn, but for the last.
    Cuts,
    /// The read or the write of that number, from 0, fails.
    FailingRead(u64),
    FailingWrite(u64),
    /// The pause of that number, from 0, is answered by a stop.
    StoppedPause(u64),
    /// In the slots of several connections.
    Talk,
    /// Of several connections at once, through a door in memory.
    Crowd,
    /// Of several connections over sockets.
    Sockets,
    /// Not at all, since the port is taken.
    Taken,
}

/// A file of `data/`, how its bytes come, and the words of the daemon's line.
#[derive(Drop)]
pub struct Scenario {
    pub name: Text,
    pub coming: Coming,
    pub words: Vec<Text>,
}

// `cuts`, `talk`, `crowd`, `sockets` or `taken`.
fn read_word(word: &str) -> Option<Coming> {
    match word {
        "cuts" => Some(Coming::Cuts),
        "talk" => Some(Coming::Talk),
        "crowd" => Some(Coming::Crowd),
        "sockets" => Some(Coming::Sockets),
        "taken" => Some(Coming::Taken),
        _ => None,
    }
}

// Such a word, or `pieces=N`, `read=N`, `write=N` or `stop=N`.
fn read_coming(word: &str) -> Option<Coming> {
    if let Some(coming) = read_word(word) {
        return Some(coming);
    }
    let (key, number) = word.split_once('=')?;
    match key {
        "pieces" => Some(Coming::Pieces(number.parse().ok()?)),
        "read" => Some(Coming::FailingRead(number.parse().ok()?)),
        "write" => Some(Coming::FailingWrite(number.parse().ok()?)),
        "stop" => Some(Coming::StoppedPause(number.parse().ok()?)),
        _ => None,
    }
}

/// A text in memory of its own.
pub fn owned(alloc: Global, text: &str) -> Result<Text, AllocError> {
    Ok(Text::from_string(String::from_str(alloc, text)?))
}

impl Scenario {
    /// Reads `NAME COMING WORD ..`, or tells that the line is none.
    pub fn read(alloc: Global, line: &str) -> Result<Option<Scenario>, AllocError> {
        let mut parts = line.split_whitespace();
        let Some(name) = parts.next() else {
            return Ok(None);
        };
        let Some(word) = parts.next() else {
            return Ok(None);
        };
        let Some(coming) = read_coming(word) else {
            return Ok(None);
        };
        let mut words = Vec::new(alloc);
        for part in parts {
            words.push(owned(alloc, part)?)?;
        }
        let name = owned(alloc, name)?;
        Ok(Some(Scenario {
            name,
            coming,
            words,
        }))
    }
}
