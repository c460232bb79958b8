// One line of standard input.
use crate::failing::Each;
use engine_text::Text;
use scarce_turns::Scarcity;
use std::alloc::{AllocError, Global};

/// What is run.
#[derive(Clone, Copy, Debug, PartialEq, Eq)]
pub enum Kind {
    /// A session, of which turns may be refused or the clock stopped.
    Session,
    /// A session that each of these befalls in turn.
    Each(Each),
}

/// What is run, the file of `data/` that has its requests, and the words behind it.
#[derive(Drop)]
pub struct Line {
    pub kind: Kind,
    pub name: Text,
    words: Vec<Text>,
}

fn kind_of(word: &str) -> Option<Kind> {
    match word {
        "session" => Some(Kind::Session),
        "reads" => Some(Kind::Each(Each::Read)),
        "writes" => Some(Kind::Each(Each::Write)),
        "cuts" => Some(Kind::Each(Each::Cut)),
        _ => None,
    }
}

fn owned(alloc: Global, text: &str) -> Result<Text, AllocError> {
    Ok(Text::from_string(String::from_str(alloc, text)?))
}

impl Line {
    /// Reads `KIND NAME WORD ..`, or tells that the line is none.
    pub fn read(alloc: Global, line: &str) -> Result<Option<Line>, AllocError> {
        let mut parts = line.split_whitespace();
        let Some(kind) = parts.next() else {
            return Ok(None);
        };
        let Some(kind) = kind_of(kind) else {
            return Ok(None);
        };
        let Some(name) = parts.next() else {
            return Ok(None);
        };
        let mut words = Vec::new(alloc);
        for part in parts {
            words.push(owned(alloc, part)?)?;
        }
        let name = owned(alloc, name)?;
        Ok(Some(Line { kind, name, words }))
    }

    /// What stands behind `KEY=` in a word.
    pub fn value(&self, key: &str) -> Option<&str> {
        for word in &self.words {
            if let Some((name, value)) = word.as_str().split_once('=') {
                if name == key {
                    return Some(value);
                }
            }
        }
        None
    }

    /// The number behind `KEY=`.
    pub fn number(&self, key: &str) -> Option<u64> {
        self.value(key)?.parse().ok()
    }

    /// Which turns are refused, by `calls=N` or `takes=N`.
    pub fn scarcity(&self) -> Option<Scarcity> {
        if let Some(number) = self.number("calls") {
            return Some(Scarcity::Calls(number));
        }
        match self.number("takes") {
            Some(number) => Some(Scarcity::Takes(number)),
            None => None,
        }
    }
}
