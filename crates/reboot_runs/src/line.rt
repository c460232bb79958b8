// One line of standard input.
use engine_text::Text;
use std::alloc::{AllocError, Global};

/// How often it is rebooted.
#[derive(Clone, Copy, Debug, PartialEq, Eq)]
pub enum Kind {
    Once,
    /// The journal that is left is rebooted at that moment.
    Again(u64),
    /// With a wrong byte at each place of the last line in turn.
    Wrong,
}

/// The file of `data/` that has the journal, the greatest number of entries, the moment that is handed in milliseconds, and what is
/// done.
#[derive(Drop)]
pub struct Line {
    pub name: Text,
    pub greatest: u64,
    pub handed: u64,
    pub kind: Kind,
}

// What the word behind the numbers asks for.
fn kind_of(word: Option<&str>) -> Option<Kind> {
    match word {
        None => Some(Kind::Once),
        Some("wrong") => Some(Kind::Wrong),
        Some(word) => Some(Kind::Again(word.parse().ok()?)),
    }
}

// The numbers and the kind.
fn numbers_of(greatest: &str, handed: &str, word: Option<&str>) -> Option<(u64, u64, Kind)> {
    Some((greatest.parse().ok()?, handed.parse().ok()?, kind_of(word)?))
}

impl Line {
    /// Reads `FILE GREATEST HANDED [LATER | wrong]`, or tells that the line is none.
    pub fn read(alloc: Global, line: &str) -> Result<Option<Line>, AllocError> {
        let mut parts = line.split_whitespace();
        let (Some(name), Some(greatest), Some(handed)) = (parts.next(), parts.next(), parts.next())
        else {
            return Ok(None);
        };
        let Some((greatest, handed, kind)) = numbers_of(greatest, handed, parts.next()) else {
            return Ok(None);
        };
        let name = Text::from_string(String::from_str(alloc, name)?);
        Ok(Some(Line {
            name,
            greatest,
            handed,
            kind,
        }))
    }
}
