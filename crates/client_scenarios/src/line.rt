// One line of standard input.
use engine_text::Text;
use std::alloc::{AllocError, Global};
use std::io;

/// What parts the words of a command from its standard input.
const INPUT: &str = " < ";

/// What parts a line from what it has in the place of the daemon, and the parts of that.
const INSTEAD: &str = " ~ ";

/// The words of a command behind its address, its standard input, and what it has outside.
#[derive(Drop)]
pub struct Line {
    /// The line as it stands.
    pub text: Text,
    pub words: Vec<Text>,
    pub input: Vec<u8>,
    /// What stands in the place of the daemon; nothing where the daemon is asked.
    pub instead: Vec<Text>,
}

/// Reads `connections N`: how many connections the daemon takes in.
fn read_connections(line: &str) -> Option<u32> {
    line.strip_prefix("connections ")?.parse().ok()
}

/// A text in memory of its own.
pub fn owned(alloc: Global, text: &str) -> Result<Text, AllocError> {
    Ok(Text::from_string(String::from_str(alloc, text)?))
}

// The byte that a letter behind a backslash stands for, if it stands for one.
fn escaped_by(letter: u8) -> Option<u8> {
    match letter {
        b'n' => Some(b'\n'),
        b'r' => Some(b'\r'),
        b'0'..=b'9' => Some(letter - b'0'),
        _ => None,
    }
}

/// The bytes of a text in which `\n` and `\r` stand for the bytes of a line's end, and `\0` to `\9`
/// for those of these numbers. Any other backslash stands for itself.
pub fn bytes_of(alloc: Global, text: &str) -> Result<Vec<u8>, AllocError> {
    let mut bytes = Vec::new(alloc);
    for &byte in text.as_bytes() {
        let escaped = match bytes.as_slice().last() {
            Some(b'\\') => escaped_by(byte),
            _ => None,
        };
        if escaped.is_some() {
            let _ = bytes.pop();
        }
        bytes.push(escaped.unwrap_or(byte))?;
    }
    Ok(bytes)
}

// The parts of what stands in the place of the daemon.
fn parts_of(alloc: Global, text: &str) -> Result<Vec<Text>, AllocError> {
    let mut parts = Vec::new(alloc);
    for part in text.split(INSTEAD) {
        parts.push(owned(alloc, part)?)?;
    }
    Ok(parts)
}

impl Line {
    /// Reads `WORD ..`, with ` < TEXT` behind it where it has input, and ` ~ PART` for each part of
    /// what stands in the place of the daemon.
    pub fn read(alloc: Global, line: &str) -> Result<Line, AllocError> {
        let (asked, instead) = match line.split_once(INSTEAD) {
            Some((asked, parts)) => (asked, parts_of(alloc, parts)?),
            None => (line, Vec::new(alloc)),
        };
        let (command, input) = asked.split_once(INPUT).unwrap_or((asked, ""));
        let mut words = Vec::new(alloc);
        for word in command.split_whitespace() {
            words.push(owned(alloc, word)?)?;
        }
        let text = owned(alloc, line)?;
        let input = bytes_of(alloc, input)?;
        Ok(Line {
            text,
            words,
            input,
            instead,
        })
    }

    /// Whether this is a part of what stands in the place of the daemon.
    pub fn has(&self, part: &str) -> bool {
        self.instead.iter().any(|one| one.as_str() == part)
    }
}

/// Reads `connections N` and all lines behind it, or tells that the first one isn't so.
pub fn read_lines<I: Input>(rt: &I, alloc: Global) -> io::Result<Option<(u32, Vec<Line>)>> {
    let mut most = None;
    let mut lines = Vec::new(alloc);
    for line in rt.lines(alloc) {
        let line = line?;
        if most.is_some() {
            lines.push(Line::read(alloc, line.as_str())?)?;
            continue;
        }
        most = read_connections(line.as_str());
        if most.is_none() {
            return Ok(None);
        }
    }
    Ok(most.map(|most| (most, lines)))
}
