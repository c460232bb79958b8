// Which words are a line of the daemon.
use crate::line::owned;
use crate::short::Short;
use engine_line::read_line;
use engine_text::Text;
use std::alloc::Global;

// The words of a line, which are apart by single blanks.
fn words_of(alloc: Global, line: &str) -> Result<Vec<Text>, Short> {
    let mut words = Vec::new(alloc);
    for word in line.split(' ') {
        words.push(Text::of(alloc, word)?)?;
    }
    Ok(words)
}

/// What the words of a line ask for.
pub fn told(alloc: Global, kind: &str, line: &str) -> Result<String, Short> {
    if kind != "engined" {
        return owned(alloc, "no such kind");
    }
    let words = words_of(alloc, line)?;
    match read_line(alloc, &words)? {
        Some(line) => Ok(format!(in alloc; "{line:?}")?),
        None => owned(alloc, "no line"),
    }
}
