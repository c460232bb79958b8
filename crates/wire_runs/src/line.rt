// The fields of a line.
use crate::short::Short;
use std::alloc::Global;

/// The first field of a line, and what follows the bar behind it.
pub fn cut(line: &str) -> (&str, &str) {
    line.split_once('|').unwrap_or((line, ""))
}

/// The number of a field; a field that is none is 0.
pub fn number(field: &str) -> u64 {
    field.parse().unwrap_or(0)
}

/// What a field spells: `\r`, `\n` and `\t` are a return, a line feed and a tab.
pub fn spelled(alloc: Global, field: &str) -> Result<String, Short> {
    let text = field.replace(alloc, "\\r", "\r")?;
    let text = text.replace(alloc, "\\n", "\n")?;
    Ok(text.replace(alloc, "\\t", "\t")?)
}

/// A text of its own.
pub fn owned(alloc: Global, text: &str) -> Result<String, Short> {
    Ok(String::from_str(alloc, text)?)
}

/// Bytes as the text that they are.
pub fn as_text(bytes: &[u8]) -> &str {
    str::from_utf8(bytes).unwrap_or("(no UTF-8)")
}

/// The bytes whose numbers stand in a field; what is no byte is passed over.
pub fn bytes_of(alloc: Global, field: &str) -> Result<Vec<u8>, Short> {
    let mut bytes = Vec::new(alloc);
    for word in field.split_whitespace() {
        if let Ok(byte) = word.parse::<u8>() {
            bytes.push(byte)?;
        }
    }
    Ok(bytes)
}

/// The bytes of `COUNT|PIECE|BEFORE|AFTER`: the piece so often, between the two.
pub fn fill(alloc: Global, rest: &str) -> Result<String, Short> {
    let (count, rest) = cut(rest);
    let (piece, rest) = cut(rest);
    let (before, after) = cut(rest);
    let count: usize = count.parse().unwrap_or(0);
    let piece = spelled(alloc, piece)?;
    let pieces = piece.as_str().repeat(alloc, count)?;
    let before = spelled(alloc, before)?;
    let after = spelled(alloc, after)?;
    Ok(format!(in alloc; "{before}{pieces}{after}")?)
}
