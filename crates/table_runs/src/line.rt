// The fields of a line.
use crate::short::Short;
use std::alloc::Global;

/// The first field of a line, and what follows the bar behind it.
pub fn cut(line: &str) -> (&str, &str) {
    line.split_once('|').unwrap_or((line, ""))
}

/// The number of a field; a field that is none is 0.
pub fn number(field: &str) -> u64 {
    field.parse().unwrap_or(0)
}

/// What a field spells: `\r`, `\n` and `\t` are a return, a line feed and a tab.
pub fn spelled(alloc: Global, field: &str) -> Result<String, Short> {
    let text = field.replace(alloc, "\\r", "\r")?;
    let text = text.replace(alloc, "\\n", "\n")?;
    Ok(text.replace(alloc, "\\t", "\t")?)
}

/// A text of its own.
pub fn owned(alloc: Global, text: &str) -> Result<String, Short> {
    Ok(String::from_str(alloc, text)?)
}

/// Bytes as the text that they are.
pub fn as_text(bytes: &[u8]) -> &str {
    str::from_utf8(bytes).unwrap_or("(no UTF-8)")
}
