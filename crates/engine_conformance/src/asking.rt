// Requests, and the ids that they name.
use crate::short::Short;
use engine_text::id_of;
use std::alloc::Global;
use std::str;

/// The id of that number under the seed of zeros.
pub fn id_text(alloc: Global, number: u64) -> Result<String, Short> {
    let id = id_of(&[0; 32], number);
    Ok(String::from_str(alloc, str::from_utf8(&id).unwrap_or(""))?)
}

/// The text with the ids of numbers 0 and 1 in place of `ID0` and `ID1`.
pub fn with_ids(alloc: Global, text: &str) -> Result<String, Short> {
    let first = id_text(alloc, 0)?;
    let second = id_text(alloc, 1)?;
    let told = text.replace(alloc, "ID0", &first)?;
    Ok(told.replace(alloc, "ID1", &second)?)
}

// Adds the request of a line: a method, a target, and a body if there is one.
fn add(bytes: &mut Vec<u8>, alloc: Global, line: &str) -> Result<(), Short> {
    let (method, rest) = line.split_once(' ').unwrap_or((line, ""));
    let (target, body) = rest.split_once(' ').unwrap_or((rest, ""));
    let head = if body.is_empty() {
        format!(in alloc; "{method} {target} HTTP/1.1\r\nHost: x\r\n\r\n")?
    } else {
        let length = body.len();
        format!(in alloc;
            "{method} {target} HTTP/1.1\r\nHost: x\r\nContent-Length: {length}\r\n\r\n"
        )?
    };
    bytes.extend_from_slice(head.as_bytes())?;
    bytes.extend_from_slice(body.as_bytes())?;
    Ok(())
}

/// The requests of these lines, one behind the other: each a method, a target, and a body if there is one. `ID0`
/// and `ID1` stand for the ids of these numbers.
pub fn requests(alloc: Global, lines: &str) -> Result<Vec<u8>, Short> {
    let lines = with_ids(alloc, lines)?;
    let mut bytes = Vec::new(alloc);
    for line in lines.lines() {
        add(&mut bytes, alloc, line)?;
    }
    Ok(bytes)
}
