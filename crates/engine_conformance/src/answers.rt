// What answers are told apart by.
use crate::asking::with_ids;
use crate::short::Short;
use std::alloc::Global;
use std::str;

/// What each answer begins with.
const PROTOCOL: &str = "HTTP/1.1 ";

/// What parts the texts that one answer has in that order.
const THEN: &str = " .. ";

// Whether the texts stand in the answer, each behind the one before.
fn has_in_order(answer: &str, texts: &str) -> bool {
    let mut rest = answer;
    for text in texts.split(THEN) {
        if text.is_empty() {
            continue;
        }
        match rest.split_once(text) {
            Some((_, behind)) => rest = behind,
            None => return false,
        }
    }
    true
}

// Whether an answer, behind its protocol, is the one of a line: a status, and texts if there are some.
fn is_of(answer: &str, line: &str) -> bool {
    let (status, texts) = line.split_once(' ').unwrap_or((line, ""));
    match answer.strip_prefix(status) {
        Some(rest) => texts.is_empty() || has_in_order(rest, texts),
        None => false,
    }
}

/// Whether what was written are as many answers as there are lines, each with the status that its line begins with, and with the
/// texts of the line in that order; `ID0` and `ID1` stand for the ids of these numbers.
pub fn tells(alloc: Global, written: &[u8], lines: &str) -> Result<bool, Short> {
    let Ok(text) = str::from_utf8(written) else {
        return Ok(false);
    };
    let lines = with_ids(alloc, lines)?;
    let mut answers = text.split(PROTOCOL);
    if answers.next() != Some("") {
        return Ok(false);
    }
    for line in lines.lines() {
        match answers.next() {
            Some(answer) if is_of(answer, line) => {}
            _ => return Ok(false),
        }
    }
    Ok(answers.next().is_none())
}

/// The last of the answers that were written.
pub fn last_answer(alloc: Global, written: &[u8]) -> Result<Option<String>, Short> {
    let Ok(text) = str::from_utf8(written) else {
        return Ok(None);
    };
    match text.rsplit_once(PROTOCOL) {
        Some((_, behind)) => Ok(Some(format!(in alloc; "{PROTOCOL}{behind}")?)),
        None => Ok(None),
    }
}
