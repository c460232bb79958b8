// The client's side: each line run, one behind the other, and told.
use crate::line::{Line, owned};
use crate::outside::{link_of, outside_of};
use engine_client::run_client;
use engine_ports::{Link, NoMemory};
use engine_text::Text;
use std::alloc::Global;
use std::str;
use std::sync::Wait;

/// The address of what stands in the place of the daemon.
const ELSEWHERE: &str = "127.0.0.1:2375";

/// Adds each line of what was written, with this before it.
fn tell_lines(told: &mut Vec<u8>, before: &str, bytes: &[u8]) -> Result<(), NoMemory> {
    let text = str::from_utf8(bytes).unwrap_or("not UTF-8");
    for line in text.lines() {
        told.extend_from_slice(before.as_bytes())?;
        told.extend_from_slice(line.as_bytes())?;
        told.push(b'\n')?;
    }
    Ok(())
}

// The words of a command by its line, with the address before them.
fn words_of(alloc: Global, address: &str, line: &Line) -> Result<Vec<Text>, NoMemory> {
    let mut words = Vec::new(alloc);
    words.push(owned(alloc, address)?)?;
    for word in &line.words {
        words.push(owned(alloc, word.as_str())?)?;
    }
    Ok(words)
}

/// Runs the client of one line over this link to this address, and tells what it wrote and its
/// status; the link is given back.
fn tell_line<W: Wait, L: Link + Drop>(
    rt: &W,
    alloc: Global,
    address: &str,
    line: &Line,
    link: L,
    told: &mut Vec<u8>,
) -> Result<L, NoMemory> {
    let words = words_of(alloc, address, line)?;
    let mut outside = outside_of(alloc, line, link)?;
    let status = run_client(rt, alloc, &words, &mut outside);
    tell_lines(told, "$ dockc ", line.text.as_slice())?;
    tell_lines(told, "", outside.out.bytes())?;
    tell_lines(told, "! ", outside.errors.bytes())?;
    let Ok(status) = format!(in alloc; "{status}") else {
        return Err(NoMemory);
    };
    tell_lines(told, "status ", status.as_bytes())?;
    Ok(outside.link)
}

// Tells how often a link was asked for this address, and how often for another.
fn tell_asked(
    alloc: Global,
    address: &str,
    asked: &[String],
    told: &mut Vec<u8>,
) -> Result<(), NoMemory> {
    let here = asked
        .iter()
        .filter(|other| other.as_str() == address)
        .count();
    let elsewhere = asked
        .iter()
        .filter(|other| other.as_str() != address)
        .count();
    let Ok(counts) = format!(in alloc; "{here}, elsewhere {elsewhere}") else {
        return Err(NoMemory);
    };
    tell_lines(told, "asked ", counts.as_bytes())
}

/// Runs and tells all lines: those that have nothing in the place of the daemon over this link.
pub fn tell_all<W: Wait, L: Link + Drop>(
    rt: &W,
    alloc: Global,
    address: &str,
    lines: &[Line],
    link: L,
    told: &mut Vec<u8>,
) -> Result<(), NoMemory> {
    let mut link = link;
    for line in lines {
        if line.instead.is_empty() {
            link = tell_line(rt, alloc, address, line, link, told)?;
        } else {
            let link = tell_line(rt, alloc, ELSEWHERE, line, link_of(alloc, line)?, told)?;
            tell_asked(alloc, ELSEWHERE, link.asked(), told)?;
        }
    }
    Ok(())
}
