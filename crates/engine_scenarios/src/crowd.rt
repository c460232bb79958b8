// Connections that are there at once, through a door in memory, each in a thread of its own. What each is answered hangs on who
// comes first; so the file has the answers that there can be, or asks whether the journals among them are legal.
use crate::run::run_behind;
use crate::talk::{MOMENT, cut};
use engine_ports::{MemDoor, MemSink, MemSource, NoMemory, StepClock};
use engine_text::Text;
use history_replay::check;
use journal_lines::Verdict;
use std::alloc::{AllocError, Global};
use std::io::{self, Write};
use std::str;
use std::sync::Wait;
use std::thread::Threads;

/// What a file has: what the connections send, and what they may be answered, all behind each other.
#[derive(Drop)]
struct Crowd<'a> {
    sends: Vec<&'a str>,
    answers: Vec<&'a str>,
}

// Reads `send COUNT` and `or COUNT`, each with so many bytes and the end of a line behind it; none where a line isn't so.
fn read_crowd<'a>(alloc: Global, text: &'a str) -> Result<Option<Crowd<'a>>, AllocError> {
    let mut crowd = Crowd {
        sends: Vec::new(alloc),
        answers: Vec::new(alloc),
    };
    let mut left = text;
    for _ in 0..text.len() {
        let Some((line, rest)) = left.split_once('\n') else {
            break;
        };
        let (word, count) = line.split_once(' ').unwrap_or((line, ""));
        let Some((bytes, rest)) = cut(rest, count.parse().unwrap_or(0)) else {
            return Ok(None);
        };
        if word == "send" {
            crowd.sends.push(bytes)?;
        } else {
            crowd.answers.push(bytes)?;
        }
        left = rest;
    }
    Ok(Some(crowd))
}

// A door through which these requests come, each in a connection of its own.
fn door_of(alloc: Global, sends: &[&str]) -> Result<MemDoor<StepClock>, NoMemory> {
    let mut door = MemDoor::new(alloc, &[])?;
    for text in sends {
        let source = MemSource::new(alloc, text.as_bytes(), 7, &[])?;
        let sink = MemSink::new(alloc, &[])?;
        door.put(source, sink, StepClock::new(MOMENT, 0, None))?;
    }
    Ok(door)
}

// What all connections were answered, behind each other by their numbers.
fn answers_of(alloc: Global, door: &MemDoor<StepClock>) -> Result<Vec<u8>, AllocError> {
    let mut all = Vec::new(alloc);
    for gone in door.past() {
        all.extend_from_slice(gone.parts.into.bytes())?;
    }
    Ok(all)
}

// Whether a line is one of a journal: its header, or an entry's.
fn is_journals(line: &str) -> bool {
    line.starts_with("{\"format\":") || line.starts_with("{\"call\":")
}

// The lines of a journal that stand in what a connection was answered. Each is in a chunk of its own.
fn lines_of(alloc: Global, answers: &[u8]) -> Result<String, AllocError> {
    let text = str::from_utf8(answers).unwrap_or("");
    let mut lines = String::new(alloc);
    for line in text.split_inclusive('\n') {
        if is_journals(line) {
            lines.push_str(line)?;
        }
    }
    Ok(lines)
}

// What is said of the journal in these answers.
fn verdict(alloc: Global, answers: &[u8]) -> Result<&'static str, engine_text::NoMemory> {
    let lines = lines_of(alloc, answers)?;
    match check(alloc, lines.as_bytes(), [0; 32], MOMENT)? {
        Verdict::Legal { steps } => Ok(if 0 < steps { "legal" } else { "no journal" }),
        Verdict::Illegal { .. } | Verdict::BadLine { .. } => Ok("illegal"),
    }
}

// Tells what is said of each connection's journal.
fn tell_journals<R: AllocGlobal + Print>(rt: &R, door: &MemDoor<StepClock>) -> io::Result<()> {
    for gone in door.past() {
        match verdict(rt.alloc(), gone.parts.into.bytes()) {
            Ok(said) => println!(rt; "{}: {said}", gone.number)?,
            Err(_) => println!(rt; "out of memory")?,
        }
    }
    Ok(())
}

// Tells whether these are answers that there can be, or what they are.
fn tell_answers<R: AllocGlobal + Print>(
    rt: &R,
    answers: &[u8],
    expected: &[&str],
) -> io::Result<()> {
    if expected.iter().any(|one| one.as_bytes() == answers) {
        return println!(rt; "one of {}", expected.len());
    }
    io::writer(rt).write_all(answers)?;
    println!(rt; "")
}

/// Runs the daemon behind a door through which the connections of a file come at once.
pub fn tell_crowd<R: Threads + Wait + Sync + AllocGlobal + Print>(
    rt: &R,
    words: &[Text],
    bytes: &[u8],
) -> io::Result<()> {
    let alloc = rt.alloc();
    let Some(crowd) = read_crowd(alloc, str::from_utf8(bytes).unwrap_or("-"))? else {
        return println!(rt; "no crowd");
    };
    let Ok(mut door) = door_of(alloc, &crowd.sends) else {
        return println!(rt; "out of memory");
    };
    let Ok(ran) = run_behind(rt, words, &mut door) else {
        return println!(rt; "out of memory");
    };
    println!(rt; "status {}, {} connections", ran.status, door.past().len())?;
    if crowd.answers.is_empty() {
        return tell_journals(rt, &door);
    }
    tell_answers(rt, &answers_of(alloc, &door)?, &crowd.answers)
}
