// Programs by their words, and what two of them write.
ghost use Rattle.std.specs.Prelude.{◌≡◌, ◌≤◌, ◌<◌};

use crate::line::{as_text, owned};
use crate::short::Short;
use engine_text::{Bytes, Owner, Signal, Stream, Text, Words};
use proc_kernel::{Effect, Kernel, program};
use std::alloc::Global;

const OWNER: Owner = Owner::Container(7);

// The words of a line.
fn words_of(alloc: Global, line: &str) -> Result<Words, Short> {
    let mut words = Words::new(alloc);
    for word in line.split(' ') {
        words.push(alloc, Text::of(alloc, word)?)?;
    }
    Ok(words)
}

// How many ops the script of that line has, if its words name a program.
fn op_count(alloc: Global, line: &str) -> Result<String, Short> {
    let words = words_of(alloc, line)?;
    match program(alloc, &words, 1)? {
        Some(script) => Ok(format!(in alloc; "{} ops", script.ops(false).len())?),
        None => owned(alloc, "no program"),
    }
}

// A kernel with one process of that line, where its words name a program.
fn begun(alloc: Global, line: &str, stdin: bool) -> Result<Option<Kernel>, Short> {
    let words = words_of(alloc, line)?;
    let Some(script) = program(alloc, &words, 1)? else {
        return Ok(None);
    };
    let mut kernel = Kernel::new(alloc);
    kernel.reserve(alloc, 1, 0)?;
    kernel.spawn(OWNER, script, 100, stdin, Signal { number: 15 }, 4096);
    Ok(Some(kernel))
}

// The bytes that the process writes at that moment.
fn written_at(kernel: &mut Kernel, alloc: Global, moment: u64) -> Result<Option<Bytes>, Short>
    requires { moment ≤ 9000000000000 }
{
    let length = kernel.record_length(OWNER);
    kernel.reserve(alloc, 1, length)?;
    if kernel.next_due(OWNER) != Some(moment) {
        return Ok(None);
    }
    match kernel.run_due(OWNER, moment) {
        Effect::Wrote(Stream::Stdout, bytes) => Ok(Some(bytes)),
        _ => Ok(None),
    }
}

// What the process writes at that moment, in a line.
fn shown_at(kernel: &mut Kernel, alloc: Global, moment: u64) -> Result<String, Short>
    requires { moment ≤ 9000000000000 }
{
    match written_at(kernel, alloc, moment)? {
        Some(bytes) => Ok(format!(in alloc; "at {moment} {:?}", as_text(bytes.as_slice()))?),
        None => Ok(format!(in alloc; "at {moment} nothing")?),
    }
}

// What a process of that line writes first.
fn first(alloc: Global, line: &str) -> Result<String, Short> {
    match begun(alloc, line, false)? {
        Some(mut kernel) => shown_at(&mut kernel, alloc, 100),
        None => owned(alloc, "no program"),
    }
}

// Feeds the process a piece at the moment 205.
fn feed(kernel: &mut Kernel, alloc: Global, piece: &[u8]) -> Result<(), Short> {
    let piece = Bytes::of(alloc, piece)?;
    kernel.reserve(alloc, 1, 0)?;
    kernel.feed(OWNER, piece, 205);
    Ok(())
}

// What the process writes of two pieces that it is fed at one moment, and when it is due once its input has ended.
fn fed_twice(alloc: Global, kernel: &mut Kernel) -> Result<String, Short> {
    feed(kernel, alloc, b"abc")?;
    feed(kernel, alloc, b"de")?;
    let one = shown_at(kernel, alloc, 205)?;
    let other = shown_at(kernel, alloc, 205)?;
    kernel.feed_end(OWNER, 300);
    let due = kernel.next_due(OWNER);
    Ok(format!(in alloc; "{one}, {other}, due {due:?}")?)
}

fn fed(alloc: Global, line: &str) -> Result<String, Short> {
    match begun(alloc, line, true)? {
        Some(mut kernel) => fed_twice(alloc, &mut kernel),
        None => owned(alloc, "no program"),
    }
}

/// What is said of a program by its words.
pub fn told(alloc: Global, kind: &str, line: &str) -> Result<String, Short> {
    match kind {
        "ops" => op_count(alloc, line),
        "first" => first(alloc, line),
        "fed" => fed(alloc, line),
        _ => owned(alloc, "no such kind"),
    }
}
