// What becomes of a written history.
use crate::journal::journal_text;
use daemon_core::Daemon;
use engine_reboot::{Rebooted, reboot};
use journal_lines::Verdict;
use std::io;

// A verdict in words.
fn tell_verdict<R: Print>(rt: &R, verdict: &Verdict) -> io::Result<()> {
    match verdict {
        Verdict::Legal { steps } => println!(rt; "legal {steps}"),
        Verdict::BadLine { line } => println!(rt; "bad line {line}"),
        Verdict::Illegal { line, kept, found } => {
            println!(rt;
                "illegal line {line}: {} but {}",
                kept.as_str(),
                found.as_str()
            )
        }
    }
}

// The journal of a daemon, of which it counts events and containers; it comes to its end.
fn tell_daemon<R: AllocGlobal + Print>(rt: &R, daemon: Daemon) -> io::Result<Option<Vec<u8>>> {
    let (events, containers) = daemon.counts();
    println!(rt; "{containers} containers, {events} events")?;
    let journal = journal_text(rt.alloc(), &daemon);
    daemon.end();
    match journal {
        Ok(journal) => {
            print!(rt;
                "{}",
                str::from_utf8(journal.as_slice()).unwrap_or("(no UTF-8)\n")
            )?;
            Ok(Some(journal))
        }
        Err(_) => {
            println!(rt; "out of memory")?;
            Ok(None)
        }
    }
}

// What a text comes to; the journal that is left, if a daemon goes on.
fn told<R: AllocGlobal + Print>(
    rt: &R,
    text: &[u8],
    greatest: u64,
    handed: u64,
) -> io::Result<Option<Vec<u8>>> {
    match reboot(rt.alloc(), text, greatest, handed) {
        Rebooted::Ready { daemon, first } => {
            print!(rt; "ready from {first}: ")?;
            return tell_daemon(rt, daemon);
        }
        Rebooted::Old => println!(rt; "no header")?,
        Rebooted::NotLegal(verdict) => tell_verdict(rt, &verdict)?,
        Rebooted::Full { entries } => println!(rt; "no room behind {entries}")?,
        Rebooted::NoMemory => println!(rt; "out of memory")?,
    }
    Ok(None)
}

/// What a text comes to.
pub fn tell<R: AllocGlobal + Print>(
    rt: &R,
    text: &[u8],
    greatest: u64,
    handed: u64,
) -> io::Result<()> {
    let _ = told(rt, text, greatest, handed)?;
    Ok(())
}

/// The same, and what the journal that is left comes to at a later moment.
pub fn tell_twice<R: AllocGlobal + Print>(
    rt: &R,
    text: &[u8],
    greatest: u64,
    handed: u64,
    later: u64,
) -> io::Result<()> {
    match told(rt, text, greatest, handed)? {
        Some(journal) => tell(rt, journal.as_slice(), greatest, later),
        None => Ok(()),
    }
}
