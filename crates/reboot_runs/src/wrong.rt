// A journal with a wrong byte in its last line.
use engine_reboot::{Rebooted, reboot};
use journal_lines::Verdict;
use std::io;

/// What texts came to: of how many the last line was called none, of how many wrong, and of how many anything else.
#[derive(Clone, Copy)]
struct Tally {
    none: u64,
    wrong: u64,
    other: u64,
}

impl Tally {
    // One more, by the verdict that names a line.
    fn add(&mut self, verdict: &Verdict, last: u64) {
        match verdict {
            Verdict::BadLine { line } if *line == last => self.none = self.none.saturating_add(1),
            Verdict::Illegal { line, .. } if *line == last => {
                self.wrong = self.wrong.saturating_add(1);
            }
            _ => self.other = self.other.saturating_add(1),
        }
    }
}

// How many lines end in a text.
fn count_lines(text: &[u8]) -> u64 {
    let mut count = 0u64;
    for byte in text {
        if *byte == b'\n' {
            count = count.saturating_add(1);
        }
    }
    count
}

// Where the last line begins.
fn last_line(text: &[u8]) -> usize {
    let mut start = 0;
    for (place, byte) in text.iter().enumerate() {
        if *byte == b'\n' && place + 1 < text.len() {
            start = place + 1;
        }
    }
    start
}

// The text with another byte at a place: a tilde, which no line of these journals has.
fn with_wrong<R: AllocGlobal>(rt: &R, text: &[u8], place: usize) -> io::Result<Vec<u8>> {
    let mut copy = text.to_vec(rt.alloc())?;
    if let Some(byte) = copy.get_mut(place) {
        *byte = b'~';
    }
    Ok(copy)
}

// The verdict, where it isn't legal.
fn verdict_of(rebooted: Rebooted) -> Option<Verdict> {
    match rebooted {
        Rebooted::NotLegal(verdict) => Some(verdict),
        Rebooted::Ready { daemon, first: _ } => {
            daemon.end();
            None
        }
        Rebooted::Old => None,
        Rebooted::Full { entries: _ } => None,
        Rebooted::NoMemory => None,
    }
}

/// What comes of the text with a wrong byte at each place of its last line in turn.
pub fn tell<R: AllocGlobal + Print>(
    rt: &R,
    text: &[u8],
    greatest: u64,
    handed: u64,
) -> io::Result<()> {
    let last = count_lines(text);
    let mut tally = Tally {
        none: 0,
        wrong: 0,
        other: 0,
    };
    for place in last_line(text)..text.len() {
        let copy = with_wrong(rt, text, place)?;
        match verdict_of(reboot(rt.alloc(), copy.as_slice(), greatest, handed)) {
            Some(verdict) => tally.add(&verdict, last),
            None => tally.other = tally.other.saturating_add(1),
        }
    }
    println!(rt;
        "line {last}: {} bad, {} illegal, {} else",
        tally.none, tally.wrong, tally.other
    )
}
