// What ends pauses.
use std::sync::Wait;
use std::sync::atomic::{AtomicU64, Ordering};
use std::time::Duration;

/// How long a pause lasts at least, in milliseconds, whoever rings: so a busy daemon is looked at two hundred times a second by each
/// who waits, and no oftener.
const SHORTEST: u64 = 5;

/// So many who wait add a millisecond to what a pause lasts at least.
const CROWD: u64 = 20;

/// A count that each ring raises, and how many pause. A clause knows nothing of either: a ring ends pauses early, and what is true
/// of a pause doesn't hang on how long it lasts.
#[derive(Drop)]
pub struct Bell {
    rings: AtomicU64,
    asleep: AtomicU64,
    pausing: AtomicU64,
}

impl Bell {
    pub fn new() -> Bell {
        Bell {
            rings: AtomicU64::new(0),
            asleep: AtomicU64::new(0),
            pausing: AtomicU64::new(0),
        }
    }

    /// Ends the pauses that wait for a ring.
    pub fn ring(&self) {
        self.rings.fetch_add(1, Ordering::SeqCst);
        if self.asleep.load(Ordering::SeqCst) > 0 {
            self.rings.wake_all();
        }
    }

    /// How often it was rung.
    pub(crate) fn rings(&self) -> u64 {
        self.rings.load(Ordering::SeqCst)
    }

    /// One pauses more, for so many milliseconds: how many of these it pauses whoever rings. Where many pause, that is all.
    pub(crate) fn enter(&self, ms: u64) -> u64 {
        let others = self.pausing.fetch_add(1, Ordering::SeqCst);
        ms.min((others / CROWD).max(SHORTEST))
    }

    /// Sleeps for so many milliseconds, or until it is rung once more than it was.
    pub(crate) fn sleep<R: Wait>(&self, rt: &R, before: u64, ms: u64) {
        self.asleep.fetch_add(1, Ordering::SeqCst);
        if ms > 0 && self.rings() == before {
            self.rings.park_timeout(rt, (before & 0xffff_ffff) as u32, Duration::from_millis(ms));
        }
        self.asleep.fetch_sub(1, Ordering::SeqCst);
    }

    /// It pauses no more.
    pub(crate) fn leave(&self) {
        self.pausing.fetch_sub(1, Ordering::SeqCst);
    }
}
