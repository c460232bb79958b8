// What a line asks for.
use clap::error::ErrorKind;
use engine_line::Stepping;

/// What the clock goes by.
#[derive(Clone, Copy, Debug, PartialEq, Eq)]
pub enum LabClock {
    /// The system's clock.
    System,
    /// Its owner alone, from this moment on.
    Hand(u64),
    /// What it adds by itself.
    Steps(Stepping),
}

/// What the program is to do.
#[derive(Clone, Copy, Debug, PartialEq, Eq)]
pub struct Lab {
    /// The port of 127.0.0.1 at which the daemon listens; 0 is a free one.
    pub listen: u16,
    /// That of control.
    pub control: u16,
    pub clock: LabClock,
    /// The seed of ids.
    pub seed: [u8; 32],
    /// The greatest number of entries of the journal.
    pub entries: u32,
}

/// Why words are no line.
#[derive(Clone, Copy, Debug, PartialEq, Eq)]
pub enum Wrong {
    /// The options aren't those of the program, each once and with its value.
    Words(ErrorKind),
    /// The value of this option hasn't its form.
    Listen,
    Control,
    Clock,
    Seed,
    Journal,
}

/// What words ask for.
#[derive(Clone, Copy, Debug, PartialEq, Eq)]
pub enum Asked {
    Line(Lab),
    Help,
    Version,
    /// They are no line.
    Wrong(Wrong),
}
