// The values of a line's options.
ghost use Rattle.std.specs.Prelude.{◌≡◌, ◌==◌};
ghost use Rattle.std.specs.List.{before_first, after_first};
ghost use Rattle.std.specs.Option.{option_map};
ghost use Rattle.lab_line.specs.Lines as spec;

use crate::line::{LabClock, Wrong};
use api_routes::number_of;
use engine_line::{Stepping, moment_in, port_in, seed_of};

/// The most digits of a number of entries.
const DIGITS: usize = 8;

/// The most entries of a journal.
const MOST_ENTRIES: u64 = 16_777_216;

/// The entries of a journal without a setting.
const DEFAULT_ENTRIES: u32 = 4_194_304;

/// The port of an address, and a free one without it.
pub(crate) fn port_of(wrong: Wrong, word: Option<&str>) -> Result<u16, Wrong>
    ensures { result ≡ spec.port_of wrong (option_map (λ w. w.now) word.entry) }
{
    match word {
        None => Ok(0),
        Some(word) => port_in(word).ok_or(wrong),
    }
}

/// What stands before the first colon, and behind it.
fn around_colon(text: &str) -> (&str, &str)
    ensures front { result.0.now ≡ before_first (λ b. b == 58) text.now }
    ensures back { result.1.now ≡ after_first (λ b. b == 58) text.now }
{
    match text.split_once(':') {
        Some(parts) => parts,
        None => (text, ""),
    }
}

/// A clock of START:STEP, each a moment.
fn steps_in(start: &str, step: &str) -> Option<LabClock>
    ensures { result ≡ spec.steps_in start.now step.now }
{
    match (moment_in(start), moment_in(step)) {
        (Some(start), Some(step)) => Some(LabClock::Steps(Stepping { start, step })),
        _ => None,
    }
}

fn clock_in(word: &str) -> Option<LabClock>
    ensures { result ≡ spec.clock_in word.now }
{
    let (before, behind) = around_colon(word);
    if before == "hand" {
        moment_in(behind).map(LabClock::Hand)
    } else {
        steps_in(before, behind)
    }
}

/// The clock, and the system's without a word.
pub(crate) fn clock_of(word: Option<&str>) -> Result<LabClock, Wrong>
    ensures { result ≡ spec.clock_of (option_map (λ w. w.now) word.entry) }
{
    match word {
        None => Ok(LabClock::System),
        Some(word) => clock_in(word).ok_or(Wrong::Clock),
    }
}

/// The seed of ids.
pub(crate) fn seed_in(word: Option<&str>) -> Result<[u8; 32], Wrong>
    ensures { result ≡ spec.seed_in (option_map (λ w. w.now) word.entry) }
{
    seed_of(word).ok_or(Wrong::Seed)
}

fn entries_in(word: &str) -> Option<u32>
    ensures { result ≡ spec.entries_in word.now }
{
    match number_of(word, DIGITS) {
        Some(number) => if 1 <= number && number <= MOST_ENTRIES {
            Some(number as u32)
        } else {
            None
        },
        None => None,
    }
}

/// The most entries of the journal.
pub(crate) fn entries_of(word: Option<&str>) -> Result<u32, Wrong>
    ensures { result ≡ spec.entries_of (option_map (λ w. w.now) word.entry) }
{
    match word {
        None => Ok(DEFAULT_ENTRIES),
        Some(word) => entries_in(word).ok_or(Wrong::Journal),
    }
}
