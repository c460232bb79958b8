// The logs that are kept of removed owners, and the removals, for streams.
ghost use Rattle.std.specs.Prelude.{◌≡◌, ◌==◌, ◌-◌, find, length, option_copied, position};
ghost use Rattle.std.specs.List.{flat_map, list_any};
ghost use Rattle.engine_text.specs.Owner.{same_owner};
ghost use Rattle.machine_model.specs.LogStream.{kept_log, log_among, removal_of, took};

use crate::removals::Removals;
use engine_text::{KeptLogs, LogRecord, OwnedLog, Owner, Removed, same_owner};

fn owned_by(logs: &[OwnedLog], owner: Owner) -> Option<&OwnedLog>
    ensures { option_copied result ≡ find (λ l. same_owner l.owner owner) logs.now }
{
    logs.iter().find(|l| same_owner(l.owner, owner))
}

fn log_among(logs: &[OwnedLog], owner: Owner) -> Option<&[LogRecord]>
    ensures { option_copied result ≡ log_among owner logs.now }
{
    match owned_by(logs, owner) {
        Some(l) => Some(l.log.as_slice()),
        None => None,
    }
}

fn kept_log(kept: &[KeptLogs], owner: Owner) -> Option<&[LogRecord]>
    ensures { option_copied result ≡ log_among owner (flat_map (λ k. k.logs) kept.now) }
{
    for k in kept {
        if let Some(log) = log_among(k.logs.as_slice(), owner) {
            return Some(log);
        }
    }
    None
}

fn has_number(numbers: &[u64], number: u64) -> bool
    ensures { result ≡ list_any (λ k. k == number) numbers.now }
{
    numbers.iter().any(|k| *k == number)
}

// Whether the removal took this owner away.
fn took(removed: &Removed, owner: Owner) -> bool
    ensures { result ≡ took owner removed.now }
{
    match owner {
        Owner::Container(number) => removed.number == number,
        Owner::Exec(number) => has_number(removed.execs.as_slice(), number),
    }
}

fn removal_of(removed: &[Removed], owner: Owner) -> Option<usize>
    ensures { result ≡ position (took owner) removed.now }
{
    removed.iter().position(|r| took(r, owner))
}

impl Removals {
    /// The log of a removed owner, lent, while it is kept.
    pub fn kept_log(&self, owner: Owner) -> Option<&[LogRecord]>
        ensures { option_copied result ≡ log_among owner (flat_map (λ k. k.logs) self.now.kept) }
    {
        kept_log(self.logs.as_slice(), owner)
    }

    /// The number of the removal that took the owner away, counted from 0. It is a walk over all removals.
    pub fn removal_of(&self, owner: Owner) -> Option<usize>
        ensures { result ≡ position (took owner) self.now.removed }
    {
        removal_of(self.numbers.as_slice(), owner)
    }

    /// The number of the first removal whose logs are kept.
    pub fn first_kept(&self) -> usize
        ensures { result ≡ length self.now.removed - length self.now.kept }
    {
        self.numbers.len().saturating_sub(self.logs.len())
    }
}
