// The places that are kept for the ends of tickets (own).
ghost use Rattle.std.specs.Prelude.{◌≡◌, ◌+◌, ◌^◌, ◌<◌};
ghost use Rattle.journal_lines.specs.KeptJournal as spec;

use engine_text::{Call, Entry, Reply};

// Whether a call ends a ticket.
fn is_end(call: &Call) -> bool
    ensures { result ≡ spec.is_end call.now }
{
    matches!(call, Call::Take { .. } | Call::Drop { .. })
}

/// The places for ends behind an entry.
pub fn ends_behind(ends: u64, entry: &Entry) -> u64
    requires { ends + 1 < 2 ^ 64 }
    ensures { result ≡ spec.ends_behind ends entry.now }
{
    let begun = match entry.reply {
        Reply::Begun { .. } => ends + 1,
        _ => ends,
    };
    if is_end(&entry.call) {
        begun.saturating_sub(1)
    } else {
        begun
    }
}
