// The worst that the endings of all sessions call for.
ghost use Rattle.std.specs.Prelude.{◌≡◌};
ghost use Rattle.door_model.specs.Connections.{most_from};
ghost use Rattle.door_model.specs.Worsts.{called_by, rank_of, worse_of};

use session_model::{Ending, Worst};

/// How many connections are taken in at most, by their numbers.
const MOST_CONNECTIONS: u32 = 2_147_483_646;

/// How many connections are taken in at most, numbered from the first on, where a limit is set too.
pub fn most_from(first: u32, limit: Option<u32>) -> u32
    ensures { result ≡ most_from first limit }
{
    let left = MOST_CONNECTIONS.saturating_sub(first);
    match limit {
        Some(limit) => limit.min(left),
        None => left,
    }
}

/// What an ending calls for.
pub fn called_by(ending: Ending) -> Worst
    ensures { result ≡ called_by ending }
{
    match ending {
        Ending::Closed => Worst::Closed,
        Ending::CutShort | Ending::Refused(_) | Ending::JournalFull | Ending::Lagged { .. } => {
            Worst::Refused
        }
        Ending::Stopped => Worst::Stopped,
        Ending::ReadFault | Ending::WriteFault => Worst::Fault,
        Ending::NoMemory => Worst::NoMemory,
    }
}

/// The place in the order, the worst first.
fn rank_of(worst: Worst) -> u8
    ensures { result ≡ rank_of worst }
{
    match worst {
        Worst::NoMemory => 0,
        Worst::Fault => 1,
        Worst::Stopped => 2,
        Worst::Refused => 3,
        Worst::Closed => 4,
    }
}

/// The worse of two; the first of two that are as bad.
pub fn worse_of(first: Worst, second: Worst) -> Worst
    ensures { result ≡ worse_of first second }
{
    if rank_of(second) < rank_of(first) {
        second
    } else {
        first
    }
}
