ghost use Rattle.std.specs.Prelude.{◌≡◌};
ghost use Rattle.restart_policy.specs.Decision.{allows_restart, decision, delay_after};

use engine_text::Policy;

/// The delay before the first restart, in milliseconds.
const FIRST_DELAY: u64 = 100;

/// The longest delay, in milliseconds.
const LONGEST_DELAY: u64 = 60_000;

/// A run of so many milliseconds makes the next delay the first one again.
const LASTING_RUN: u64 = 10_000;

/// What becomes of a container whose main process has ended.
#[derive(Clone, Copy, Debug, PartialEq, Eq, Drop)]
pub enum Decision {
    Stay,
    /// It is started after so many milliseconds.
    Again(u64),
}

/// Decides after a run of `ran` milliseconds that ended with `code`, after `count` restarts, the
/// last of them delayed by `delay` milliseconds. `manual` says that a user stopped the container.
pub fn decide(policy: &Policy, code: u8, ran: u64, count: u64, delay: u64, manual: bool) -> Decision
    ensures { result ≡ decision policy.now code ran count delay manual }
{
    if !manual && allows(*policy, code, count) {
        Decision::Again(next_delay(ran, delay))
    } else {
        Decision::Stay
    }
}

fn allows(policy: Policy, code: u8, count: u64) -> bool
    ensures { result ≡ allows_restart policy code count }
{
    match policy {
        Policy::No => false,
        Policy::Always | Policy::UnlessStopped => true,
        Policy::OnFailure(limit) => code != 0 && (limit == 0 || count < u64::from(limit)),
    }
}

fn next_delay(ran: u64, delay: u64) -> u64
    ensures { result ≡ delay_after ran delay }
{
    if delay == 0 || ran >= LASTING_RUN {
        FIRST_DELAY
    } else {
        delay.saturating_mul(2).min(LONGEST_DELAY)
    }
}
