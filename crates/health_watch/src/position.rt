// Where a watch stands among the marks that it has seen (own: a result before a mark of its moment doesn't wait for it).
ghost use Rattle.std.specs.Prelude.{◌≡◌, ◌≤◌, IfOk};
ghost use Rattle.health_watch.specs.Reaching.{MarkSays, limit_by};
ghost use Rattle.health_watch.specs.Advancing.{AreSized, IsTimed, FindSays};

use super::health::Change;
use super::mark::Mark;
use super::reached::Reached;
use engine_text::{HealthSpec, NoMemory};
use std::alloc::Global;

/// How many marks are behind it, and how far it has come with them.
#[derive(Clone, Copy, Debug, Drop)]
pub struct Position {
    pub place: usize,
    pub reached: Reached,
}

// The mark at that place, where it isn't later than a moment.
fn mark_until(marks: &[Mark], place: usize, until: u64) -> Option<Mark>
    ensures { MarkSays until place marks.now result }
{
    match marks.get(place) {
        None => None,
        Some(mark) => {
            if mark.moment <= until {
                Some(*mark)
            } else {
                None
            }
        }
    }
}

// Results count before a mark, and where there is none up to a moment.
fn limit_by(mark: &Option<Mark>, until: u64) -> u128
    ensures moment { result ≡ limit_by mark.now until }
    ensures high { result ≤ 18446744073709551616 }
{
    match mark {
        Some(mark) => u128::from(mark.moment),
        None => u128::from(until) + 1,
    }
}

impl Position {
    /// Goes on to the next change, or up to a moment where there is none at or before it.
    pub fn find(
        &mut self,
        alloc: Global,
        spec: &HealthSpec,
        marks: &[Mark],
        until: u64,
    ) -> Result<Option<Change>, NoMemory>
        requires timed { IsTimed spec.now }
        requires sized { AreSized self.old.reached.tally.streak self.old.reached.run }
        ensures { IfOk result (λ change. FindSays spec.now marks.now until self.old change self.new) }
    {
        loop {
            let mark = mark_until(marks, self.place, until);
            let limit = limit_by(&mark, until);
            if let Some(change) = self.reached.advance(alloc, spec, limit)? {
                return Ok(Some(change));
            }
            let Some(mark) = mark else {
                return Ok(None);
            };
            self.reached.turn(spec, &mark);
            self.place += 1;
        }
    }
}
