// A run that is open, and its next probe (Docker Engine API v1.43, definition HealthConfig; own: pauses).
ghost use Rattle.std.specs.Prelude.{◌≡◌, ◌≤◌, ◌<◌, ◌↔◌, IfOk, IsTrue};
ghost use Rattle.health_watch.specs.Probes.{probe_of};
ghost use Rattle.health_watch.specs.Reaching.{IsHeld, NextResult, behind_next, run_begun, due_behind, paused_from, paused_at, unpaused_at};

use super::outcome::ProbeResult;
use super::probes::probe;
use engine_text::{HealthSpec, NoMemory};
use std::alloc::Global;

/// The greatest number of probes of a run.
const MOST_PROBES: u32 = 100_000;

/// Since when it goes, whether it is paused since when, how many probes may still begin, the next one's
/// number, and when that is due, which may be behind all moments.
#[derive(Clone, Copy, Debug, Drop)]
pub struct OpenRun {
    pub from: u64,
    pub paused: Option<u64>,
    pub left: u32,
    pub number: u64,
    pub due: u128,
}

// A due moment as the end of the pause moves it.
fn due_behind(paused: Option<u64>, end: u64, due: u128) -> u128
    ensures { result ≡ due_behind paused end due }
{
    match paused {
        None => due,
        Some(from) => {
            if u128::from(from) <= due && due < u128::from(end) {
                u128::from(end)
            } else {
                due
            }
        }
    }
}

// A pause that is open already stays so.
fn paused_from(paused: Option<u64>, moment: u64) -> Option<u64>
    ensures { result ≡ paused_from paused moment }
{
    match paused {
        None => Some(moment),
        Some(from) => Some(from),
    }
}

impl OpenRun {
    /// A run that begins.
    #[tactic(auto, unfolding(crate::specs::Results::most_probes))]
    pub fn begun(spec: &HealthSpec, moment: u64) -> OpenRun
        ensures { result ≡ run_begun spec.now moment }
    {
        OpenRun {
            from: moment,
            paused: None,
            left: MOST_PROBES,
            number: 1,
            due: u128::from(moment) + u128::from(spec.interval),
        }
    }

    // Whether a pause is open that holds the next probe up.
    fn is_held(&self) -> bool
        ensures { IsTrue result ↔ IsHeld self.now.paused self.now.due }
    {
        match self.paused {
            None => false,
            Some(from) => u128::from(from) <= self.due,
        }
    }

    /// The next result, where it comes before that moment.
    pub fn result_before(
        &self,
        alloc: Global,
        spec: &HealthSpec,
        limit: u128,
    ) -> Result<Option<ProbeResult>, NoMemory>
        requires timeout { spec.now.timeout ≤ 3600000 }
        requires limit { limit ≤ 18446744073709551616 }
        ensures { IfOk result (λ r. NextResult limit (probe_of spec.now) self.now r) }
    {
        if self.left == 0 {
            return Ok(None);
        }
        if self.is_held() {
            return Ok(None);
        }
        if limit <= self.due {
            return Ok(None);
        }
        let outcome = probe(alloc, spec, self.number)?;
        let moment = self.due + u128::from(outcome.after);
        if limit <= moment {
            return Ok(None);
        }
        Ok(Some(ProbeResult {
            moment: moment as u64,
            passes: outcome.passes,
        }))
    }

    /// The run behind its next result, which came at that moment.
    pub fn behind_next(&self, spec: &HealthSpec, moment: u64) -> OpenRun
        requires left { 0 < self.now.left }
        requires number { self.now.number < 100001 }
        ensures { result ≡ behind_next spec.now moment self.now }
    {
        OpenRun {
            left: self.left - 1,
            number: self.number + 1,
            due: u128::from(moment) + u128::from(spec.interval),
            ..*self
        }
    }

    /// The run behind a pause.
    pub fn paused_at(&self, moment: u64) -> OpenRun
        ensures { result ≡ paused_at moment self.now }
    {
        OpenRun {
            paused: paused_from(self.paused, moment),
            ..*self
        }
    }

    /// The run behind an unpause.
    pub fn unpaused_at(&self, moment: u64) -> OpenRun
        ensures { result ≡ unpaused_at moment self.now }
    {
        OpenRun {
            paused: None,
            due: due_behind(self.paused, moment, self.due),
            ..*self
        }
    }
}
