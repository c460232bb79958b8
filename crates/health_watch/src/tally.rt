// The status, and the failures in a row (Docker Engine API v1.43, definition Health; Moby manual, HEALTHCHECK).
ghost use Rattle.std.specs.Prelude.{◌≡◌, ◌≤◌, ◌+◌, ◌++◌, ◌&&◌, List, nat_le, nat_lt, option_to_list};
ghost use Rattle.health_watch.specs.declared.health.Change.{Change as AChange};
ghost use Rattle.health_watch.specs.Health.{passed, failed_again, is_starting, behind_result};
ghost use Rattle.health_watch.specs.Reaching.{standing_in, IsOfMoment};

use super::health::{Change, Health};
use super::outcome::ProbeResult;
use engine_text::HealthSpec;

/// The status, and the failures in a row.
#[derive(Clone, Copy, Debug, Drop)]
pub struct Tally {
    pub status: Health,
    pub streak: u32,
}

impl Tally {
    // A probe passed.
    fn pass(&mut self, moment: u64) -> Option<Change>
        ensures moment { IsOfMoment moment result }
        ensures told { (cs : List AChange) → passed moment (standing_in self.old cs)
            ≡ standing_in self.new (cs ++ option_to_list result) }
    {
        self.streak = 0;
        match self.status {
            Health::Healthy => None,
            _ => {
                self.status = Health::Healthy;
                Some(Change {
                    healthy: true,
                    moment,
                })
            }
        }
    }

    // A probe failed once more.
    fn fail(&mut self, moment: u64, retries: u32) -> Option<Change>
        requires { self.old.streak ≤ 100000 }
        ensures moment { IsOfMoment moment result }
        ensures told { (cs : List AChange) → failed_again (nat_le retries (self.old.streak + 1)) moment
            (standing_in self.old cs) ≡ standing_in self.new (cs ++ option_to_list result) }
    {
        self.streak += 1;
        if self.streak < retries {
            return None;
        }
        match self.status {
            Health::Unhealthy => None,
            _ => {
                self.status = Health::Unhealthy;
                Some(Change {
                    healthy: false,
                    moment,
                })
            }
        }
    }

    // Whether a failure counts nothing: it starts, and the start period isn't over.
    fn is_early(&self, spec: &HealthSpec, from: u64, moment: u64) -> bool
        ensures { result
            ≡ (is_starting self.now.status && nat_lt moment (from + spec.now.start_period)) }
    {
        match self.status {
            Health::Starting => {
                u128::from(moment) < u128::from(from) + u128::from(spec.start_period)
            }
            _ => false,
        }
    }

    /// A result counts of a run that began then; the change that it brings, if any.
    pub fn judge(&mut self, spec: &HealthSpec, from: u64, found: &ProbeResult) -> Option<Change>
        requires { self.old.streak ≤ 100000 }
        ensures moment { IsOfMoment found.now.moment result }
        ensures told { (cs : List AChange) → behind_result spec.now from (standing_in self.old cs)
            found.now ≡ standing_in self.new (cs ++ option_to_list result) }
    {
        if found.passes {
            return self.pass(found.moment);
        }
        if self.is_early(spec, from, found.moment) {
            return None;
        }
        self.fail(found.moment, spec.retries)
    }
}
