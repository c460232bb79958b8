// How far a watch has come (own: results before a moment, in their order, and marks).
ghost use Rattle.std.specs.Prelude.{◌≡◌, ◌≤◌, None, IfOk};
ghost use Rattle.health_watch.specs.Probes.{probe_of};
ghost use Rattle.health_watch.specs.Reaching.{NextOf, TakeSays, CanTake, reached_turned};
ghost use Rattle.health_watch.specs.Advancing.{AreSized, IsTimed, AdvanceSays};

use super::health::{Change, Health};
use super::mark::{Mark, Turn};
use super::open_run::OpenRun;
use super::outcome::ProbeResult;
use super::tally::Tally;
use engine_text::{HealthSpec, NoMemory};
use std::alloc::Global;

/// The tally, and the run that is open.
#[derive(Clone, Copy, Debug, Drop)]
pub struct Reached {
    pub tally: Tally,
    pub run: Option<OpenRun>,
}

impl Reached {
    /// Before all events.
    pub fn start() -> Reached
        ensures status { result.tally.status ≡ Health.None }
        ensures streak { result.tally.streak ≡ 0 }
        ensures run { result.run ≡ None }
    {
        Reached {
            tally: Tally {
                status: Health::None,
                streak: 0,
            },
            run: None,
        }
    }

    // The next result, where a run is open and it comes before that moment.
    fn result_before(
        &self,
        alloc: Global,
        spec: &HealthSpec,
        limit: u128,
    ) -> Result<Option<ProbeResult>, NoMemory>
        requires timeout { spec.now.timeout ≤ 3600000 }
        requires limit { limit ≤ 18446744073709551616 }
        ensures { IfOk result (λ r. NextOf limit (probe_of spec.now) self.now.run r) }
    {
        match &self.run {
            None => Ok(None),
            Some(run) => run.result_before(alloc, spec, limit),
        }
    }

    // The next result counts; the change that it brings, if any.
    fn take(&mut self, spec: &HealthSpec, found: &ProbeResult) -> Option<Change>
        requires { CanTake self.old.tally.streak self.old.run }
        ensures { TakeSays spec.now found.now self.old result self.new }
    {
        let Some(run) = self.run else {
            return None;
        };
        self.run = Some(run.behind_next(spec, found.moment));
        self.tally.judge(spec, run.from, found)
    }

    /// Takes the results before that moment, up to the first that brings a change.
    pub fn advance(
        &mut self,
        alloc: Global,
        spec: &HealthSpec,
        limit: u128,
    ) -> Result<Option<Change>, NoMemory>
        requires timed { IsTimed spec.now }
        requires limit { limit ≤ 18446744073709551616 }
        requires sized { AreSized self.old.tally.streak self.old.run }
        ensures found { IfOk result (λ change. AdvanceSays spec.now limit self.old change self.new) }
        ensures sized { IfOk result (λ _. AreSized self.new.tally.streak self.new.run) }
    {
        loop {
            let Some(found) = self.result_before(alloc, spec, limit)? else {
                return Ok(None);
            };
            if let Some(change) = self.take(spec, &found) {
                return Ok(Some(change));
            }
        }
    }

    /// A mark comes, before which no result is left.
    pub fn turn(&mut self, spec: &HealthSpec, mark: &Mark)
        ensures { self.new ≡ reached_turned spec.now mark.now self.old }
    {
        match mark.turn {
            Turn::Start => {
                *self = Reached {
                    tally: Tally {
                        status: Health::Starting,
                        streak: 0,
                    },
                    run: Some(OpenRun::begun(spec, mark.moment)),
                };
            }
            Turn::Die => {
                if self.run.is_some() {
                    *self = Reached::start();
                }
            }
            Turn::Pause => {
                if let Some(run) = self.run {
                    self.run = Some(run.paused_at(mark.moment));
                }
            }
            Turn::Unpause => {
                if let Some(run) = self.run {
                    self.run = Some(run.unpaused_at(mark.moment));
                }
            }
        }
    }
}
