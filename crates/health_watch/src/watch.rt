// A container's health by its events, as they come (Docker Engine API v1.43, definition Health).
ghost use Rattle.std.specs.Prelude.{◌≡◌, ◌≤◌, ◌↔◌, [], None, IsTrue, IfOk, OnOk, OnErr};
ghost use Rattle.health_watch.specs.Watching.{health_told, with_event, asked_to, MayCome, NextSays};
ghost use Rattle.health_watch.specs.Advancing.{told_by};

use super::health::{Change, Health};
use super::mark::{Mark, turn_of};
use super::position::Position;
use super::reached::Reached;
use engine_text::{Event, HealthSpec, NoMemory, Text};
use std::alloc::Global;
use std::marker::Model;

/// The health of one container, by its events and its check. Moments are milliseconds.
#[derive(Drop)]
pub struct Watch {
    id: Text,
    spec: HealthSpec,
    marks: Vec<Mark>,
    seen: u64,
    told: Option<u64>,
    position: Position,
}

impl Model for Watch {
    ghost use Rattle.health_watch.specs.Watching.{Watched};

    ghost Value = { Watched };

    ghost use Rattle.health_watch.specs.WatchInside.{watch_inside, IsSoundWatch};

    ghost view = { watch_inside };

    ghost invariant = { IsSoundWatch };
}

// Up to which moment it tells: once told stays told.
fn asked_to(told: Option<u64>, until: u64) -> u64
    ensures { result ≡ asked_to until told }
{
    match told {
        None => until,
        Some(told) => { if until < told { told } else { until } }
    }
}

// Up to which moment is told what was found.
fn told_by(change: &Option<Change>, until: u64) -> u64
    ensures { result ≡ told_by change.now until }
{
    match change {
        None => until,
        Some(change) => change.moment,
    }
}

impl Watch {
    /// A watch that has seen nothing; the check's interval is a millisecond at least, and its timeout
    /// an hour at most, as are those of each check that a create can have.
    pub fn new(alloc: Global, id: Text, spec: HealthSpec) -> Result<Watch, NoMemory>
        requires interval { 1 ≤ spec.interval }
        requires timeout { spec.timeout ≤ 3600000 }
        ensures { IfOk result (λ w. w ≡ record { id = id; spec = spec; marks = []; seen = 0; told = None }) }
    {
        Ok(Watch {
            id,
            spec,
            marks: Vec::new(alloc),
            seen: 0,
            told: None,
            position: Position {
                place: 0,
                reached: Reached::start(),
            },
        })
    }

    /// Whether an event of that moment may come: no event was later, and nothing is told of it.
    pub fn may_come(&self, moment: u64) -> bool
        ensures { IsTrue result ↔ MayCome self.now moment }
    {
        if moment < self.seen {
            return false;
        }
        match self.told {
            None => true,
            Some(told) => told < moment,
        }
    }

    /// An event has come; after a refusal the watch is as before.
    pub fn event(&mut self, _alloc: Global, event: &Event) -> Result<(), NoMemory>
        requires { MayCome self.old event.now.moment }
        ensures ok { OnOk result (self.new ≡ with_event event.now self.old) }
        ensures told { health_told self.new ≡ health_told self.old }
        ensures err { OnErr result (self.new ≡ self.old) }
    {
        let Some(turn) = turn_of(self.id.as_str(), event) else {
            self.seen = event.moment;
            return Ok(());
        };
        if self.marks.reserve(1).is_err() {
            return Err(NoMemory);
        }
        self.marks.push_reserved(Mark {
            turn,
            moment: event.moment,
        });
        self.seen = event.moment;
        Ok(())
    }

    /// The next change at or before a moment; none exactly where all of them are given. It runs the
    /// probes up to there; after a refusal the watch is as before.
    pub fn next(&mut self, alloc: Global, until: u64) -> Result<Option<Change>, NoMemory>
        ensures ok { IfOk result (λ change. NextSays until self.old change self.new) }
        ensures err { OnErr result (self.new ≡ self.old) }
    {
        let asked = asked_to(self.told, until);
        let mut position = self.position;
        let change = position.find(alloc, &self.spec, self.marks.as_slice(), asked)?;
        self.position = position;
        self.told = Some(told_by(&change, asked));
        Ok(change)
    }

    /// The status, and how many failures there were in a row, at the moment up to which it has told.
    pub fn state(&self) -> (Health, u32)
        ensures status { result.0 ≡ (health_told self.now).status }
        ensures streak { result.1 ≡ (health_told self.now).streak }
    {
        (
            self.position.reached.tally.status,
            self.position.reached.tally.streak,
        )
    }
}
