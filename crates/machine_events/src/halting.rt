// What a stop and a restart of a container that lives differ in.
ghost use Rattle.std.specs.Prelude.{◌≡◌};
ghost use Rattle.machine_events.specs.Halts as spec;
ghost use Rattle.machine_events.specs.ChangedLives.{changed_life};

use container_table::LifeChange;
use engine_text::{Asked, Goal};

/// The call that ends a run.
#[derive(Clone, Copy, Drop)]
pub enum Halting {
    Stop,
    Restart,
}

impl Halting {
    /// What it notes in the container's life.
    pub fn life_change(self) -> LifeChange
        ensures { changed_life result ≡ spec.life_change_of self }
    {
        match self {
            Halting::Stop => LifeChange::Stopping,
            Halting::Restart => LifeChange::ToRestart,
        }
    }

    /// The goal that the container has then.
    pub fn goal(self) -> Goal
        ensures { result ≡ spec.goal_of self }
    {
        match self {
            Halting::Stop => Goal::Stop,
            Halting::Restart => Goal::Restart,
        }
    }

    /// The call that its ticket is of.
    pub fn asked(self) -> Asked
        ensures { result ≡ spec.asked_of self }
    {
        match self {
            Halting::Stop => Asked::Stop,
            Halting::Restart => Asked::Restart,
        }
    }
}
