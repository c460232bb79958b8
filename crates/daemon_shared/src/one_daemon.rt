// A daemon that tells its history.
ghost use Rattle.std.specs.Prelude.{◌≡◌, ◌≤◌, [], IfOk};
ghost use Rattle.machine_model.specs.History.{greatest_moment};
ghost use Rattle.turnstile.specs.Turns.{IsPass};
ghost use Rattle.turnstile.specs.Views.{root};

use daemon_core::Daemon;
use engine_text::{NoMemory, Step};
use std::alloc::Global;
use turnstile::{Chronicle, Pass, Turnstile};

/// What no turn of a daemon changes: the seed of ids, the moment of the opening in milliseconds,
/// and the greatest number of calls.
pub struct Opening {
    pub seed: [u8; 32],
    pub moment: u64,
    pub greatest: u64,
}

/// A daemon behind a turnstile. It lies in a box, so that a turn that takes it out and puts it back
/// moves a word.
#[derive(Drop)]
pub struct OneDaemon {
    pub daemon: Box<Daemon>,
}

impl Chronicle for OneDaemon {
    ghost use Rattle.daemon_core.specs.Passing.{whole_pass};
    ghost use Rattle.daemon_shared.specs.Sharing.{author_of, opening_in, IsKept};

    type Step = Step;

    type Charter = Opening;

    ghost author = { author_of };

    ghost legal = { IsKept };

    ghost history = { λ d. (whole_pass d.daemon.value).seen };

    ghost charter = { λ d. opening_in d.daemon.value };

    fn steps(&self) -> u64 {
        self.daemon.steps()
    }

    ghost short = { λ o h kept. kept.1 };
}

/// A daemon without history behind a turnstile, and the root pass to it. Its moment is at most the
/// greatest one.
pub fn open(
    alloc: Global,
    opening: Opening,
) -> Result<(Turnstile<OneDaemon>, Pass<OneDaemon>), NoMemory>
    requires { opening.moment ≤ greatest_moment }
    ensures { IfOk result (λ r. IsPass r.0.table.shared.table_id r.1
        × (r.1.me.0 ≡ root [] opening)) }
{
    let Opening {
        seed,
        moment,
        greatest,
    } = opening;
    let Ok(daemon) = Box::new(alloc, Daemon::new(alloc, seed, moment, greatest)?) else {
        return Err(NoMemory);
    };
    match Turnstile::new(alloc, OneDaemon { daemon }) {
        Ok(opened) => Ok(opened),
        Err(_) => Err(NoMemory),
    }
}
