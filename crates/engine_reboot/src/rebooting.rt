// A daemon that begins with a written history.
ghost use Rattle.std.specs.Prelude.{◌≡◌, ℕ, List};
ghost use Rattle.engine_text.specs.declared.step.Step as steps;
ghost use Rattle.journal_lines.specs.Room.{has_places};
ghost use Rattle.machine_model.specs.History as model;
ghost use Rattle.daemon_core.specs.Passing.{whole_pass};
ghost use Rattle.daemon_core.specs.Storing.{pass_of};
ghost use Rattle.engine_reboot.specs.Rebooting.{PlanSays, RebootSays};
ghost use Rattle.engine_reboot.specs.Replaying.{IsWritten};

use crate::following::{Followed, follow};
use crate::planning::plan;
use crate::reopening::Reopened;
use crate::replaying::{Replayed, replay};
use container_machine::Machine;
use daemon_core::Daemon;
use engine_text::NoMemory;
use history_replay::law_complete;
use journal_lines::Verdict;
use std::alloc::Global;

/// The daemon, and the number of its first client; or why there is none.
pub enum Rebooted {
    Ready { daemon: Daemon, first: u32 },
    /// The text has no header.
    Old,
    NotLegal(Verdict),
    /// There is no room for what was written or for the plan; of so many entries was the text.
    Full { entries: u64 },
    NoMemory,
}

// Whether the entries and the ends of the tickets that stand have their places.
fn has_all_places(machine: &Machine, greatest: u64) -> bool
    ensures { result ≡ has_places greatest machine.now.memory.state 0 }
{
    machine.kept();
    machine.calls() + machine.ticket_count() <= greatest
}

// Follows the plan behind the written history.
fn follow_plan(daemon: &mut Daemon, alloc: Global, handed: u64) -> Followed
    ensures { PlanSays handed result (whole_pass daemon.old) (whole_pass daemon.new) }
{
    let Ok(calls) = plan(alloc, daemon.machine()) else {
        return Followed::NoMemory;
    };
    follow(daemon, alloc, handed, calls.as_slice())
}

// Goes on behind the written history.
fn go_on(alloc: Global, reopened: Reopened, greatest: u64, handed: u64) -> Rebooted
    ensures { (text : List ℕ) (ch : model.Charter) (h : List steps.Step)
        → IsWritten text greatest ch h → whole_pass reopened.daemon ≡ pass_of ch h
        → RebootSays text greatest handed result }
{
    law_complete();
    let Reopened { mut daemon, next } = reopened;
    let machine = daemon.machine();
    let entries = machine.calls();
    let fits = has_all_places(machine, greatest);
    if !fits {
        daemon.end();
        return Rebooted::Full { entries };
    }
    match follow_plan(&mut daemon, alloc, handed) {
        Followed::Whole => {
            daemon.texts();
            Rebooted::Ready {
                daemon,
                first: next,
            }
        }
        Followed::Full => {
            daemon.end();
            Rebooted::Full { entries }
        }
        Followed::NoMemory => {
            daemon.end();
            Rebooted::NoMemory
        }
    }
}

/// Makes a written history again, and goes on with it: drops the tickets that stand, kills what is
/// up, and starts what its policy brings back, this at the handed moment.
pub fn reboot(alloc: Global, text: &[u8], greatest: u64, handed: u64) -> Rebooted
    ensures { RebootSays text.now greatest handed result }
{
    match replay(alloc, text, greatest) {
        Ok(Replayed::Done(reopened)) => go_on(alloc, reopened, greatest, handed),
        Ok(Replayed::Not(verdict)) => Rebooted::NotLegal(verdict),
        Ok(Replayed::Old) => Rebooted::Old,
        Err(NoMemory) => Rebooted::NoMemory,
    }
}
