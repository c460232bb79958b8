// The start of an exec's process.
ghost use Rattle.std.specs.Prelude.{◌≡◌, ◌<◌, ◌&&◌, not, OnOk};
ghost use Rattle.machine_events.specs.ExecStarts.{CanSpawn, exec_begun, start_effect};

use crate::tables::Tables;
use engine_text::{Exec, NoMemory, Owner, Script};
use machine_model::EXEC_BYTES;
use std::alloc::Global;

// Whether its input is open from the start.
fn has_input(exec: &Exec, detach: bool) -> bool
    ensures { result ≡ (exec.now.stdin && not detach) }
{
    exec.stdin && !detach
}

impl Tables {
    /// Makes room for a process more, or for a piece of input.
    pub fn make_process_room(&mut self, alloc: Global) -> Result<(), NoMemory>
        ensures state { self.new.state ≡ self.old.state }
        ensures room { OnOk result (0 < self.new.spare) }
        ensures moments { self.new.room.moments ≡ self.old.room.moments }
    {
        self.processes.reserve(alloc, 1, 0)
    }

    // The exec has started, and its process begins.
    fn begin_exec(&mut self, number: u64, script: Script, stdin: bool)
        requires { CanSpawn self.old }
        ensures state { self.new.state ≡ exec_begun number script stdin self.old.state }
        ensures room { self.new.room ≡ self.old.room }
    {
        self.execs.start(number, self.next_pid);
        let owner = Owner::Exec(number);
        self.processes
            .spawn(owner, script, self.clock, stdin, EXEC_BYTES);
        self.next_pid += 1;
    }

    /// The exec with that number is started, with the script of its words. The input of a detached one
    /// has ended.
    pub fn start_exec(&mut self, number: u64, script: Script, detach: bool)
        requires { CanSpawn self.old }
        ensures state { self.new.state ≡ (start_effect number script detach self.old.state).state }
        ensures room { self.new.room ≡ self.old.room }
    {
        let Some(exec) = self.exec(number) else {
            return;
        };
        let stdin = has_input(exec, detach);
        self.begin_exec(number, script, stdin);
    }
}
