// Processes, and the next due moment of each.
ghost use Rattle.std.specs.Prelude.{◌≡◌, ℕ, ◌<◌, ◌+◌, ◌≤◌, Some, [], ◌∷◌, ◌++◌, OnOk, length};
ghost use Rattle.container_table.specs.Order.{in_order};
ghost use Rattle.container_table.specs.Timers.{is_before, least};
ghost use Rattle.proc_kernel.specs.Processes.{run_due, spawn, feed, feed_end, freeze, thaw, signal, CanThaw};
ghost use Rattle.proc_kernel.specs.Tables.{change, process_of, after_step, effect_at, without, due_at, length_at, begun, OfProcess};
ghost use Rattle.machine_model.specs.State.{owner_number};
ghost use Rattle.machine_tables.specs.LeastDue.{actions_of, with_due_at};

use crate::least::number_of;
use container_table::{Dues, Rank};
use engine_text::{Bytes, DueAction, Effect, NoMemory, Owner, Script, Signal};
use proc_kernel::Kernel;
use std::alloc::Global;
use std::marker::Model;

/// Processes by their owners, and what is due of them, the least first. Moments are milliseconds; an
/// owner without a process is passed over by each call but `spawn`.
#[derive(Drop)]
pub struct Processes {
    kernel: Kernel,
    dues: Dues,
    spare: usize,
}

impl Model for Processes {
    ghost use Rattle.proc_kernel.specs.Tables.{Table};

    ghost Value = { Table };

    ghost use Rattle.machine_tables.specs.ProcessesInside.{processes_of, AreTimed};

    ghost view = { processes_of };

    ghost invariant = { AreTimed };
}

// The next op of the owner's process, due at the moment.
fn action(moment: u64, owner: Owner) -> DueAction
    ensures { result ≡ record { moment = moment; rank = 0; number = owner_number owner } }
{
    DueAction {
        moment,
        rank: Rank::Op.number(),
        number: number_of(owner),
    }
}

// What is due of the owner's process isn't due for now.
fn leave(dues: &mut Dues, kernel: &Kernel, owner: Owner)
    requires { dues.old.actions ≡ in_order is_before (actions_of kernel.now.processes) }
    ensures actions { dues.new.actions
        ≡ in_order is_before (actions_of (without owner kernel.now.processes)) }
    ensures places { dues.new.places ≡ dues.old.places }
{
    if let Some(moment) = kernel.next_due(owner) {
        dues.remove(&action(moment, owner));
    }
}

// What is due of the owner's process, if it is, stands among the others.
fn enter(dues: &mut Dues, kernel: &Kernel, owner: Owner)
    requires others { dues.old.actions
        ≡ in_order is_before (actions_of (without owner kernel.now.processes)) }
    requires room { length kernel.now.processes ≤ dues.old.places }
    ensures actions { dues.new.actions ≡ in_order is_before (actions_of kernel.now.processes) }
    ensures places { dues.old.places ≤ dues.new.places }
{
    if let Some(moment) = kernel.next_due(owner) {
        dues.add(&action(moment, owner));
    }
}

// One more is due, if it is.
fn note(dues: &mut Dues, due: Option<u64>, owner: Owner)
    requires { length dues.old.actions < dues.old.places }
    ensures actions { dues.new.actions ≡ with_due_at owner due dues.old.actions }
    ensures places { dues.old.places ≤ dues.new.places }
{
    if let Some(moment) = due {
        dues.add(&action(moment, owner));
    }
}

impl Processes {
    /// No process; it takes no memory.
    pub fn new(alloc: Global) -> Processes
        ensures { result.processes ≡ [] }
    {
        Processes {
            kernel: Kernel::new(alloc),
            dues: Dues::new(alloc),
            spare: 0,
        }
    }

    /// The processes, to be looked at.
    pub fn kernel(&self) -> &Kernel
        ensures { result.now.processes ≡ self.now.processes }
    {
        &self.kernel
    }

    /// The least of what is due of the processes, by moment and number.
    pub fn least(&self) -> Option<DueAction>
        ensures { result ≡ least (actions_of self.now.processes) }
    {
        self.dues.least()
    }

    /// Makes room for so many records of at most so many bytes each.
    pub fn reserve(&mut self, alloc: Global, records: usize, bytes: usize) -> Result<(), NoMemory>
        ensures processes { self.new.processes ≡ self.old.processes }
        ensures spare { OnOk result (records ≤ self.new.spare) }
        ensures bytes { OnOk result (bytes ≤ self.new.bytes) }
    {
        let missing = self.kernel.len().saturating_sub(self.dues.len());
        let Some(more) = missing.checked_add(records) else {
            return Err(NoMemory);
        };
        self.dues.reserve(more)?;
        self.kernel.reserve(alloc, records, bytes)?;
        self.spare = records;
        Ok(())
    }

    /// Ends the input of that process.
    pub fn feed_end(&mut self, owner: Owner, moment: u64)
        ensures processes { self.new.processes ≡ change owner (feed_end moment) self.old.processes }
        ensures spare { self.new.spare ≡ self.old.spare }
        ensures bytes { self.new.bytes ≡ self.old.bytes }
    {
        leave(&mut self.dues, &self.kernel, owner);
        self.kernel.feed_end(owner, moment);
        enter(&mut self.dues, &self.kernel, owner);
    }

    /// Freezes that process.
    pub fn freeze(&mut self, owner: Owner, moment: u64)
        ensures processes { self.new.processes ≡ change owner (freeze moment) self.old.processes }
        ensures spare { self.new.spare ≡ self.old.spare }
        ensures bytes { self.new.bytes ≡ self.old.bytes }
    {
        leave(&mut self.dues, &self.kernel, owner);
        self.kernel.freeze(owner, moment);
        enter(&mut self.dues, &self.kernel, owner);
    }

    /// Thaws that process, and tells what came of it.
    pub fn thaw(&mut self, owner: Owner, moment: u64) -> Effect
        requires moment { OfProcess (CanThaw moment) (process_of owner self.old.processes) }
        ensures processes { self.new.processes ≡ after_step owner (thaw moment) self.old.processes }
        ensures effect { result ≡ effect_at owner (thaw moment) self.old.processes }
        ensures spare { self.new.spare ≡ self.old.spare }
        ensures bytes { self.new.bytes ≡ self.old.bytes }
    {
        leave(&mut self.dues, &self.kernel, owner);
        let effect = self.kernel.thaw(owner, moment);
        enter(&mut self.dues, &self.kernel, owner);
        effect
    }

    /// Sends that process a signal, and tells what came of it.
    pub fn signal(&mut self, owner: Owner, sent: Signal, thaws: bool, moment: u64) -> Effect
        requires signal { sent.number < 32 }
        requires moment { OfProcess (CanThaw moment) (process_of owner self.old.processes) }
        ensures processes { self.new.processes
            ≡ after_step owner (signal sent.number thaws moment) self.old.processes }
        ensures effect { result
            ≡ effect_at owner (signal sent.number thaws moment) self.old.processes }
        ensures spare { self.new.spare ≡ self.old.spare }
        ensures bytes { self.new.bytes ≡ self.old.bytes }
    {
        leave(&mut self.dues, &self.kernel, owner);
        let effect = self.kernel.signal(owner, sent, thaws, moment);
        enter(&mut self.dues, &self.kernel, owner);
        effect
    }

    /// Gives that process a piece of input.
    pub fn feed(&mut self, owner: Owner, piece: Bytes, moment: u64)
        requires { 0 < self.old.spare }
        ensures processes { self.new.processes
            ≡ change owner (feed piece moment) self.old.processes }
        ensures spare { self.new.spare + 1 ≡ self.old.spare }
        ensures bytes { self.new.bytes ≡ self.old.bytes }
    {
        leave(&mut self.dues, &self.kernel, owner);
        self.kernel.feed(owner, piece, moment);
        enter(&mut self.dues, &self.kernel, owner);
        self.spare -= 1;
    }

    /// Lets that process's next op take effect at its due moment.
    pub fn run_due(&mut self, owner: Owner, moment: u64) -> Effect
        requires due { due_at (process_of owner self.old.processes) ≡ Some moment }
        requires spare { 0 < self.old.spare }
        requires moment { moment ≤ 9000000000000 }
        requires length { length_at (process_of owner self.old.processes) ≤ self.old.bytes }
        ensures processes { self.new.processes
            ≡ after_step owner (run_due moment) self.old.processes }
        ensures effect { result ≡ effect_at owner (run_due moment) self.old.processes }
        ensures spare { self.new.spare + 1 ≡ self.old.spare }
        ensures bytes { self.new.bytes ≡ self.old.bytes }
    {
        leave(&mut self.dues, &self.kernel, owner);
        let effect = self.kernel.run_due(owner, moment);
        enter(&mut self.dues, &self.kernel, owner);
        self.spare -= 1;
        effect
    }

    /// Begins a process, its first op due at the moment. Without `stdin` its input has ended; it may
    /// write `room` bytes in all.
    pub fn spawn(&mut self, owner: Owner, script: Script, moment: u64, stdin: bool, room: u64)
        requires { 0 < self.old.spare }
        ensures processes { self.new.processes
            ≡ self.old.processes ++ begun owner (spawn script moment stdin room) ∷ [] }
        ensures spare { self.new.spare + 1 ≡ self.old.spare }
        ensures bytes { self.new.bytes ≡ self.old.bytes }
    {
        let place = self.kernel.len();
        let stop = Signal { number: 15 };
        self.kernel.spawn(owner, script, moment, stdin, stop, room);
        let due = self.kernel.due_of(place);
        note(&mut self.dues, due, owner);
        self.spare -= 1;
    }

    /// Takes that process away.
    pub fn remove(&mut self, owner: Owner)
        ensures processes { self.new.processes ≡ without owner self.old.processes }
        ensures spare { self.new.spare ≡ self.old.spare }
        ensures bytes { self.new.bytes ≡ self.old.bytes }
    {
        leave(&mut self.dues, &self.kernel, owner);
        self.kernel.remove(owner);
    }
}
