// The tables of the machine: every part of its state.
ghost use Rattle.std.specs.Prelude.{◌≡◌, ℕ, ◌+◌, ◌<◌, ◌≤◌, ◌^◌, length, map, min, [], option_map, option_copied, vec_capacity, Some, IfOk, OnOk};
ghost use Rattle.engine_text.specs.declared.owner.Owner as owners;
ghost use Rattle.proc_kernel.specs.Processes.{run_due, thaw, signal};
ghost use Rattle.proc_kernel.specs.Tables.{due_at, effect_of, length_at, process_of};
ghost use Rattle.proc_kernel.specs.Foretelling.{code_at};
ghost use Rattle.container_table.specs.Reference.{container_by};
ghost use Rattle.machine_model.specs.State.{initial_state, container_numbered, exec_numbered, running_execs, is_live, change_life, clear_timer, set_timer, drop_process};
ghost use Rattle.machine_model.specs.Calls.Pause.{freeze_process};
ghost use Rattle.machine_model.specs.Effects.Meet.{stepped, write_record};
ghost use Rattle.machine_model.specs.Step.{counted};
ghost use Rattle.machine_events.specs.Fit.{AreFew, AreTimely};
ghost use Rattle.machine_events.specs.Effects.EndMain.{begun};
ghost use Rattle.container_table.specs.Logs.{container_in};
ghost use Rattle.machine_events.specs.EndMemories.{IsEndMemoryOf};
ghost use Rattle.machine_events.specs.ChangedLives.{changed_life};
ghost use Rattle.machine_events.specs.Memory.{HasRoom, standing};
ghost use Rattle.machine_events.specs.Rooms.{FitsLog, FitsOutput};

use container_table::{Held, LifeChange, Rank, Table};
use engine_text::{
    Bytes, Effect, Event, Exec, Found, LogRecord, NoMemory, OwnedLog, Owner, Script, Signal, Stream,
};
use exec_table::Execs;
use machine_events::{EndMemory, exec_lists, lives};
use machine_model::{GREATEST_MOMENT, KEPT_EVENTS};
use machine_tables::{Moments, Processes, Removals, Tickets};
use std::alloc::Global;
use std::marker::Model;
use volume_table::Volumes;

/// Every part of the machine's state.
#[derive(Drop)]
pub struct Tables {
    pub(super) table: Table,
    pub(super) execs: Execs,
    pub(super) processes: Processes,
    pub(super) volumes: Volumes,
    pub(super) tickets: Tickets,
    pub(super) removals: Removals,
    pub(super) moments: Moments,
    pub(super) scratch: Vec<u64>,
    pub(super) next_number: u64,
    pub(super) next_ticket: u64,
    pub(super) next_pid: u64,
    pub(super) event_count: u64,
    pub(super) call_count: u64,
    pub(super) step_count: u64,
    pub(super) clock: u64,
    pub(super) seed: [u8; 32],
}

impl Model for Tables {
    ghost use Rattle.machine_events.specs.Memory.{Memory};

    ghost Value = { Memory };

    ghost use Rattle.machine_effects.specs.Views.Tables.{memory_of};

    ghost view = { memory_of };
}

impl Tables {
    /// The tables of a machine in which nothing is, at a moment.
    pub fn new(alloc: Global, seed: [u8; 32], moment: u64) -> Result<Tables, NoMemory>
        ensures state { IfOk result (λ t. t.state ≡ initial_state seed moment) }
        ensures moments { IfOk result (λ t. KEPT_EVENTS ≤ t.room.moments) }
    {
        let mut moments = Moments::new(alloc);
        moments.reserve(KEPT_EVENTS)?;
        Ok(Tables {
            table: Table::new(alloc),
            execs: Execs::new(alloc),
            processes: Processes::new(alloc),
            volumes: Volumes::new(alloc),
            tickets: Tickets::new(alloc),
            removals: Removals::new(alloc),
            moments,
            scratch: Vec::new(alloc),
            next_number: 0,
            next_ticket: 0,
            next_pid: 1001,
            event_count: 0,
            call_count: 0,
            step_count: 0,
            clock: moment,
            seed,
        })
    }

    /// That is noted in the container's life.
    pub fn renew(&mut self, number: u64, noted: LifeChange)
        ensures state { self.new.state ≡ change_life number (changed_life noted) self.old.state }
        ensures room { self.new.room ≡ self.old.room }
        ensures spare { self.new.spare ≡ self.old.spare }
    {
        lives::renew(&mut self.table, number, noted);
    }

    /// The owner's process is gone.
    pub fn drop_process(&mut self, owner: Owner)
        ensures state { self.new.state ≡ drop_process owner self.old.state }
        ensures room { self.new.room ≡ self.old.room }
        ensures spare { self.new.spare ≡ self.old.spare }
        ensures scratch { self.new.scratch ≡ self.old.scratch }
    {
        self.processes.remove(owner);
    }

    /// The timer of that rank and number is gone.
    pub fn clear_timer(&mut self, rank: Rank, number: u64)
        ensures state { self.new.state ≡ clear_timer rank number self.old.state }
        ensures room { self.new.room ≡ self.old.room }
        ensures spare { self.new.spare ≡ self.old.spare }
    {
        self.table.clear(rank, number);
    }

    /// There is a timer of that rank and number at the moment, in the place of an earlier one.
    pub fn set_timer(&mut self, rank: Rank, number: u64, moment: u64)
        requires { length self.old.state.timers < self.old.room.timers }
        ensures state { self.new.state ≡ set_timer rank number moment self.old.state }
        ensures room { self.new.room ≡ self.old.room }
        ensures spare { self.new.spare ≡ self.old.spare }
    {
        self.table.set(moment, rank, number);
    }

    /// The moment of the step.
    pub fn clock(&self) -> u64
        ensures { result ≡ self.now.state.clock }
    {
        self.clock
    }

    /// The container with that number.
    pub fn numbered(&self, number: u64) -> Option<&Held>
        ensures { option_map container_in (option_copied result)
            ≡ container_numbered number self.now.state }
    {
        self.table.find_number(number)
    }

    /// The exec with that number.
    pub fn exec(&self, number: u64) -> Option<&Exec>
        ensures { option_copied result ≡ exec_numbered number self.now.state }
    {
        self.execs.find_number(number)
    }

    /// The container that a reference names.
    pub fn find(&self, reference: &str) -> Found
        ensures { result ≡ container_by self.now.state.containers reference.now }
    {
        self.table.find(reference)
    }

    /// Whether the owner's process lives.
    pub fn stands(&self, owner: Owner) -> bool
        ensures { result ≡ is_live owner self.now.state }
    {
        self.processes.kernel().stands(owner)
    }

    /// The numbers of the container's running execs.
    pub fn running(&self, alloc: Global, number: u64) -> Result<Vec<u64>, NoMemory>
        ensures { IfOk result
            (λ v. v.items ≡ map (λ x. x.number) (running_execs number self.now.state)) }
    {
        let mut numbers = Vec::new(alloc);
        if numbers.reserve(self.execs.len()).is_err() {
            return Err(NoMemory);
        }
        exec_lists::list_running(&self.execs, self.processes.kernel(), number, &mut numbers);
        Ok(numbers)
    }

    /// The code with which that signal would end the container's process, if it would.
    pub fn signal_code(&self, number: u64, sent: Signal, thaws: bool) -> Option<u8>
        requires { sent.number < 32 }
        ensures { (t : ℕ) → result ≡ code_at (signal sent.number thaws t)
            (process_of (owners.Owner.Container number) self.now.state.processes) }
    {
        self.processes
            .kernel()
            .signal_code(Owner::Container(number), sent, thaws)
    }

    /// The owner's process goes on.
    pub fn thaw_process(&mut self, owner: Owner) -> Effect
        requires { AreTimely self.old.state }
        ensures state { self.new.state ≡ stepped thaw owner self.old.state }
        ensures effect { result ≡ effect_of (thaw self.old.state.clock)
            (process_of owner self.old.state.processes) }
        ensures room { self.new.room ≡ self.old.room }
        ensures spare { self.new.spare ≡ self.old.spare }
        ensures scratch { self.new.scratch ≡ self.old.scratch }
    {
        self.processes.thaw(owner, self.clock)
    }

    /// The signal comes to the owner's process.
    pub fn signal_process(&mut self, owner: Owner, sent: Signal, thaws: bool) -> Effect
        requires timely { AreTimely self.old.state }
        requires signal { sent.number < 32 }
        ensures state { self.new.state ≡ stepped (signal sent.number thaws) owner self.old.state }
        ensures effect { result
            ≡ effect_of (signal sent.number thaws self.old.state.clock)
            (process_of owner self.old.state.processes) }
        ensures room { self.new.room ≡ self.old.room }
        ensures spare { self.new.spare ≡ self.old.spare }
    {
        self.processes.signal(owner, sent, thaws, self.clock)
    }

    /// The next op of the owner's process takes effect.
    pub fn run_process(&mut self, owner: Owner) -> Effect
        requires due { due_at (process_of owner self.old.state.processes)
            ≡ Some self.old.state.clock }
        requires spare { 0 < self.old.spare }
        requires clock { self.old.state.clock ≤ GREATEST_MOMENT }
        requires length { length_at (process_of owner self.old.state.processes) ≤ self.old.bytes }
        ensures state { self.new.state ≡ stepped run_due owner self.old.state }
        ensures effect { result ≡ effect_of (run_due self.old.state.clock)
            (process_of owner self.old.state.processes) }
        ensures room { self.new.room ≡ self.old.room }
        ensures spare { self.new.spare + 1 ≡ self.old.spare }
        ensures logs { self.new.logs ≡ self.old.logs }
        ensures outputs { self.new.outputs ≡ self.old.outputs }
    {
        self.processes.run_due(owner, self.clock)
    }

    /// The container's log has one more record, of its current run.
    pub(super) fn write_log(&mut self, number: u64, stream: Stream, payload: Bytes)
        requires { FitsLog number self.old.state.containers self.old.logs }
        ensures state { self.new.state
            ≡ (write_record (owners.Owner.Container number) stream payload self.old.state).state }
        ensures room { self.new.room ≡ self.old.room }
        ensures spare { self.new.spare ≡ self.old.spare }
    {
        lives::record(&mut self.table, number, stream, payload, self.clock);
    }

    /// The exec's output has one more record.
    pub(super) fn write_output(&mut self, number: u64, stream: Stream, payload: Bytes)
        requires { FitsOutput number self.old.state.outputs self.old.outputs }
        ensures state { self.new.state
            ≡ (write_record (owners.Owner.Exec number) stream payload self.old.state).state }
        ensures room { self.new.room ≡ self.old.room }
        ensures spare { self.new.spare ≡ self.old.spare }
    {
        let written = LogRecord {
            run: 1,
            stream,
            payload,
            moment: self.clock,
        };
        self.execs.push_record(number, written);
    }

    /// The owner's process is frozen.
    pub fn freeze_process(&mut self, owner: Owner)
        ensures state { self.new.state ≡ (freeze_process owner self.old.state).state }
        ensures room { self.new.room ≡ self.old.room }
        ensures spare { self.new.spare ≡ self.old.spare }
        ensures scratch { self.new.scratch ≡ self.old.scratch }
    {
        self.processes.freeze(owner, self.clock);
    }

    // The container's life and process begin, with room for so many bytes.
    pub(super) fn begin(&mut self, number: u64, script: Script, stdin: bool, room: u64)
        requires few { AreFew self.old.state.containers }
        requires pid { self.old.state.next_pid < 2 ^ 63 }
        requires spare { 0 < self.old.spare }
        ensures state { self.new.state ≡ begun number script stdin room self.old.state }
        ensures room { self.new.room ≡ self.old.room }
    {
        lives::launch(&mut self.table, number, self.clock, self.next_pid);
        let owner = Owner::Container(number);
        self.processes.spawn(owner, script, self.clock, stdin, room);
        self.next_pid += 1;
    }

    /// The effects stand at that moment.
    pub fn stand_at(&mut self, moment: u64)
        ensures { self.new ≡ standing moment self.old }
    {
        self.clock = moment;
    }

    /// The step and its events are counted.
    pub fn count(&mut self, events: &[Event], calls: u64)
        requires steps { self.old.state.step_count < 2 ^ 60 }
        requires calls { self.old.state.call_count + calls < 2 ^ 63 }
        requires events { self.old.state.event_count + length events.now < 2 ^ 64 }
        requires moments { min KEPT_EVENTS (length self.old.state.event_moments + length events.now)
            ≤ self.old.room.moments }
        ensures state { self.new.state ≡ counted events.now calls self.old.state }
        ensures room { self.new.room ≡ self.old.room }
        ensures spare { self.new.spare ≡ self.old.spare }
    {
        self.moments.add(events);
        self.event_count += events.len() as u64;
        self.call_count += calls;
        self.step_count += 1;
    }

    /// Makes room for the end of a main process, and what may follow it.
    pub fn make_room(&mut self, alloc: Global) -> Result<(), NoMemory>
        ensures state { self.new.state ≡ self.old.state }
        ensures room { OnOk result (HasRoom self.new) }
        ensures tickets { self.new.room.tickets ≡ self.old.room.tickets }
        ensures moments { self.new.room.moments ≡ self.old.room.moments }
    {
        if self.scratch.reserve(self.execs.len()).is_err() {
            return Err(NoMemory);
        }
        self.table.reserve_timers(1)?;
        self.removals.reserve()?;
        self.processes.reserve(alloc, 1, 0)
    }

    /// The memory that the end of the container's main process may want, with the script of its launch.
    pub fn end_memory(
        &self,
        alloc: Global,
        number: u64,
        script: Option<Script>,
    ) -> Result<EndMemory, NoMemory>
        ensures { IfOk result (λ k. IsEndMemoryOf number script self.now.state k) }
    {
        let execs = exec_lists::numbers_of(&self.execs, alloc, number)?;
        let outputs = self.execs.count_of(number);
        let logs = room_for(alloc, outputs)?;
        Ok(EndMemory {
            script,
            logs,
            execs,
        })
    }
}

// A list with room for so many logs and one more.
fn room_for(alloc: Global, outputs: usize) -> Result<Vec<OwnedLog>, NoMemory>
    ensures { IfOk result (λ v. (v.items ≡ []) × (outputs + 1 ≤ vec_capacity v)) }
{
    let Some(places) = outputs.checked_add(1) else {
        return Err(NoMemory);
    };
    let mut logs = Vec::new(alloc);
    match logs.reserve(places) {
        Ok(()) => Ok(logs),
        Err(_) => Err(NoMemory),
    }
}
