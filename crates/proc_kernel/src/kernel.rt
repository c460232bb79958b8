ghost use Rattle.std.specs.Prelude.{◌≡◌, ℕ, Some, None, ◌<◌, ◌+◌, ◌≤◌, [], ◌∷◌, ◌++◌, position, All, IfOk, OnOk, OnErr, map, length, option_map, slice_get};
ghost use Rattle.proc_kernel.specs.Processes.{run_due, spawn, feed, feed_end, freeze, thaw, signal, CanThaw};
ghost use Rattle.proc_kernel.specs.Foretelling.{code_at};
ghost use Rattle.proc_kernel.specs.Tables.{Table, is_there, change, process_of, after_step, effect_at, without, due_at, due_in, length_at, room_at, begun, OfProcess};

use super::entries::Entries;
use super::input::{Input, Place};
use super::rooms::{fill_boxes, fill_pieces, refill};
use super::slot::Slot;
use engine_text::{Buffer, Bytes, Effect, NoMemory, Owner, Script, Signal};
use std::alloc::Global;
use std::marker::Model;

/// More pieces than ever come to one kernel.
const MOST_PIECES: usize = 0x8000_0000_0000_0000;

/// Processes by their owners, and the room that was made for their next steps. Moments are
/// milliseconds; an owner without a process is passed over by each call but `spawn`.
#[derive(Drop)]
pub struct Kernel {
    entries: Entries,
    slots: Vec<Box<Slot>>,
    fed: usize,
    boxes: Vec<Box<Slot>>,
    pieces: Vec<Place>,
    buffers: Vec<Buffer>,
    spare: usize,
    bytes: usize,
}

impl Model for Kernel {
    ghost use Rattle.proc_kernel.specs.Tables.{Table};

    ghost Value = { Table };

    ghost use Rattle.proc_kernel.specs.KernelInside.{table_inside, IsSoundKernel};

    ghost view = { table_inside };

    ghost invariant = { IsSoundKernel };
}

impl Kernel {
    /// A kernel without processes; it takes no memory.
    pub fn new(alloc: Global) -> Kernel
        ensures processes { result.processes ≡ [] }
        ensures spare { result.spare ≡ 0 }
        ensures bytes { result.bytes ≡ 0 }
    {
        Kernel {
            entries: Entries::new(alloc),
            slots: Vec::new(alloc),
            fed: 0,
            boxes: Vec::new(alloc),
            pieces: Vec::new(alloc),
            buffers: Vec::new(alloc),
            spare: 0,
            bytes: 0,
        }
    }

    /// Makes room for so many records of at most so many bytes each: what the next steps need. Room
    /// that was made before may be given back.
    pub fn reserve(&mut self, alloc: Global, records: usize, bytes: usize) -> Result<(), NoMemory>
        ensures processes { self.new.processes ≡ self.old.processes }
        ensures spare { OnOk result (records ≤ self.new.spare) }
        ensures bytes { OnOk result (bytes ≤ self.new.bytes) }
        ensures err { OnErr result (self.new ≡ self.old) }
    {
        if records <= self.spare && bytes <= self.bytes {
            return Ok(());
        }
        if MOST_PIECES - self.fed <= records {
            return Err(NoMemory);
        }
        self.entries.reserve(records)?;
        if self.slots.reserve(records).is_err() {
            return Err(NoMemory);
        }
        fill_boxes(alloc, &mut self.boxes, records)?;
        fill_pieces(alloc, &mut self.pieces, records)?;
        refill(alloc, &mut self.buffers, self.bytes, records, bytes)?;
        self.spare = records;
        self.bytes = bytes;
        Ok(())
    }

    /// A buffer for one record.
    fn take_buffer(&mut self) -> Buffer
        requires { 0 < self.old.spare }
        ensures room { self.old.bytes ≤ result }
        ensures processes { self.new.processes ≡ self.old.processes }
        ensures spare { self.new.spare + 1 ≡ self.old.spare }
        ensures bytes { self.new.bytes ≡ self.old.bytes }
    {
        self.spare -= 1;
        self.buffers.pop().unwrap()
    }

    /// Ends the input of that process.
    pub fn feed_end(&mut self, owner: Owner, moment: u64)
        ensures processes { self.new.processes ≡ change owner (feed_end moment) self.old.processes }
        ensures spare { self.new.spare ≡ self.old.spare }
        ensures bytes { self.new.bytes ≡ self.old.bytes }
    {
        if let Some(i) = self.entries.place_of(owner) {
            self.slots[i].feed_end(moment);
        }
    }

    /// Freezes that process: nothing of it is due until a thaw, and its time left is kept.
    pub fn freeze(&mut self, owner: Owner, moment: u64)
        ensures processes { self.new.processes ≡ change owner (freeze moment) self.old.processes }
        ensures spare { self.new.spare ≡ self.old.spare }
        ensures bytes { self.new.bytes ≡ self.old.bytes }
    {
        if let Some(i) = self.entries.place_of(owner) {
            self.slots[i].freeze(moment);
        }
    }

    /// Thaws that process: its time left counts from the moment, and the signals that waited are
    /// met unless it is uninterruptible.
    pub fn thaw(&mut self, owner: Owner, moment: u64) -> Effect
        requires moment { OfProcess (CanThaw moment) (process_of owner self.old.processes) }
        ensures processes { self.new.processes ≡ after_step owner (thaw moment) self.old.processes }
        ensures effect { result ≡ effect_at owner (thaw moment) self.old.processes }
        ensures spare { self.new.spare ≡ self.old.spare }
        ensures bytes { self.new.bytes ≡ self.old.bytes }
    {
        match self.entries.place_of(owner) {
            None => Effect::Lives,
            Some(i) => self.slots[i].thaw(moment),
        }
    }

    /// Sends a signal, which waits in a frozen or uninterruptible process and else is met. With
    /// `thaws` a frozen process is thawed once the signal has joined those that wait.
    pub fn signal(&mut self, owner: Owner, sent: Signal, thaws: bool, moment: u64) -> Effect
        requires signal { sent.number < 32 }
        requires moment { OfProcess (CanThaw moment) (process_of owner self.old.processes) }
        ensures processes { self.new.processes
            ≡ after_step owner (signal sent.number thaws moment) self.old.processes }
        ensures effect { result
            ≡ effect_at owner (signal sent.number thaws moment) self.old.processes }
        ensures spare { self.new.spare ≡ self.old.spare }
        ensures bytes { self.new.bytes ≡ self.old.bytes }
    {
        match self.entries.place_of(owner) {
            None => Effect::Lives,
            Some(i) => self.slots[i].signal(sent.number, thaws, moment),
        }
    }

    /// Gives that process a piece of input; `input_room` tells how many bytes it may have.
    pub fn feed(&mut self, owner: Owner, piece: Bytes, moment: u64)
        requires { 0 < self.old.spare }
        ensures processes { self.new.processes
            ≡ change owner (feed piece moment) self.old.processes }
        ensures spare { self.new.spare + 1 ≡ self.old.spare }
        ensures bytes { self.new.bytes ≡ self.old.bytes }
    {
        self.spare -= 1;
        let Some(i) = self.entries.place_of(owner) else {
            return;
        };
        let place = self.pieces.pop().unwrap();
        self.fed += 1;
        self.slots[i].feed(place, piece, moment);
    }

    /// Lets that process's next op take effect at its due moment.
    pub fn run_due(&mut self, owner: Owner, moment: u64) -> Effect
        requires due { due_at (process_of owner self.old.processes) ≡ Some moment }
        requires spare { 0 < self.old.spare }
        requires moment { moment ≤ 9000000000000 }
        requires length { length_at (process_of owner self.old.processes) ≤ self.old.bytes }
        ensures processes { self.new.processes
            ≡ after_step owner (run_due moment) self.old.processes }
        ensures effect { result ≡ effect_at owner (run_due moment) self.old.processes }
        ensures spare { self.new.spare + 1 ≡ self.old.spare }
        ensures bytes { self.new.bytes ≡ self.old.bytes }
    {
        let buffer = self.take_buffer();
        match self.entries.place_of(owner) {
            None => Effect::Lives,
            Some(i) => self.slots[i].run_due(buffer, moment),
        }
    }

    /// Begins a process, its first op due at the moment. Without `stdin` its input has ended; it
    /// may write `room` bytes in all. The stop signal is passed over.
    pub fn spawn(
        &mut self,
        owner: Owner,
        script: Script,
        moment: u64,
        stdin: bool,
        _stop: Signal,
        room: u64,
    )
        requires { 0 < self.old.spare }
        ensures processes { self.new.processes
            ≡ self.old.processes ++ begun owner (spawn script moment stdin room) ∷ [] }
        ensures spare { self.new.spare + 1 ≡ self.old.spare }
        ensures bytes { self.new.bytes ≡ self.old.bytes }
    {
        self.spare -= 1;
        let mut place = self.boxes.pop().unwrap();
        let input = Input::new(*self.slots.allocator());
        *place = Slot::begin(owner, script, moment, stdin, room, input);
        self.entries.push_reserved(owner);
        self.slots.push_reserved(place);
    }

    /// Takes that process away.
    pub fn remove(&mut self, owner: Owner)
        ensures processes { self.new.processes ≡ without owner self.old.processes }
        ensures spare { self.new.spare ≡ self.old.spare }
        ensures bytes { self.new.bytes ≡ self.old.bytes }
    {
        if let Some(i) = self.entries.place_of(owner) {
            self.entries.remove(i);
            self.slots.remove(i);
        }
    }

    /// Whether the owner has a process.
    pub fn stands(&self, owner: Owner) -> bool
        ensures { result ≡ is_there (process_of owner self.now.processes) }
    {
        match self.entries.place_of(owner) {
            None => false,
            Some(i) => {
                let _slot = &self.slots[i];
                true
            }
        }
    }

    /// How many processes there are.
    pub fn len(&self) -> usize
        ensures { result ≡ length self.now.processes }
    {
        self.slots.len()
    }

    /// Whose the process at that place is.
    pub fn owner_at(&self, place: usize) -> Option<Owner>
        ensures { result ≡ option_map (λ e. e.owner) (slice_get self.now.processes place) }
    {
        match self.slots.as_slice().get(place) {
            None => None,
            Some(slot) => Some(slot.owner),
        }
    }

    /// When the next op of the process at that place is due.
    pub fn due_of(&self, place: usize) -> Option<u64>
        ensures { result ≡ due_in (slice_get self.now.processes place) }
    {
        match self.slots.as_slice().get(place) {
            None => None,
            Some(slot) => slot.next_due(),
        }
    }

    /// When that process's next op is due, if it is.
    pub fn next_due(&self, owner: Owner) -> Option<u64>
        ensures { result ≡ due_at (process_of owner self.now.processes) }
    {
        match self.entries.place_of(owner) {
            None => None,
            Some(i) => self.slots[i].next_due(),
        }
    }

    /// How many bytes that process's waiting input can still take, 0 without a process.
    pub fn input_room(&self, owner: Owner) -> u64
        ensures { result ≡ room_at (process_of owner self.now.processes) }
    {
        match self.entries.place_of(owner) {
            None => 0,
            Some(i) => self.slots[i].input_room(),
        }
    }

    /// How long the record of that process's next op is: what `run_due` wants of `reserve`.
    pub fn record_length(&self, owner: Owner) -> usize
        ensures { result ≡ length_at (process_of owner self.now.processes) }
    {
        match self.entries.place_of(owner) {
            None => 0,
            Some(i) => self.slots[i].record_length(),
        }
    }

    /// The code with which that signal would end the process at any moment, if it would.
    pub fn signal_code(&self, owner: Owner, sent: Signal, thaws: bool) -> Option<u8>
        requires { sent.number < 32 }
        ensures { (t : ℕ) → result
            ≡ code_at (signal sent.number thaws t) (process_of owner self.now.processes) }
    {
        match self.entries.place_of(owner) {
            None => None,
            Some(i) => self.slots[i].signal_code(sent.number, thaws),
        }
    }

    /// The code with which a thaw would end the process at any moment, if it would.
    pub fn thaw_code(&self, owner: Owner) -> Option<u8>
        ensures { (t : ℕ) → result ≡ code_at (thaw t) (process_of owner self.now.processes) }
    {
        match self.entries.place_of(owner) {
            None => None,
            Some(i) => self.slots[i].thaw_code(),
        }
    }

    /// The code with which the process's next op would end it at any moment, if it would.
    pub fn due_code(&self, owner: Owner) -> Option<u8>
        ensures { (t : ℕ) → result ≡ code_at (run_due t) (process_of owner self.now.processes) }
    {
        match self.entries.place_of(owner) {
            None => None,
            Some(i) => self.slots[i].due_code(),
        }
    }
}
