// What is kept of removed containers.
ghost use Rattle.std.specs.Prelude.{◌≡◌, ℕ, ◌<◌, ◌≤◌, [], ◌∷◌, ◌++◌, length, vec_len, vec_capacity, OnOk};
ghost use Rattle.container_table.specs.Lists.{last_of};

use engine_text::{KeptLogs, NoMemory, Removed};
use std::alloc::Global;
use std::marker::Model;

/// The numbers of the removed containers in order of removal, and the logs of the last 64 of them.
#[derive(Drop)]
pub struct Removals {
    pub(super) numbers: Vec<Removed>,
    pub(super) logs: Vec<KeptLogs>,
}

impl Model for Removals {
    ghost use Rattle.machine_tables.specs.Values.Removals.{RemovalRows};

    ghost Value = { RemovalRows };

    ghost use Rattle.machine_tables.specs.Views.Removals.{removal_rows};

    ghost view = { removal_rows };
}

// All but the last 64 are dropped.
fn keep_last(logs: &mut Vec<KeptLogs>)
    ensures items { logs.new.items ≡ last_of 64 logs.old.items }
    ensures capacity { vec_capacity logs.new ≡ vec_capacity logs.old }
{
    while logs.len() > 64 {
        let _oldest = logs.remove(0);
    }
}

impl Removals {
    /// None; it takes no memory.
    pub fn new(alloc: Global) -> Removals
        ensures removed { result.removed ≡ [] }
        ensures kept { result.kept ≡ [] }
    {
        Removals {
            numbers: Vec::new(alloc),
            logs: Vec::new(alloc),
        }
    }

    /// A removal more, of which the logs are kept.
    pub fn add(&mut self, removed: Removed, logs: KeptLogs)
        requires removed { length self.old.removed < self.old.removed_room }
        requires kept { length self.old.kept < self.old.kept_room }
        ensures removed { self.new.removed ≡ self.old.removed ++ removed ∷ [] }
        ensures kept { self.new.kept ≡ last_of 64 (self.old.kept ++ logs ∷ []) }
        ensures removed_room { self.new.removed_room ≡ self.old.removed_room }
        ensures kept_room { self.new.kept_room ≡ self.old.kept_room }
    {
        self.numbers.push_reserved(removed);
        self.logs.push_reserved(logs);
        keep_last(&mut self.logs);
    }

    /// Makes room for a removal more.
    pub fn reserve(&mut self) -> Result<(), NoMemory>
        ensures removed { self.new.removed ≡ self.old.removed }
        ensures kept { self.new.kept ≡ self.old.kept }
        ensures removed_room { OnOk result (length self.new.removed < self.new.removed_room) }
        ensures kept_room { OnOk result (length self.new.kept < self.new.kept_room) }
    {
        if self.numbers.reserve(1).is_err() {
            return Err(NoMemory);
        }
        match self.logs.reserve(1) {
            Ok(()) => Ok(()),
            Err(_) => Err(NoMemory),
        }
    }
}
