// A log that is written on: room for records is made before they come (own).
ghost use Rattle.std.specs.Prelude.{◌≡◌, ◌≤◌, ◌<◌, ◌+◌, ◌-◌, [], ◌∷◌, ◌++◌, length, OnOk, OnErr};
ghost use Rattle.engine_text.specs.Logs.{log_size, told_size};

use super::log::size_with;
use super::{Log, LogRecord, NoMemory};
use std::alloc::Global;
use std::marker::Model;

/// A log that is written on, seen as its records and as how many more it has room for. How many
/// bytes they have is at hand.
#[derive(Drop)]
pub struct OpenLog {
    items: Vec<LogRecord>,
    size: u64,
}

impl Model for OpenLog {
    ghost use Rattle.engine_text.specs.Logs.{Written};

    ghost Value = { Written };

    ghost use Rattle.engine_text.specs.LogInside.{written_inside, IsSoundOpenLog};

    ghost view = { written_inside };

    ghost invariant = { IsSoundOpenLog };
}

/// For how many more records to ask where `count` are wanted: for that many where there is room, else for
/// an eighth of the records, or for more where more are wanted.
fn room_to_make(room: usize, len: usize, count: usize) -> usize
    ensures { count ≤ result }
{
    if count <= room {
        count
    } else {
        count.max(len / 8)
    }
}

impl OpenLog {
    /// No records; it takes no memory.
    pub fn new(alloc: Global) -> OpenLog
        ensures records { result.records ≡ [] }
        ensures room { result.room ≡ 0 }
    {
        OpenLog {
            items: Vec::new(alloc),
            size: 0,
        }
    }

    /// That log, to be written on; it takes no memory.
    pub fn open(log: Log) -> OpenLog
        ensures { result.records ≡ log }
    {
        let Log { items, size } = log;
        OpenLog { items, size }
    }

    /// The log, written to its end; it takes no memory.
    pub fn close(self) -> Log
        ensures { result ≡ self.records }
    {
        let OpenLog { items, size } = self;
        Log { items, size }
    }

    /// Makes room for so many more records; room that is there stays. A record of 48 bytes stands beside
    /// its payload, and a log that grows by one record gets room for an eighth more, so it takes at most 54
    /// bytes a record.
    pub fn reserve(&mut self, _alloc: Global, count: usize) -> Result<(), NoMemory>
        ensures records { self.new.records ≡ self.old.records }
        ensures ok { OnOk result (count ≤ self.new.room) }
        ensures room { self.old.room ≤ self.new.room }
        ensures err { OnErr result (self.new ≡ self.old) }
    {
        let more = room_to_make(self.room(), self.len(), count);
        match self.items.reserve_exact(more) {
            Ok(()) => Ok(()),
            Err(_) => Err(NoMemory),
        }
    }

    /// Adds a record where room was made; it takes no memory.
    pub fn push_reserved(&mut self, item: LogRecord)
        requires { 0 < self.old.room }
        ensures records { self.new.records ≡ self.old.records ++ item ∷ [] }
        ensures room { self.new.room + 1 ≡ self.old.room }
    {
        self.size = size_with(self.size, &item);
        self.items.push_reserved(item);
    }

    /// How many more records there is room for.
    pub fn room(&self) -> usize
        ensures { result ≡ self.now.room }
    {
        self.items.capacity() - self.items.len()
    }

    /// How many bytes the records have, without a walk.
    pub fn size(&self) -> u64
        ensures { result ≡ told_size self.now.records }
    {
        self.size
    }

    /// How many bytes more there may be below that limit.
    pub fn bytes_left(&self, limit: u64) -> u64
        ensures { result ≡ limit - log_size self.now.records }
    {
        limit.saturating_sub(self.size)
    }

    /// The records, lent.
    pub fn as_slice(&self) -> &[LogRecord]
        ensures { result.now ≡ self.now.records }
    {
        self.items.as_slice()
    }

    /// How many they are.
    pub fn len(&self) -> usize
        ensures { result ≡ length self.now.records }
    {
        self.items.len()
    }
}
