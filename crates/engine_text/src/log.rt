// The records that processes write, and the logs of them (own).
ghost use Rattle.std.specs.Prelude.{◌≡◌, ◌+◌, ◌-◌, ◌^◌, min, [], ◌∷◌, ◌++◌, length, OnOk, OnErr};
ghost use Rattle.engine_text.specs.Logs.{told_size};

use super::{Bytes, NoMemory, Owner, Stream};
use std::alloc::Global;
use std::marker::Model;

/// One write of a process: in which run, counted from 1, and at which moment in milliseconds.
#[derive(Drop)]
pub struct LogRecord {
    pub run: u64,
    pub stream: Stream,
    pub payload: Bytes,
    pub moment: u64,
}

/// A log, seen as the list of its records. How many bytes they have is at hand.
#[derive(Drop)]
pub struct Log {
    pub(super) items: Vec<LogRecord>,
    pub(super) size: u64,
}

impl Model for Log {
    ghost use Rattle.std.specs.Prelude.{◌≡◌, List};
    ghost use Rattle.engine_text.specs.declared.log.LogRecord.{LogRecord as ARecord};
    ghost use Rattle.engine_text.specs.Logs.{told_size};

    ghost Value = { List ARecord };

    ghost view = { λ l. l.items.items };

    ghost invariant = { λ l. l.size ≡ told_size l.items.items };
}

/// The log of a container or the output of an exec.
#[derive(Drop)]
pub struct OwnedLog {
    pub owner: Owner,
    pub log: Log,
}

/// Logs, seen as their list.
#[derive(Drop)]
pub struct OwnedLogs {
    items: Vec<OwnedLog>,
}

impl Model for OwnedLogs {
    ghost use Rattle.std.specs.Prelude.{List};
    ghost use Rattle.engine_text.specs.declared.log.OwnedLog.{OwnedLog as ALog};

    ghost Value = { List ALog };

    ghost view = { λ l. l.items.items };
}

/// The log of a removed container, and the outputs of its execs.
#[derive(Drop)]
pub struct KeptLogs {
    pub number: u64,
    pub logs: OwnedLogs,
}

/// The size of a log of that size with one record more.
pub(super) fn size_with(size: u64, item: &LogRecord) -> u64
    ensures { result ≡ min (size + length item.now.payload) (2 ^ 64 - 1) }
{
    size.saturating_add(item.payload.len() as u64)
}

fn size_of(records: &[LogRecord]) -> u64
    ensures { result ≡ told_size records.now }
{
    let mut size = 0;
    for item in records {
        size = size_with(size, item);
    }
    size
}

impl Log {
    /// No records; it takes no memory.
    pub fn new(alloc: Global) -> Log
        ensures { result ≡ [] }
    {
        Log {
            items: Vec::new(alloc),
            size: 0,
        }
    }

    /// The log of these records, whose bytes it counts; it takes no memory.
    pub fn from_vec(items: Vec<LogRecord>) -> Log
        ensures { result ≡ items.items }
    {
        let size = size_of(items.as_slice());
        Log { items, size }
    }

    /// The records as a vector; it takes no memory.
    pub fn into_vec(self) -> Vec<LogRecord>
        ensures { result.items ≡ self }
    {
        let Log { items, .. } = self;
        items
    }

    /// Adds a record at the end.
    pub fn push(&mut self, _alloc: Global, item: LogRecord) -> Result<(), NoMemory>
        ensures ok { OnOk result (self.new ≡ self.old ++ item ∷ []) }
        ensures err { OnErr result (self.new ≡ self.old) }
    {
        let size = size_with(self.size, &item);
        if self.items.push(item).is_err() {
            return Err(NoMemory);
        }
        self.size = size;
        Ok(())
    }

    /// How many bytes the records have, without a walk.
    pub fn size(&self) -> u64
        ensures { result ≡ told_size self.now }
    {
        self.size
    }

    /// The records, lent.
    pub fn as_slice(&self) -> &[LogRecord]
        ensures { result.now ≡ self.now }
    {
        self.items.as_slice()
    }

    /// How many they are.
    pub fn len(&self) -> usize
        ensures { result ≡ length self.now }
    {
        self.items.len()
    }
}

impl OwnedLogs {
    /// No logs; it takes no memory.
    pub fn new(alloc: Global) -> OwnedLogs
        ensures { result ≡ [] }
    {
        OwnedLogs {
            items: Vec::new(alloc),
        }
    }

    /// These logs; it takes no memory.
    pub fn from_vec(items: Vec<OwnedLog>) -> OwnedLogs
        ensures { result ≡ items.items }
    {
        OwnedLogs { items }
    }

    /// The logs as a vector; it takes no memory.
    pub fn into_vec(self) -> Vec<OwnedLog>
        ensures { result.items ≡ self }
    {
        let OwnedLogs { items } = self;
        items
    }

    /// Adds a log at the end.
    pub fn push(&mut self, _alloc: Global, item: OwnedLog) -> Result<(), NoMemory>
        ensures ok { OnOk result (self.new ≡ self.old ++ item ∷ []) }
        ensures err { OnErr result (self.new ≡ self.old) }
    {
        match self.items.push(item) {
            Ok(()) => Ok(()),
            Err(_) => Err(NoMemory),
        }
    }

    /// The logs, lent.
    pub fn as_slice(&self) -> &[OwnedLog]
        ensures { result.now ≡ self.now }
    {
        self.items.as_slice()
    }

    /// How many they are.
    pub fn len(&self) -> usize
        ensures { result ≡ length self.now }
    {
        self.items.len()
    }
}
