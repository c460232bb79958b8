// The table of execs (Docker Engine API v1.43, ContainerExec, ExecStart, ExecInspect).
ghost use Rattle.std.specs.Prelude.{◌≡◌, ◌==◌, ◌+◌, ◌<◌, ◌≤◌, [], ◌∷◌, ◌++◌, not, None, OnOk, OnErr, length, filter, slice_get, Some, vec_len, vec_capacity};
ghost use Rattle.std.specs.List.{AllByRecursion};
ghost use Rattle.std.specs.Option.{option_copied};
ghost use Rattle.engine_text.specs.Lists.{update_first};
ghost use Rattle.container_table.specs.Logs.{AreNoLess};
ghost use Rattle.exec_table.specs.Execs.{empty_output, exec_numbered, exec_with_id, started, ended, execs_of, is_output_numbered, is_output_of, output_log, rooms_used, rooms_without, with_record, without_execs_of, FitsOutput};

use super::listing::ExecList;
use super::row::{Owned, Row};
use super::{ids, owned, removal, rows};
use container_table::Rows;
use engine_text::{Exec, LogRecord, NoMemory, OpenLog, OwnedLog};
use std::alloc::Global;
use std::marker::Model;

/// Execs in order of number with their outputs, seen beside the room that was made for them.
#[derive(Drop)]
pub struct Execs {
    alloc: Global,
    rows: Rows<Row>,
    ids: Rows<u64>,
    owned: Rows<Owned>,
}

impl Model for Execs {
    ghost use Rattle.exec_table.specs.Execs.{ExecTable};

    ghost Value = { ExecTable };

    ghost use Rattle.exec_table.specs.ExecsInside.{table_inside, IsSound};

    ghost view = { table_inside };

    ghost invariant = { IsSound };
}

impl Execs {
    /// No execs; it takes no memory.
    pub fn new(alloc: Global) -> Execs
        ensures execs { result.execs ≡ [] }
        ensures outputs { result.outputs ≡ [] }
        ensures rooms { result.rooms ≡ [] }
        ensures places { result.places ≡ 0 }
    {
        Execs {
            alloc,
            rows: Rows::new(alloc),
            ids: Rows::new(alloc),
            owned: Rows::new(alloc),
        }
    }

    /// How many they are.
    pub fn len(&self) -> usize
        ensures { result ≡ length self.now.execs }
    {
        self.rows.len()
    }

    /// The exec at that place, in order of number.
    pub fn at(&self, place: usize) -> &Exec
        requires { place < length self.now.execs }
        ensures { slice_get self.now.execs place ≡ Some result.now }
    {
        &self.rows.at(place).exec
    }

    /// Makes room for so many more.
    pub fn reserve(&mut self, alloc: Global, n: usize) -> Result<(), NoMemory>
        ensures execs { self.new.execs ≡ self.old.execs }
        ensures outputs { self.new.outputs ≡ self.old.outputs }
        ensures rooms { self.new.rooms ≡ self.old.rooms }
        ensures ok { OnOk result (length self.new.execs + n ≤ self.new.places) }
        ensures places { self.old.places ≤ self.new.places }
    {
        self.rows.reserve(alloc, n)?;
        self.ids.reserve(alloc, n)?;
        self.owned.reserve(alloc, n)
    }

    /// Adds an exec that has written nothing; there was room for it.
    pub fn create(&mut self, exec: Exec)
        requires above { AllByRecursion (λ x. x.number < exec.number) self.old.execs }
        requires fresh { exec_with_id exec.id self.old.execs ≡ None }
        requires room { length self.old.execs < self.old.places }
        ensures execs { self.new.execs ≡ self.old.execs ++ exec ∷ [] }
        ensures outputs { self.new.outputs ≡ self.old.outputs ++ empty_output exec.number ∷ [] }
        ensures rooms { self.new.rooms ≡ self.old.rooms ++ 0 ∷ [] }
        ensures places { self.new.places ≡ self.old.places }
    {
        ids::file(&mut self.ids, &self.rows, &exec);
        owned::file(&mut self.owned, &exec);
        let log = OpenLog::new(self.alloc);
        self.rows.push(Row { exec, log });
    }

    /// The exec with that full id, found by halving.
    pub fn find(&self, id: &str) -> Option<&Exec>
        ensures { option_copied result ≡ exec_with_id id.now self.now.execs }
    {
        match ids::locate(&self.ids, &self.rows, id) {
            Ok(i) => self.find_number(*self.ids.at(i)),
            Err(_) => None,
        }
    }

    /// The exec with that number, found by halving.
    pub fn find_number(&self, number: u64) -> Option<&Exec>
        ensures { option_copied result ≡ exec_numbered number self.now.execs }
    {
        match rows::place_of(&self.rows, number) {
            None => None,
            Some(i) => Some(&self.rows.at(i).exec),
        }
    }

    /// What the exec with that number has written.
    pub fn output(&self, number: u64) -> Option<&[LogRecord]>
        ensures { option_copied result ≡ output_log number self.now.outputs }
    {
        match rows::place_of(&self.rows, number) {
            None => None,
            Some(i) => Some(self.rows.at(i).log.as_slice()),
        }
    }

    /// That exec has started, and its process has that id. An absent one is passed over.
    pub fn start(&mut self, number: u64, pid: u64)
        ensures execs { self.new.execs
            ≡ update_first (λ x. x.number == number) (started pid) self.old.execs }
        ensures outputs { self.new.outputs ≡ self.old.outputs }
        ensures rooms { self.new.rooms ≡ self.old.rooms }
        ensures places { self.new.places ≡ self.old.places }
    {
        if let Some(i) = rows::place_of(&self.rows, number) {
            let row = self.rows.at_mut(i);
            row.exec.started = true;
            row.exec.pid = pid;
        }
    }

    /// That exec's process has ended with that code. An absent one is passed over.
    pub fn ended(&mut self, number: u64, code: u8)
        ensures execs { self.new.execs
            ≡ update_first (λ x. x.number == number) (ended code) self.old.execs }
        ensures outputs { self.new.outputs ≡ self.old.outputs }
        ensures rooms { self.new.rooms ≡ self.old.rooms }
        ensures places { self.new.places ≡ self.old.places }
    {
        if let Some(i) = rows::place_of(&self.rows, number) {
            let row = self.rows.at_mut(i);
            row.exec.pid = 0;
            row.exec.code = Some(code);
        }
    }

    /// Makes room for one more record of that exec's output; room that is there stays.
    pub fn reserve_record(&mut self, alloc: Global, number: u64) -> Result<(), NoMemory>
        ensures execs { self.new.execs ≡ self.old.execs }
        ensures outputs { self.new.outputs ≡ self.old.outputs }
        ensures room { OnOk result (FitsOutput number self.new.outputs self.new.rooms) }
        ensures rooms { AreNoLess self.old.rooms self.new.rooms }
        ensures err { OnErr result (self.new.rooms ≡ self.old.rooms) }
        ensures places { self.new.places ≡ self.old.places }
    {
        rows::reserve_record(&mut self.rows, alloc, number)
    }

    /// The output of that exec has one more record; it takes no memory. An absent one is passed over.
    pub fn push_record(&mut self, number: u64, written: LogRecord)
        requires { FitsOutput number self.old.outputs self.old.rooms }
        ensures execs { self.new.execs ≡ self.old.execs }
        ensures outputs { self.new.outputs
            ≡ update_first (is_output_numbered number) (with_record written) self.old.outputs }
        ensures rooms { self.new.rooms ≡ rooms_used number self.old.execs self.old.rooms }
        ensures places { self.new.places ≡ self.old.places }
    {
        rows::write(&mut self.rows, number, written);
    }

    /// The execs of a container, in order of number.
    pub fn of_container(&self, container: u64) -> ExecList<'_>
        ensures { result ≡ execs_of container self.now.execs }
    {
        ExecList::of(&self.rows, &self.owned, container)
    }

    /// How many outputs are of the container's execs.
    pub fn count_of(&self, container: u64) -> usize
        ensures { result
            ≡ length (filter (is_output_of container self.now.execs) self.now.outputs) }
    {
        owned::count_of(&self.owned, container)
    }

    /// Takes a container's execs away; their outputs go over into the list.
    pub fn remove_container(&mut self, container: u64, into: &mut Vec<OwnedLog>)
        requires { length (filter (is_output_of container self.old.execs) self.old.outputs)
            + vec_len into.old ≤ vec_capacity into.old }
        ensures execs { self.new.execs ≡ without_execs_of container self.old.execs }
        ensures outputs { self.new.outputs
            ≡ filter (λ o. not (is_output_of container self.old.execs o)) self.old.outputs }
        ensures rooms { self.new.rooms ≡ rooms_without container self.old.execs self.old.rooms }
        ensures into { into.new.items ≡ into.old.items
            ++ filter (is_output_of container self.old.execs) self.old.outputs }
        ensures places { self.new.places ≡ self.old.places }
    {
        let left = owned::count_of(&self.owned, container);
        removal::move_all(
            &mut self.rows,
            &mut self.ids,
            &mut self.owned,
            container,
            left,
            into,
        );
    }
}
