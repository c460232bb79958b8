// Execs with their outputs, in order of number.
ghost use Rattle.std.specs.Prelude.{◌≡◌, ◌==◌, ◌+◌, ◌-◌, ◌<◌, ◌≤◌, [], ◌∷◌, ◌++◌, OnOk, OnErr, Some, position, length, map, find, vec_len, vec_capacity};
ghost use Rattle.std.specs.List.{AllWithin};
ghost use Rattle.std.specs.List.Sorted.{IsBinarySearchResult, IsNonDecreasingBy, IsSearchInRange, IsStrictlySortedBy};
ghost use Rattle.std.specs.Ordering.{nat_cmp, ordering_index};
ghost use Rattle.engine_text.specs.Lists.{remove_first, update_first};
ghost use Rattle.container_table.specs.Logs.{AreNoLess};
ghost use Rattle.exec_table.specs.Execs.{is_output_numbered, rooms_used, with_record, FitsOutput};
ghost use Rattle.exec_table.specs.ExecsInside.{by_row, execs_in, output_in, outputs_in, room_in};
ghost use Rattle.exec_table.specs.declared.row.Row as row;

use super::row::Row;
use container_table::Rows;
use engine_text::{LogRecord, NoMemory, OwnedLog, Owner};
use std::alloc::Global;
use std::cmp::Ordering;

// Where the number stands between these two places, or would stand.
fn place_between(rows: &Rows<Row>, number: u64, low: usize, high: usize) -> Result<usize, usize>
    requires rises { IsNonDecreasingBy (λ r. ordering_index (nat_cmp r.exec.number number))
        rows.now.items }
    requires order { low ≤ high }
    requires bound { high ≤ length rows.now.items }
    requires below { AllWithin (λ r. nat_cmp r.exec.number number ≡ Ordering.Less)
        rows.now.items 0 low }
    requires above { AllWithin (λ r. nat_cmp r.exec.number number ≡ Ordering.Greater)
        rows.now.items high (length rows.now.items) }
    ensures bound { IsSearchInRange result (length rows.now.items) }
    ensures place { IsBinarySearchResult (λ r. nat_cmp r.exec.number number) rows.now.items result }
{
    if high <= low {
        return Err(low);
    }
    let middle = low + (high - low) / 2;
    match rows.at(middle).exec.number.cmp(&number) {
        Ordering::Less => place_between(rows, number, middle + 1, high),
        Ordering::Equal => Ok(middle),
        Ordering::Greater => place_between(rows, number, low, middle),
    }
}

/// Where the exec with that number stands, found by halving.
pub fn place_of(rows: &Rows<Row>, number: u64) -> Option<usize>
    requires { IsStrictlySortedBy by_row rows.now.items }
    ensures { result ≡ position (λ r. r.exec.number == number) rows.now.items }
{
    place_between(rows, number, 0, rows.len()).ok()
}

/// The output of the exec with that number has one more record.
pub fn write(rows: &mut Rows<Row>, number: u64, written: LogRecord)
    requires order { IsStrictlySortedBy by_row rows.old.items }
    requires room { FitsOutput number (outputs_in rows.old.items) (map room_in rows.old.items) }
    ensures outputs { outputs_in rows.new.items
        ≡ update_first (is_output_numbered number) (with_record written)
        (outputs_in rows.old.items) }
    ensures rooms { map room_in rows.new.items
        ≡ rooms_used number (execs_in rows.old.items) (map room_in rows.old.items) }
    ensures execs { execs_in rows.new.items ≡ execs_in rows.old.items }
    ensures order { IsStrictlySortedBy by_row rows.new.items }
    ensures places { rows.new.places ≡ rows.old.places }
{
    if let Some(i) = place_of(rows, number) {
        let row = rows.at_mut(i);
        row.log.push_reserved(written);
    }
}

/// Makes room for one more record of that exec's output.
pub fn reserve_record(rows: &mut Rows<Row>, alloc: Global, number: u64) -> Result<(), NoMemory>
    requires { IsStrictlySortedBy by_row rows.old.items }
    ensures outputs { outputs_in rows.new.items ≡ outputs_in rows.old.items }
    ensures room { OnOk result
        (FitsOutput number (outputs_in rows.new.items) (map room_in rows.new.items)) }
    ensures rooms { AreNoLess (map room_in rows.old.items) (map room_in rows.new.items) }
    ensures err { OnErr result (map room_in rows.new.items ≡ map room_in rows.old.items) }
    ensures execs { execs_in rows.new.items ≡ execs_in rows.old.items }
    ensures order { IsStrictlySortedBy by_row rows.new.items }
    ensures places { rows.new.places ≡ rows.old.places }
{
    let Some(i) = place_of(rows, number) else {
        return Ok(());
    };
    let row = rows.at_mut(i);
    row.log.reserve(alloc, 1)
}

/// The exec with that number is gone, and its output goes over into the list.
pub fn move_out(rows: &mut Rows<Row>, number: u64, into: &mut Vec<OwnedLog>)
    requires order { IsStrictlySortedBy by_row rows.old.items }
    requires room { vec_len into.old < vec_capacity into.old }
    ensures rows { rows.new.items ≡ remove_first (λ r. r.exec.number == number) rows.old.items }
    ensures places { rows.new.places ≡ rows.old.places }
    ensures into { (r : row.Row) → find (λ r. r.exec.number == number) rows.old.items ≡ Some r
        → into.new.items ≡ into.old.items ++ output_in r ∷ [] }
    ensures capacity { vec_capacity into.new ≡ vec_capacity into.old }
{
    if let Some(i) = place_of(rows, number) {
        let Row { exec, log } = rows.remove(i);
        into.push_reserved(OwnedLog {
            owner: Owner::Exec(exec.number),
            log: log.close(),
        });
    }
}
