// The numbers of execs in order of their ids.
ghost use Rattle.std.specs.Prelude.{◌≡◌, ◌==◌, ◌+◌, ◌-◌, ◌<◌, ◌≤◌, [], ◌∷◌, ◌++◌, length};
ghost use Rattle.std.specs.List.{AllWithin};
ghost use Rattle.std.specs.List.Sorted.{IsSearchInRange, IsStrictlySortedBy, IsNonDecreasingBy, IsBinarySearchResult};
ghost use Rattle.std.specs.Ordering.{ordering_index};
ghost use Rattle.engine_text.specs.Lists.{remove_first};
ghost use Rattle.exec_table.specs.Execs.{exec_numbered};
ghost use Rattle.exec_table.specs.ExecsInside.{by_row, execs_in, found_id, id_order, IsFresh, IsIndex};

use super::row::Row;
use super::rows::place_of;
use container_table::Rows;
use engine_text::Exec;
use std::cmp::Ordering;

// The id of the exec with that number.
fn id_of(rows: &Rows<Row>, number: u64) -> &str
    requires { IsStrictlySortedBy by_row rows.now.items }
    ensures { result.now ≡ found_id (exec_numbered number (execs_in rows.now.items)) }
{
    match place_of(rows, number) {
        None => "",
        Some(i) => rows.at(i).exec.id.as_str(),
    }
}

// How the id of the exec with that number compares to an id.
fn compare(rows: &Rows<Row>, number: u64, id: &str) -> Ordering
    requires { IsStrictlySortedBy by_row rows.now.items }
    ensures { result ≡ id_order (execs_in rows.now.items) id.now number }
{
    id_of(rows, number).cmp(&id)
}

// Where the number of the exec with that id stands between these two places, or would stand.
fn locate_between(
    ids: &Rows<u64>,
    rows: &Rows<Row>,
    id: &str,
    low: usize,
    high: usize,
) -> Result<usize, usize>
    requires sorted { IsStrictlySortedBy by_row rows.now.items }
    requires rises { IsNonDecreasingBy
        (λ n. ordering_index (id_order (execs_in rows.now.items) id.now n)) ids.now.items }
    requires order { low ≤ high }
    requires bound { high ≤ length ids.now.items }
    requires below { AllWithin (λ n. id_order (execs_in rows.now.items) id.now n ≡ Ordering.Less)
        ids.now.items 0 low }
    requires above { AllWithin
        (λ n. id_order (execs_in rows.now.items) id.now n ≡ Ordering.Greater)
        ids.now.items high (length ids.now.items) }
    ensures bound { IsSearchInRange result (length ids.now.items) }
    ensures place { IsBinarySearchResult (id_order (execs_in rows.now.items) id.now)
        ids.now.items result }
{
    if high <= low {
        return Err(low);
    }
    let middle = low + (high - low) / 2;
    match compare(rows, *ids.at(middle), id) {
        Ordering::Less => locate_between(ids, rows, id, middle + 1, high),
        Ordering::Equal => Ok(middle),
        Ordering::Greater => locate_between(ids, rows, id, low, middle),
    }
}

/// Where the number of the exec with that id stands, or would stand.
pub fn locate(ids: &Rows<u64>, rows: &Rows<Row>, id: &str) -> Result<usize, usize>
    requires order { IsStrictlySortedBy by_row rows.now.items }
    requires index { IsIndex (execs_in rows.now.items) ids.now.items }
    ensures bound { IsSearchInRange result (length ids.now.items) }
    ensures place { IsBinarySearchResult (id_order (execs_in rows.now.items) id.now)
        ids.now.items result }
{
    locate_between(ids, rows, id, 0, ids.len())
}

/// Puts the number of an exec, which isn't held yet, in its place.
pub fn file(ids: &mut Rows<u64>, rows: &Rows<Row>, exec: &Exec)
    requires order { IsStrictlySortedBy by_row rows.now.items }
    requires index { IsIndex (execs_in rows.now.items) ids.old.items }
    requires fresh { IsFresh exec.now.id (execs_in rows.now.items) }
    requires room { length ids.old.items < ids.old.places }
    ensures index { IsIndex (execs_in rows.now.items ++ exec.now ∷ []) ids.new.items }
    ensures places { ids.new.places ≡ ids.old.places }
{
    if let Err(i) = locate(ids, rows, exec.id.as_str()) {
        ids.insert(i, exec.number);
    }
}

/// The number of an exec that is held still is gone. An absent one is passed over.
pub fn unfile(ids: &mut Rows<u64>, rows: &Rows<Row>, number: u64)
    requires order { IsStrictlySortedBy by_row rows.now.items }
    requires index { IsIndex (execs_in rows.now.items) ids.old.items }
    ensures index { IsIndex (remove_first (λ x. x.number == number) (execs_in rows.now.items))
        ids.new.items }
    ensures places { ids.new.places ≡ ids.old.places }
{
    let Some(i) = place_of(rows, number) else {
        return;
    };
    if let Ok(place) = locate(ids, rows, rows.at(i).exec.id.as_str()) {
        let _ = ids.remove(place);
    }
}
