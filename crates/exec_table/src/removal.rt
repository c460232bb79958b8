// The execs of one container taken out, one after the other.
ghost use Rattle.std.specs.Prelude.{◌≡◌, ◌==◌, ◌+◌, ◌<◌, ◌≤◌, ◌++◌, not, filter, length, vec_len, vec_capacity};
ghost use Rattle.std.specs.List.Sorted.{IsStrictlySortedBy};
ghost use Rattle.exec_table.specs.ExecsInside.{by_row, execs_in, outputs_in, owned_in, IsIndex};

use super::row::{Owned, Row};
use super::{ids, owned, rows};
use container_table::Rows;
use engine_text::OwnedLog;

// The first exec of the container is gone, and its output goes over into the list.
fn move_first(
    rows: &mut Rows<Row>,
    ids: &mut Rows<u64>,
    owned: &mut Rows<Owned>,
    container: u64,
    into: &mut Vec<OwnedLog>,
)
    requires order { IsStrictlySortedBy by_row rows.old.items }
    requires ids { IsIndex (execs_in rows.old.items) ids.old.items }
    requires owned { owned.old.items ≡ owned_in (execs_in rows.old.items) }
    requires some { 0 < length (filter (λ r. r.exec.container == container) rows.old.items) }
    requires room { vec_len into.old < vec_capacity into.old }
    ensures order { IsStrictlySortedBy by_row rows.new.items }
    ensures ids { IsIndex (execs_in rows.new.items) ids.new.items }
    ensures owned { owned.new.items ≡ owned_in (execs_in rows.new.items) }
    ensures stay { filter (λ r. not (r.exec.container == container)) rows.new.items
        ≡ filter (λ r. not (r.exec.container == container)) rows.old.items }
    ensures go { into.new.items
        ++ outputs_in (filter (λ r. r.exec.container == container) rows.new.items)
        ≡ into.old.items
        ++ outputs_in (filter (λ r. r.exec.container == container) rows.old.items) }
    ensures left { length (filter (λ r. r.exec.container == container) rows.new.items) + 1
        ≡ length (filter (λ r. r.exec.container == container) rows.old.items) }
    ensures more { vec_len into.new ≡ vec_len into.old + 1 }
    ensures rows_places { rows.new.places ≡ rows.old.places }
    ensures ids_places { ids.new.places ≡ ids.old.places }
    ensures owned_places { owned.new.places ≡ owned.old.places }
    ensures capacity { vec_capacity into.new ≡ vec_capacity into.old }
{
    let place = owned::start_of(owned, container);
    let first = owned.remove(place);
    ids::unfile(ids, rows, first.number);
    rows::move_out(rows, first.number, into);
}

/// The execs of the container, which are so many, are gone, and their outputs go over into the list.
pub fn move_all(
    rows: &mut Rows<Row>,
    ids: &mut Rows<u64>,
    owned: &mut Rows<Owned>,
    container: u64,
    count: usize,
    into: &mut Vec<OwnedLog>,
)
    requires order { IsStrictlySortedBy by_row rows.old.items }
    requires ids { IsIndex (execs_in rows.old.items) ids.old.items }
    requires owned { owned.old.items ≡ owned_in (execs_in rows.old.items) }
    requires count { count ≡ length (filter (λ r. r.exec.container == container) rows.old.items) }
    requires room { count + vec_len into.old ≤ vec_capacity into.old }
    ensures order { IsStrictlySortedBy by_row rows.new.items }
    ensures ids { IsIndex (execs_in rows.new.items) ids.new.items }
    ensures owned { owned.new.items ≡ owned_in (execs_in rows.new.items) }
    ensures rows { rows.new.items
        ≡ filter (λ r. not (r.exec.container == container)) rows.old.items }
    ensures into { into.new.items ≡ into.old.items
        ++ outputs_in (filter (λ r. r.exec.container == container) rows.old.items) }
    ensures rows_places { rows.new.places ≡ rows.old.places }
    ensures ids_places { ids.new.places ≡ ids.old.places }
    ensures owned_places { owned.new.places ≡ owned.old.places }
{
    let mut left = count;
    while left > 0 {
        move_first(rows, ids, owned, container, into);
        left -= 1;
    }
}
