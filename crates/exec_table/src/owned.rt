// The numbers of execs in order of their containers.
ghost use Rattle.std.specs.Prelude.{◌≡◌, ◌+◌, ◌-◌, ◌<◌, ◌≤◌, List, [], ◌∷◌, ◌++◌, ◌==◌, true, false, filter, length, Some, slice_get};
ghost use Rattle.std.specs.List.{AllByRecursion, AllWithin};
ghost use Rattle.std.specs.List.Sorted.{IsNonDecreasingBy, IsPartitionPoint, IsStrictlySortedBy};
ghost use Rattle.engine_text.specs.declared.exec.Exec as execs;
ghost use Rattle.container_table.specs.Search.{Parts};
ghost use Rattle.exec_table.specs.ExecsInside.{by_row, execs_in, is_ahead, owned_in, sorted_by_owner};

use super::row::{Owned, Row};
use super::rows::place_of;
use container_table::Rows;
use engine_text::Exec;

// Whether an exec of this container stands ahead of those of the other, or with these of what comes behind.
fn is_ahead(of: u64, container: u64, with: bool) -> bool
    ensures { result ≡ is_ahead with container of }
{
    of < container || (with && of == container)
}

// How many stand ahead, which are so many at least and so many at most.
fn place_between(owned: &Rows<Owned>, container: u64, with: bool, low: usize, high: usize) -> usize
    requires rises { IsNonDecreasingBy (λ o. o.container) owned.now.items }
    requires order { low ≤ high }
    requires bound { high ≤ length owned.now.items }
    requires below { AllWithin (λ o. is_ahead with container o.container ≡ true)
        owned.now.items 0 low }
    requires above { AllWithin (λ o. is_ahead with container o.container ≡ false)
        owned.now.items high (length owned.now.items) }
    ensures bound { result ≤ length owned.now.items }
    ensures place { IsPartitionPoint (λ o. is_ahead with container o.container ≡ true)
        (λ o. is_ahead with container o.container ≡ false) owned.now.items result }
{
    if high <= low {
        return low;
    }
    let middle = low + (high - low) / 2;
    if is_ahead(owned.at(middle).container, container, with) {
        place_between(owned, container, with, middle + 1, high)
    } else {
        place_between(owned, container, with, low, middle)
    }
}

/// How many stand ahead of the container's execs.
pub fn start_of(owned: &Rows<Owned>, container: u64) -> usize
    requires { IsNonDecreasingBy (λ o. o.container) owned.now.items }
    ensures bound { result ≤ length owned.now.items }
    ensures place { Parts (λ o. is_ahead false container o.container ≡ true)
        (λ o. is_ahead false container o.container ≡ false) owned.now.items result }
{
    place_between(owned, container, false, 0, owned.len())
}

/// How many stand ahead of what comes behind the container's execs.
pub fn end_of(owned: &Rows<Owned>, container: u64) -> usize
    requires { IsNonDecreasingBy (λ o. o.container) owned.now.items }
    ensures bound { result ≤ length owned.now.items }
    ensures place { Parts (λ o. is_ahead true container o.container ≡ true)
        (λ o. is_ahead true container o.container ≡ false) owned.now.items result }
{
    place_between(owned, container, true, 0, owned.len())
}

/// How many execs are of the container.
pub fn count_of(owned: &Rows<Owned>, container: u64) -> usize
    requires { IsNonDecreasingBy (λ o. o.container) owned.now.items }
    ensures { result ≡ length (filter (λ o. o.container == container) owned.now.items) }
{
    end_of(owned, container).saturating_sub(start_of(owned, container))
}

/// Puts the number of an exec, which is above all others, in its place.
pub fn file(owned: &mut Rows<Owned>, exec: &Exec)
    requires rises { IsNonDecreasingBy (λ o. o.container) owned.old.items }
    requires room { length owned.old.items < owned.old.places }
    ensures index { (xs : List execs.Exec) → owned.old.items ≡ owned_in xs
        → AllByRecursion (λ x. x.number < exec.now.number) xs
        → owned.new.items ≡ owned_in (xs ++ exec.now ∷ []) }
    ensures places { owned.new.places ≡ owned.old.places }
{
    let place = end_of(owned, exec.container);
    let filed = Owned {
        container: exec.container,
        number: exec.number,
    };
    owned.insert(place, filed);
}

/// The exec whose number stands at that place.
pub fn exec_at<'a>(rows: &'a Rows<Row>, owned: &Rows<Owned>, place: usize) -> &'a Exec
    requires order { IsStrictlySortedBy by_row rows.now.items }
    requires index { owned.now.items ≡ owned_in (execs_in rows.now.items) }
    requires place { place < length owned.now.items }
    ensures { slice_get (sorted_by_owner (execs_in rows.now.items)) place ≡ Some result.now }
{
    let found = place_of(rows, owned.at(place).number).unwrap();
    &rows.at(found).exec
}
