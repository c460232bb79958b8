// The sorted indexes of containers: numbers by id or by name.
ghost use Rattle.std.specs.Prelude.{◌≡◌, ◌+◌, ◌-◌, ◌<◌, ◌≤◌, [], ◌∷◌, ◌++◌, length, take, drop, Some, Ok, IsTrue, nat_lt, option_copied, option_map, slice_index};
ghost use Rattle.container_table.specs.Order.{IsInOrder};
ghost use Rattle.std.specs.List.{AllByRecursion, AllWithin};
ghost use Rattle.std.specs.List.Sorted.{IsBinarySearchResult, IsNonDecreasingBy, IsSearchInRange};
ghost use Rattle.std.specs.Ordering.{nat_cmp, ordering_index};
ghost use Rattle.container_table.specs.Tables.{numbered, is_above, without, renamed};
ghost use Rattle.container_table.specs.declared.entries.Key.TheVariants as keys;
ghost use Rattle.container_table.specs.Logs.{container_in};
ghost use Rattle.container_table.specs.Starts.{front};
ghost use Rattle.container_table.specs.Held.{contents, key_text, entry_of, entry_order, found_text, IsBoxed, IsIndex, IsFresh, IsLocated, IsPlaced};

use super::boxes::Boxes;
use super::held::Held;
use super::rows::Rows;
use std::cmp::Ordering;

/// The text by which an index is sorted.
#[derive(Clone, Copy)]
pub enum Key {
    Id,
    Name,
}

/// A container's place in an index: the first bytes of its text, and its number.
#[derive(Clone, Copy)]
pub struct Entry {
    pub start: [u8; 8],
    pub number: u64,
}

/// The container's text.
pub fn text_of(key: Key, held: &Held) -> &str
    ensures { result.now ≡ key_text key (container_in held.now) }
{
    match key {
        Key::Id => held.container.id.as_str(),
        Key::Name => held.container.name.as_str(),
    }
}

// The byte at i, 0 past the end.
fn byte_at(bytes: &[u8], i: usize) -> u8
    ensures { result ≡ slice_index bytes.now i }
{
    bytes.get(i).copied().unwrap_or(0)
}

/// The first bytes of a text.
pub fn start_of(text: &str) -> [u8; 8]
    ensures { result ≡ front 8 text.now }
{
    let b = text.as_bytes();
    [
        byte_at(b, 0),
        byte_at(b, 1),
        byte_at(b, 2),
        byte_at(b, 3),
        byte_at(b, 4),
        byte_at(b, 5),
        byte_at(b, 6),
        byte_at(b, 7),
    ]
}

// So many of rising numbers at least are below the number: as many as it is too low for at their end.
fn least_place(numbers: &Rows<u64>, number: u64) -> usize
    requires { IsInOrder nat_lt numbers.now.items }
    ensures bound { result ≤ length numbers.now.items }
    ensures below { AllByRecursion (λ m. m < number) (take result numbers.now.items) }
{
    let count = numbers.len();
    if count == 0 {
        return 0;
    }
    let last = *numbers.at(count - 1);
    if last < number {
        return count;
    }
    (count - 1).saturating_sub((last - number) as usize)
}

// The number stands at this place of rising numbers at most: it is so far above the first of them.
fn last_place(numbers: &Rows<u64>, number: u64) -> usize
    requires { IsInOrder nat_lt numbers.now.items }
    ensures bound { result ≤ length numbers.now.items }
    ensures above { AllByRecursion (λ m. number < m) (drop result numbers.now.items) }
{
    let count = numbers.len();
    if count == 0 {
        return 0;
    }
    let first = *numbers.at(0);
    if number < first {
        return 0;
    }
    (count - 1).min((number - first) as usize) + 1
}

// Where the number stands between these two places, or would stand.
fn place_between(numbers: &Rows<u64>, low: usize, high: usize, number: u64) -> Result<usize, usize>
    requires rises { IsNonDecreasingBy (λ m. ordering_index (nat_cmp m number))
        numbers.now.items }
    requires order { low ≤ high }
    requires bound { high ≤ length numbers.now.items }
    requires below { AllWithin (λ m. nat_cmp m number ≡ Ordering.Less) numbers.now.items 0 low }
    requires above { AllWithin (λ m. nat_cmp m number ≡ Ordering.Greater) numbers.now.items
        high (length numbers.now.items) }
    ensures bound { IsSearchInRange result (length numbers.now.items) }
    ensures place { IsBinarySearchResult (λ m. nat_cmp m number) numbers.now.items result }
{
    if high <= low {
        return Err(low);
    }
    let middle = low + (high - low) / 2;
    match numbers.at(middle).cmp(&number) {
        Ordering::Less => place_between(numbers, middle + 1, high, number),
        Ordering::Equal => Ok(middle),
        Ordering::Greater => place_between(numbers, low, middle, number),
    }
}

/// Where the container of that number stands, or would stand. Numbers rise, so with few gaps
/// between them there is little to halve.
pub fn place_of(held: &Boxes, number: u64) -> Result<usize, usize>
    requires { IsBoxed held.now }
    ensures bound { IsSearchInRange result (length held.now.list.items) }
    ensures place { IsPlaced (contents held.now.list.items) number result }
{
    let low = least_place(&held.numbers, number);
    let high = last_place(&held.numbers, number);
    place_between(&held.numbers, low, high, number)
}

/// Whether the number is above those of all.
pub fn is_above(held: &Boxes, number: u64) -> bool
    requires { IsBoxed held.now }
    ensures value { result ≡ is_above number (contents held.now.list.items) }
    ensures all { IsTrue result → AllByRecursion (λ c. c.number < number)
        (contents held.now.list.items) }
{
    let count = held.list.len();
    if count == 0 {
        return true;
    }
    held.list.at(count - 1).container.number < number
}

/// The container of that number, which stands at i.
pub fn held_at(held: &Boxes, i: usize, number: u64) -> &Held
    requires boxed { IsBoxed held.now }
    requires bound { i < length held.now.list.items }
    requires place { IsPlaced (contents held.now.list.items) number (Ok i) }
    ensures found { numbered number (contents held.now.list.items)
        ≡ Some (container_in result.now) }
    ensures number { result.now.container.number ≡ number }
{
    held.list.at(i)
}

/// The container of that number.
pub fn numbered_in(held: &Boxes, number: u64) -> Option<&Held>
    requires { IsBoxed held.now }
    ensures { option_map container_in (option_copied result)
        ≡ numbered number (contents held.now.list.items) }
{
    match place_of(held, number) {
        Ok(i) => Some(held_at(held, i, number)),
        Err(_) => None,
    }
}

/// How an entry's text compares to a text with that start.
fn compare(held: &Boxes, key: Key, entry: &Entry, start: &[u8; 8], text: &str) -> Ordering
    requires boxed { IsBoxed held.now }
    requires start { start.now ≡ front 8 text.now }
    ensures { result ≡ entry_order key (contents held.now.list.items) text.now entry.now }
{
    match entry.start.cmp(start) {
        Ordering::Equal => text_at(held, key, entry.number).cmp(&text),
        other => other,
    }
}

/// The text of the container of that number.
pub fn text_at(held: &Boxes, key: Key, number: u64) -> &str
    requires { IsBoxed held.now }
    ensures { result.now ≡ found_text key (numbered number (contents held.now.list.items)) }
{
    match numbered_in(held, number) {
        Some(one) => text_of(key, one),
        None => "",
    }
}

// Where the entry of that text, whose start this is, stands between these two places, or would stand.
fn locate_between(
    entries: &Rows<Entry>,
    held: &Boxes,
    key: Key,
    start: &[u8; 8],
    text: &str,
    low: usize,
    high: usize,
) -> Result<usize, usize>
    requires boxed { IsBoxed held.now }
    requires start { start.now ≡ front 8 text.now }
    requires rises { IsNonDecreasingBy
        (λ e. ordering_index (entry_order key (contents held.now.list.items) text.now e))
        entries.now.items }
    requires order { low ≤ high }
    requires bound { high ≤ length entries.now.items }
    requires below { AllWithin (λ e. entry_order key (contents held.now.list.items) text.now e
        ≡ Ordering.Less) entries.now.items 0 low }
    requires above { AllWithin (λ e. entry_order key (contents held.now.list.items) text.now e
        ≡ Ordering.Greater) entries.now.items high (length entries.now.items) }
    ensures bound { IsSearchInRange result (length entries.now.items) }
    ensures place { IsBinarySearchResult (entry_order key (contents held.now.list.items) text.now)
        entries.now.items result }
{
    if high <= low {
        return Err(low);
    }
    let middle = low + (high - low) / 2;
    match compare(held, key, entries.at(middle), start, text) {
        Ordering::Less => locate_between(entries, held, key, start, text, middle + 1, high),
        Ordering::Equal => Ok(middle),
        Ordering::Greater => locate_between(entries, held, key, start, text, low, middle),
    }
}

/// Where the entry of that text stands, or would stand.
pub fn locate(entries: &Rows<Entry>, held: &Boxes, key: Key, text: &str) -> Result<usize, usize>
    requires boxed { IsBoxed held.now }
    requires index { IsIndex key (contents held.now.list.items) entries.now.items }
    ensures bound { IsSearchInRange result (length entries.now.items) }
    ensures place { IsLocated key (contents held.now.list.items) text.now result }
{
    let start = start_of(text);
    locate_between(entries, held, key, &start, text, 0, entries.len())
}

// What stands in the index for a container.
fn entry_of(key: Key, one: &Held) -> Entry
    ensures { result ≡ entry_of key (container_in one.now) }
{
    Entry {
        start: start_of(text_of(key, one)),
        number: one.container.number,
    }
}

/// Puts a container, which isn't held yet, into the index.
pub fn file(entries: &mut Rows<Entry>, held: &Boxes, key: Key, one: &Held)
    requires boxed { IsBoxed held.now }
    requires index { IsIndex key (contents held.now.list.items) entries.old.items }
    requires fresh { IsFresh key (key_text key (container_in one.now))
        (contents held.now.list.items) }
    requires room { length entries.old.items < entries.old.places }
    ensures index { IsIndex key (contents held.now.list.items ++ container_in one.now ∷ [])
        entries.new.items }
    ensures len { length entries.new.items ≡ length entries.old.items + 1 }
    ensures places { entries.new.places ≡ entries.old.places }
{
    if let Err(i) = locate(entries, held, key, text_of(key, one)) {
        entries.insert(i, entry_of(key, one));
    }
}

/// Takes a container, which is held still, out of the index.
pub fn unfile(entries: &mut Rows<Entry>, held: &Boxes, key: Key, one: &Held, number: u64)
    requires boxed { IsBoxed held.now }
    requires index { IsIndex key (contents held.now.list.items) entries.old.items }
    requires held { numbered number (contents held.now.list.items) ≡ Some (container_in one.now) }
    ensures index { IsIndex key (without number (contents held.now.list.items)) entries.new.items }
    ensures len { length entries.new.items + 1 ≡ length entries.old.items }
    ensures places { entries.new.places ≡ entries.old.places }
{
    if let Ok(i) = locate(entries, held, key, text_of(key, one)) {
        entries.remove(i);
    }
}

/// Puts a container, which is held still under its old name, at the place of a new one.
pub fn refile(entries: &mut Rows<Entry>, held: &Boxes, one: &Held, name: &str)
    requires boxed { IsBoxed held.now }
    requires index { IsIndex keys.Name (contents held.now.list.items) entries.old.items }
    requires held { numbered one.now.container.number (contents held.now.list.items)
        ≡ Some (container_in one.now) }
    requires fresh { IsFresh keys.Name name.now (contents held.now.list.items) }
    requires room { length entries.old.items ≤ entries.old.places }
    ensures index { IsIndex keys.Name
        (renamed one.now.container.number name.now (contents held.now.list.items))
        entries.new.items }
    ensures len { length entries.new.items ≡ length entries.old.items }
    ensures places { entries.new.places ≡ entries.old.places }
{
    let Ok(i) = locate(entries, held, Key::Name, one.container.name.as_str()) else {
        return;
    };
    let Err(j) = locate(entries, held, Key::Name, name) else {
        return;
    };
    entries.remove(i);
    let entry = Entry {
        start: start_of(name),
        number: one.container.number,
    };
    entries.insert(place_behind(i, j), entry);
}

// Where j stands once the item at i is gone.
fn place_behind(i: usize, j: usize) -> usize
    ensures above { i < j → result + 1 ≡ j }
    ensures below { j ≤ i → result ≡ j }
{
    if i < j { j - 1 } else { j }
}
