// Items in rows of one length: a change moves what stands behind in its row, and one of each row behind.
ghost use Rattle.std.specs.Prelude.{◌≡◌, ◌+◌, ◌*◌, ◌^◌, ◌<◌, ◌≤◌, [], ◌∷◌, ◌++◌, length, MatchOption, OnOk, slice_get, slice_index_or, vec_len};
ghost use Rattle.std.specs.List.{insert, remove};
ghost use Rattle.std.specs.Borrow.{Lends, sem};
ghost use Rattle.container_table.specs.Rows.{joined, AreRows, with_item_at};

use engine_text::NoMemory;
use std::alloc::Global;
use std::collections::VecDeque;
use std::marker::Model;

// How many items a row holds.
const ROW: usize = 2_048;

/// Items in rows, which are full but for the last one that isn't empty.
#[derive(Drop)]
pub struct Rows<T> {
    rows: Vec<VecDeque<T>>,
    len: usize,
}

impl<T> Model for Rows<T> {
    ghost use Rattle.container_table.specs.Rows.{Listed};

    ghost Value = { Listed T };

    ghost use Rattle.container_table.specs.RowsInside.{listed_of, IsFilled};

    ghost view = { listed_of };

    ghost invariant = { IsFilled };
}

// Puts an item at that place; where its row is full, the last one there goes to the front of the next row.
fn put<T: Copy>(rows: &mut [VecDeque<T>], i: usize, item: T)
    requires rows { AreRows rows.old }
    requires place { i ≤ length (joined rows.old) }
    requires room { length (joined rows.old) < 2048 * length rows.old }
    ensures rows { AreRows rows.new }
    ensures items { joined rows.new ≡ insert (joined rows.old) i item }
{
    let Some((row, rest)) = rows.split_first_mut() else {
        return;
    };
    if ROW <= i {
        put(rest, i - ROW, item);
        return;
    }
    if row.len() < ROW {
        let _ = row.insert(i, item);
        return;
    }
    if let Some(last) = row.pop_back() {
        let _ = row.insert(i, item);
        put(rest, 0, last);
    }
}

// Takes the first item out; that of each row behind goes to the end of the row before.
fn take_first<T>(rows: &mut [VecDeque<T>]) -> Option<T>
    requires { AreRows rows.old }
    ensures rows { AreRows rows.new }
    ensures items { MatchOption result ((joined rows.old ≡ []) × (joined rows.new ≡ []))
        (λ x. joined rows.old ≡ x ∷ joined rows.new) }
{
    let (row, rest) = rows.split_first_mut()?;
    let first = row.pop_front()?;
    if let Some(next) = take_first(rest) {
        row.push_back_reserved(next);
    }
    Some(first)
}

// Takes the item at that place out; the first of each row behind goes to the end of the row before.
fn take_out<T>(rows: &mut [VecDeque<T>], i: usize) -> Option<T>
    requires rows { AreRows rows.old }
    requires place { i < length (joined rows.old) }
    ensures value { result ≡ slice_get (joined rows.old) i }
    ensures rows { AreRows rows.new }
    ensures items { joined rows.new ≡ remove (joined rows.old) i }
{
    let (row, rest) = rows.split_first_mut()?;
    if ROW <= i {
        return take_out(rest, i - ROW);
    }
    let item = row.remove(i)?;
    if let Some(next) = take_first(rest) {
        row.push_back_reserved(next);
    }
    Some(item)
}

// Makes empty rows, up to so many.
fn add_rows<T>(rows: &mut Vec<VecDeque<T>>, alloc: Global, count: usize) -> Result<(), NoMemory>
    requires rows { AreRows rows.old.items }
    requires few { vec_len rows.old < 2 ^ 53 }
    requires count { count < 2 ^ 53 }
    ensures rows { AreRows rows.new.items }
    ensures items { joined rows.new.items ≡ joined rows.old.items }
    ensures few { vec_len rows.new < 2 ^ 53 }
    ensures len { vec_len rows.old ≤ vec_len rows.new }
    ensures ok { OnOk result (count ≤ vec_len rows.new) }
{
    while rows.len() < count {
        rows.reserve(1)?;
        let row = VecDeque::with_capacity(alloc, ROW)?;
        rows.push_reserved(row);
    }
    Ok(())
}

impl<T> Rows<T> {
    ghost use Rattle.container_table.specs.contracts.rows.Rows.{the_row};

    /// No item; it takes no memory.
    pub fn new(alloc: Global) -> Rows<T>
        ensures items { result.items ≡ [] }
        ensures places { result.places ≡ 0 }
    {
        Rows {
            rows: Vec::new(alloc),
            len: 0,
        }
    }

    /// How many they are.
    pub fn len(&self) -> usize
        ensures { result ≡ length self.now.items }
    {
        self.len
    }

    /// The item at that place.
    pub fn at(&self, i: usize) -> &T
        requires { i < length self.now.items }
        ensures { result.now ≡ slice_index_or self.now.items i result.now }
    {
        &self.rows[i / ROW][i % ROW]
    }

    /// The item at that place, to be changed.
    pub fn at_mut(&mut self, i: usize) -> &mut T
        requires { i < length self.old.items }
        ensures* lends { sem 𝓛
            (Lends (the_row T.row) T.row self.entry result (with_item_at self.old i)) }
        ensures value { result.now ≡ slice_index_or self.old.items i result.now }
    {
        let row = &mut self.rows[i / ROW];
        &mut row[i % ROW]
    }

    /// Makes room for n items more.
    pub fn reserve(&mut self, alloc: Global, n: usize) -> Result<(), NoMemory>
        ensures items { self.new.items ≡ self.old.items }
        ensures places { self.old.places ≤ self.new.places }
        ensures ok { OnOk result (length self.new.items + n ≤ self.new.places) }
    {
        let wanted = self.len.saturating_add(n);
        if wanted > usize::MAX / 2 {
            return Err(NoMemory);
        }
        add_rows(&mut self.rows, alloc, wanted / ROW + 1)
    }

    /// Adds an item at the end; it takes no memory.
    pub fn push(&mut self, item: T)
        requires { length self.old.items < self.old.places }
        ensures items { self.new.items ≡ self.old.items ++ item ∷ [] }
        ensures places { self.new.places ≡ self.old.places }
    {
        self.rows[self.len / ROW].push_back_reserved(item);
        self.len += 1;
    }

    /// Takes the item at that place out.
    pub fn remove(&mut self, i: usize) -> T
        requires { i < length self.old.items }
        ensures value { result ≡ slice_index_or self.old.items i result }
        ensures items { self.new.items ≡ remove self.old.items i }
        ensures places { self.new.places ≡ self.old.places }
    {
        self.len -= 1;
        take_out(self.rows.as_mut_slice(), i).unwrap()
    }
}

impl<T: Copy> Rows<T> {
    /// Puts an item at that place; it takes no memory.
    pub fn insert(&mut self, i: usize, item: T)
        requires place { i ≤ length self.old.items }
        requires room { length self.old.items < self.old.places }
        ensures items { self.new.items ≡ insert self.old.items i item }
        ensures places { self.new.places ≡ self.old.places }
    {
        put(self.rows.as_mut_slice(), i, item);
        self.len += 1;
    }
}
