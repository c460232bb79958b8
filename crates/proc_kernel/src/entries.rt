// The owners of processes in the order in which these began, and where each stands.
ghost use Rattle.std.specs.Prelude.{◌≡◌, ℕ, ◌+◌, ◌≤◌, ◌<◌, [], ◌∷◌, ◌++◌, nat_lt, true, false, length, remove, slice_index_or, position, IsTrue, OnOk};
ghost use Rattle.std.specs.List.Sorted.{IsPartitionPoint};
ghost use Rattle.proc_kernel.specs.Entries.{place_in, stands_before, is_row, AreByOwner, AreByTurn};
ghost use Rattle.engine_text.specs.Owner.{same_owner};

use engine_text::{NoMemory, Owner, same_owner};
use std::alloc::Global;
use std::marker::Model;

/// Whose a process is, and in which turn it began.
#[derive(Clone, Copy, Drop)]
pub struct Row {
    pub owner: Owner,
    pub born: u64,
}

/// The owners of processes in the order in which these began, seen as their list and as how many
/// more have a place. The rows stand twice, by turn and by owner, so that both are found by halving.
#[derive(Drop)]
pub struct Entries {
    by_turn: Vec<Row>,
    by_owner: Vec<Row>,
    turn: u64,
}

impl Model for Entries {
    ghost use Rattle.proc_kernel.specs.Entries.{EntryList};

    ghost Value = { EntryList };

    ghost use Rattle.proc_kernel.specs.EntriesInside.{entries_inside, AreSoundEntries};

    ghost view = { entries_inside };

    ghost invariant = { AreSoundEntries };
}

/// Whether a row comes before another.
fn stands_before(a: Row, b: Row) -> bool
    ensures { result ≡ stands_before a b }
{
    match (a.owner, b.owner) {
        (Owner::Container(m), Owner::Container(n)) => m < n || (m == n && a.born < b.born),
        (Owner::Exec(m), Owner::Exec(n)) => m < n || (m == n && a.born < b.born),
        (Owner::Container(m), Owner::Exec(n)) => m <= n,
        (Owner::Exec(m), Owner::Container(n)) => m < n,
    }
}

/// The turn after that one; the last stays.
fn next_turn(turn: u64) -> u64
    ensures { turn ≤ result }
{
    turn.saturating_add(1)
}

/// How many rows come before that one.
fn rows_before(rows: &[Row], row: Row) -> usize
    requires { AreByOwner rows.now }
    ensures within { result ≤ length rows.now }
    ensures point { IsPartitionPoint (λ r. stands_before r row ≡ true)
        (λ r. stands_before r row ≡ false) rows.now result }
{
    rows.partition_point(|r| stands_before(*r, row))
}

/// How many rows are of an earlier turn.
fn rows_born_before(rows: &[Row], turn: u64) -> usize
    requires { AreByTurn rows.now }
    ensures within { result ≤ length rows.now }
    ensures point { IsPartitionPoint (λ r. nat_lt r.born turn ≡ true)
        (λ r. nat_lt r.born turn ≡ false) rows.now result }
{
    rows.partition_point(|r| r.born < turn)
}

/// Whether that row stands at that place.
fn has_row(rows: &[Row], at: usize, row: Row) -> bool
    ensures { IsTrue result
        → (at < length rows.now) × (is_row row (slice_index_or rows.now at row) ≡ true) }
{
    match rows.get(at) {
        None => false,
        Some(r) => same_owner(r.owner, row.owner) && r.born == row.born,
    }
}

/// Where the first row of that owner stands, which is not before `from`.
fn place_from(rows: &[Row], from: usize, owner: Owner) -> Option<usize>
    requires from { from ≤ length rows.now }
    requires none { (k : ℕ) (d : Row) → k < from
        → same_owner (slice_index_or rows.now k d).owner owner ≡ false }
    ensures { result ≡ position (λ r. same_owner r.owner owner) rows.now }
{
    for i in from..rows.len() {
        if same_owner(rows[i].owner, owner) {
            return Some(i);
        }
    }
    None
}

impl Entries {
    /// No owner; it takes no memory.
    pub fn new(alloc: Global) -> Entries
        ensures owners { result.owners ≡ [] }
        ensures room { result.room ≡ 0 }
    {
        Entries {
            by_turn: Vec::new(alloc),
            by_owner: Vec::new(alloc),
            turn: 0,
        }
    }

    /// Makes places for so many more.
    pub fn reserve(&mut self, count: usize) -> Result<(), NoMemory>
        ensures owners { self.new.owners ≡ self.old.owners }
        ensures room { self.old.room ≤ self.new.room }
        ensures ok { OnOk result (count ≤ self.new.room) }
    {
        self.by_turn.reserve(count)?;
        self.by_owner.reserve(count)?;
        Ok(())
    }

    /// Where the first process of that owner stands, found by halving.
    pub fn place_of(&self, owner: Owner) -> Option<usize>
        ensures { result ≡ place_in owner self.now.owners }
    {
        let rows = self.by_owner.as_slice();
        let entries = self.by_turn.as_slice();
        let at = rows_before(rows, Row { owner, born: 0 });
        let row = *rows.get(at)?;
        if !same_owner(row.owner, owner) {
            return None;
        }
        let from = rows_born_before(entries, row.born);
        place_from(entries, from, owner)
    }

    /// An owner takes the last place; it takes no memory.
    pub fn push_reserved(&mut self, owner: Owner)
        requires { 0 < self.old.room }
        ensures owners { self.new.owners ≡ self.old.owners ++ owner ∷ [] }
        ensures room { self.new.room + 1 ≡ self.old.room }
    {
        let row = Row {
            owner,
            born: self.turn,
        };
        let at = rows_before(self.by_owner.as_slice(), row);
        let _ = self.by_owner.insert(at, row);
        self.by_turn.push_reserved(row);
        self.turn = next_turn(self.turn);
    }

    /// The owner at that place gives it up.
    pub fn remove(&mut self, place: usize)
        requires { place < length self.old.owners }
        ensures owners { self.new.owners ≡ remove self.old.owners place }
        ensures room { self.old.room ≤ self.new.room }
    {
        let row = self.by_turn.remove(place);
        let rows = self.by_owner.as_slice();
        let at = rows_before(rows, row);
        if has_row(rows, at, row) {
            self.by_owner.remove(at);
        }
    }
}
