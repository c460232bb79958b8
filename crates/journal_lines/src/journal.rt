// The journal that a daemon keeps (own: each entry has a place, and so has the end of each ticket).
ghost use Rattle.std.specs.Prelude.{◌≡◌, ◌≤◌, ◌<◌, ◌+◌, ◌^◌, [], ◌∷◌, ◌++◌, All, IfOk, OnOk, OnErr, length, slice_get, option_copied};
ghost use Rattle.journal_lines.specs.KeptJournal as spec;
ghost use Rattle.journal_lines.specs.FitsTypes.{EntryFitsTypes};

use super::places::ends_behind;
use super::reading::entries_texts;
use engine_text::{Entry, NoMemory};
use std::alloc::Global;
use std::marker::Model;

/// Entries and the due steps since the last of them, with places for more. How many steps these are,
/// and how many ends of tickets are to come, is at hand.
#[derive(Drop)]
pub struct Journal {
    items: Vec<Entry>,
    since: u64,
    ends: u64,
    steps: u64,
    greatest: u64,
}

impl Model for Journal {
    ghost use Rattle.journal_lines.specs.KeptJournal.{KeptJournal};

    ghost Value = { KeptJournal };

    ghost use Rattle.journal_lines.specs.JournalInside.{journal_inside, IsSoundJournal};

    ghost view = { journal_inside };

    ghost invariant = { IsSoundJournal };
}

impl Journal {
    /// A journal of at most that many entries, without any; it takes no memory.
    pub fn new(alloc: Global, greatest: u64) -> Result<Journal, NoMemory>
        ensures entries { IfOk result (λ j. j.entries ≡ []) }
        ensures since { IfOk result (λ j. j.since ≡ 0) }
        ensures greatest { IfOk result (λ j. j.greatest ≡ greatest) }
        ensures err { OnErr result ⊥ }
    {
        Ok(Journal {
            items: Vec::new(alloc),
            since: 0,
            ends: 0,
            steps: 0,
            greatest,
        })
    }

    // Does nothing: its clause says that an end is of an entry of its own.
    #[tactic(auto, using(crate::proofs::JournalLemmas::few_ends))]
    fn few_ends(&self)
        ensures { spec.ends_of self.now.entries < 2 ^ 63 }
    {
        let _ = self.items.len();
    }

    /// Takes the memory for so many places beside those for ends.
    pub fn make_places(&mut self, count: u64) -> Result<(), NoMemory>
        requires { count < 2 ^ 62 }
        ensures entries { self.new.entries ≡ self.old.entries }
        ensures since { self.new.since ≡ self.old.since }
        ensures greatest { self.new.greatest ≡ self.old.greatest }
        ensures room { self.old.room ≤ self.new.room }
        ensures ok { OnOk result (length self.new.entries + spec.ends_of self.new.entries
            + count ≤ self.new.room) }
    {
        self.few_ends();
        match self.items.reserve((self.ends + count) as usize) {
            Ok(()) => Ok(()),
            Err(_) => Err(NoMemory),
        }
    }

    /// Adds an entry in its place; it takes no memory.
    #[tactic(auto, using(crate::proofs::JournalLemmas::ends_grow, crate::proofs::JournalLemmas::entry_grows))]
    pub fn add(&mut self, entry: Entry)
        requires dues { entry.dues ≡ self.old.since }
        requires steps { spec.steps_in self.old < 2 ^ 57 }
        requires place { length self.old.entries + 1
            + spec.ends_behind (spec.ends_of self.old.entries) entry ≤ self.old.room }
        ensures entries { self.new.entries ≡ self.old.entries ++ entry ∷ [] }
        ensures since { self.new.since ≡ 0 }
        ensures greatest { self.new.greatest ≡ self.old.greatest }
        ensures room { self.new.room ≡ self.old.room }
        ensures steps { spec.steps_in self.new ≡ spec.steps_in self.old + 1 }
    {
        self.ends = ends_behind(self.ends, &entry);
        self.steps += 1;
        self.since = 0;
        self.items.push_reserved(entry);
    }

    /// Counts a due step; it takes no memory.
    #[tactic(auto, using(crate::proofs::JournalLemmas::due_grows, crate::proofs::JournalLemmas::since_within))]
    pub fn due(&mut self)
        requires { spec.steps_in self.old < 2 ^ 57 }
        ensures entries { self.new.entries ≡ self.old.entries }
        ensures since { self.new.since ≡ self.old.since + 1 }
        ensures greatest { self.new.greatest ≡ self.old.greatest }
        ensures room { self.new.room ≡ self.old.room }
        ensures steps { spec.steps_in self.new ≡ spec.steps_in self.old + 1 }
    {
        self.since += 1;
        self.steps += 1;
    }

    /// How many steps it stores.
    pub fn steps(&self) -> u64
        ensures { result ≡ spec.steps_in self.now }
    {
        self.steps
    }

    /// How many due steps stand behind the last entry.
    pub fn dues(&self) -> u64
        ensures { result ≡ self.now.since }
    {
        self.since
    }

    /// How many entries there are: fewer than 2^63.
    pub fn len(&self) -> u64
        ensures count { result ≡ length self.now.entries }
        ensures small { result < 2 ^ 63 }
    {
        self.items.len() as u64
    }

    /// The entry of that number, counted from 0; none exactly where there are not so many.
    pub fn entry(&self, number: u64) -> Option<&Entry>
        ensures { option_copied result ≡ slice_get self.now.entries number }
    {
        self.items.as_slice().get(number as usize)
    }

    /// Does nothing: its clause says that each end of a ticket has its place.
    pub fn places(&self)
        ensures { length self.now.entries + spec.ends_of self.now.entries ≤ self.now.room }
    {
        let _ = &self.items;
    }

    /// Does nothing: its clause says that each entry is what its types hold.
    pub fn texts(&self)
        ensures { All EntryFitsTypes self.now.entries }
    {
        entries_texts(self.items.as_slice());
    }
}
