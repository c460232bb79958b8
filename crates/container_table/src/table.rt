// Containers in order of number, with their indexes by id and by name, and their timers.
ghost use Rattle.std.specs.Prelude.{◌≡◌, ℕ, ◌<◌, ◌≤◌, ◌^◌, ◌==◌, Some, None, IsTrue, nat_lt, length, position, slice_get, option_copied, option_map};
ghost use Rattle.std.specs.List.{AllByRecursion};
ghost use Rattle.container_table.specs.Ranks.{number_of};
ghost use Rattle.container_table.specs.Reference.{container_by};
ghost use Rattle.container_table.specs.Tables.{no_holdings, numbered, with_id, named, is_free};
ghost use Rattle.container_table.specs.Timers.{timer_in, with_timer, least};
ghost use Rattle.container_table.specs.Logs.{container_in};

use super::boxes::Boxes;
use super::entries::{Entry, Key};
use super::held::Held;
use super::rank::Rank;
use super::rows::Rows;
use super::timers::Timers;
use super::{entries, lookups};
use engine_text::{DueAction, Found};
use std::alloc::Global;
use std::marker::Model;

/// Containers in order of number, found by number, id, name or the beginning of an id, and timers by
/// rank and number.
#[derive(Drop)]
pub struct Table {
    pub(super) boxes: Boxes,
    pub(super) spare: Vec<Box<Held>>,
    pub(super) ids: Rows<Entry>,
    pub(super) names: Rows<Entry>,
    pub(super) timers: Timers,
}

impl Model for Table {
    ghost use Rattle.container_table.specs.Tables.{Holdings};

    ghost Value = { Holdings };

    ghost use Rattle.container_table.specs.TableInside.{holdings_of, IsKept};

    ghost view = { holdings_of };

    ghost invariant = { IsKept };
}

impl Table {
    /// Neither containers nor timers; it takes no memory.
    pub fn new(alloc: Global) -> Table
        ensures { result ≡ no_holdings }
    {
        Table {
            boxes: Boxes {
                list: Rows::new(alloc),
                numbers: Rows::new(alloc),
            },
            spare: Vec::new(alloc),
            ids: Rows::new(alloc),
            names: Rows::new(alloc),
            timers: Timers::new(alloc),
        }
    }

    /// What the reference names: first by full id, then by name, then by a prefix of one id.
    pub fn find(&self, reference: &str) -> Found
        ensures { result ≡ container_by self.now.containers reference.now }
    {
        lookups::find_in(&self.ids, &self.names, &self.boxes, reference)
    }

    /// The container of that number.
    pub fn find_number(&self, number: u64) -> Option<&Held>
        ensures { option_map container_in (option_copied result)
            ≡ numbered number self.now.containers }
    {
        entries::numbered_in(&self.boxes, number)
    }

    /// The container of that name.
    pub fn find_name(&self, name: &str) -> Option<&Held>
        ensures { option_map container_in (option_copied result)
            ≡ named name.now self.now.containers }
    {
        lookups::named_in(&self.names, &self.boxes, name)
    }

    /// How many containers there are.
    pub fn len(&self) -> usize
        ensures value { result ≡ length self.now.containers }
        ensures few { length self.now.containers < 2 ^ 63 }
    {
        self.boxes.list.len()
    }

    /// The container at that place, in order of creation.
    pub fn at(&self, place: usize) -> &Held
        requires { place < length self.now.containers }
        ensures { slice_get self.now.containers place ≡ Some (container_in result.now) }
    {
        self.boxes.list.at(place)
    }

    /// Whether a container of that number, id and name can be added: the number is above the others,
    /// and id and name are new.
    pub fn is_free(&self, number: u64, id: &str, name: &str) -> bool
        ensures value { result ≡ is_free number id.now name.now self.now.containers }
        ensures above { IsTrue result
            → AllByRecursion (λ c. c.number < number) self.now.containers }
        ensures id { IsTrue result → with_id id.now self.now.containers ≡ None }
        ensures name { IsTrue result → named name.now self.now.containers ≡ None }
    {
        if !entries::is_above(&self.boxes, number) {
            return false;
        }
        lookups::is_new(&self.ids, &self.boxes, Key::Id, id)
            && lookups::is_new(&self.names, &self.boxes, Key::Name, name)
    }

    /// Whether there is room for one container more.
    pub fn has_room(&self) -> bool
        ensures value { result ≡ nat_lt (length self.now.containers) self.now.places }
        ensures room { IsTrue result → length self.now.containers < self.now.places }
    {
        !self.spare.is_empty()
    }

    /// Where the container of that number stands, in order of creation.
    pub fn place_of(&self, number: u64) -> Option<usize>
        ensures { result ≡ position (λ c. c.number == number) self.now.containers }
    {
        match entries::place_of(&self.boxes, number) {
            Ok(place) => Some(place),
            Err(_) => None,
        }
    }

    /// Whether there is room for one timer more.
    pub fn has_timer_room(&self) -> bool
        ensures value { result ≡ nat_lt (length self.now.timers) self.now.timer_places }
        ensures room { IsTrue result → (moment rank number : ℕ)
            → length (with_timer moment rank number self.now.timers) ≤ self.now.timer_places }
    {
        self.timers.has_room()
    }

    /// The timer of that rank and number.
    pub fn timer(&self, rank: Rank, number: u64) -> Option<DueAction>
        ensures { result ≡ timer_in (number_of rank) number self.now.timers }
    {
        self.timers.timer(rank.number(), number)
    }

    /// The least of the timers, by moment, rank and number.
    pub fn least(&self) -> Option<DueAction>
        ensures { result ≡ least self.now.timers }
    {
        self.timers.least()
    }
}
