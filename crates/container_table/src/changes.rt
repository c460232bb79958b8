// What changes a table.
ghost use Rattle.std.specs.Prelude.{◌≡◌, ◌+◌, ◌≤◌, ◌<◌, ◌^◌, [], ◌∷◌, ◌++◌, Some, None, slice_get, OnOk, OnErr, length, option_map};
ghost use Rattle.std.specs.List.{AllByRecursion};
ghost use Rattle.container_table.specs.LifeChanges.{with_change, with_launch};
ghost use Rattle.engine_text.specs.declared.container.Container as container;
ghost use Rattle.container_table.specs.Lists.{at_place};
ghost use Rattle.container_table.specs.Ranks.{number_of};
ghost use Rattle.container_table.specs.Tables.{numbered, with_id, named, without, renamed};
ghost use Rattle.container_table.specs.Timers.{cleared, with_timer};
ghost use Rattle.container_table.specs.Logs.{container_in, room_in, recorded, rooms_used, rooms_without, AreNoLess, FitsLog};

use super::entries::Key;
use super::held::Held;
use super::life_change::LifeChange;
use super::rank::Rank;
use super::table::Table;
use super::{boxes, entries};
use engine_text::{LogRecord, NoMemory, Text};
use std::alloc::Global;

impl Table {
    /// Makes room for n containers and n timers more.
    pub fn reserve(&mut self, alloc: Global, n: usize) -> Result<(), NoMemory>
        ensures containers { self.new.containers ≡ self.old.containers }
        ensures logs { self.new.logs ≡ self.old.logs }
        ensures timers { self.new.timers ≡ self.old.timers }
        ensures places { self.old.places ≤ self.new.places }
        ensures timer_places { self.old.timer_places ≤ self.new.timer_places }
        ensures ok { OnOk result (length self.new.containers + n ≤ self.new.places) }
        ensures timers_ok { OnOk result (length self.new.timers + n ≤ self.new.timer_places) }
    {
        self.reserve_containers(alloc, n)?;
        self.reserve_timers(n)
    }

    /// Makes room for n containers more.
    pub fn reserve_containers(&mut self, alloc: Global, n: usize) -> Result<(), NoMemory>
        ensures containers { self.new.containers ≡ self.old.containers }
        ensures logs { self.new.logs ≡ self.old.logs }
        ensures timers { self.new.timers ≡ self.old.timers }
        ensures places { self.old.places ≤ self.new.places }
        ensures timer_places { self.new.timer_places ≡ self.old.timer_places }
        ensures ok { OnOk result (length self.new.containers + n ≤ self.new.places) }
    {
        let wanted = n.max(self.spare.len());
        let Some(places) = self.boxes.list.len().checked_add(wanted) else {
            return Err(NoMemory);
        };
        self.spare.reserve(places - self.spare.len())?;
        boxes::reserve(&mut self.boxes, alloc, wanted)?;
        self.ids.reserve(alloc, wanted)?;
        self.names.reserve(alloc, wanted)?;
        boxes::fill(&mut self.spare, alloc, wanted)
    }

    /// Makes room for n timers more.
    pub fn reserve_timers(&mut self, n: usize) -> Result<(), NoMemory>
        ensures containers { self.new.containers ≡ self.old.containers }
        ensures logs { self.new.logs ≡ self.old.logs }
        ensures timers { self.new.timers ≡ self.old.timers }
        ensures places { self.new.places ≡ self.old.places }
        ensures timer_places { self.old.timer_places ≤ self.new.timer_places }
        ensures ok { OnOk result (length self.new.timers + n ≤ self.new.timer_places) }
    {
        self.timers.reserve(n)
    }

    /// Adds a container, of which number, id and name are new; it takes no memory.
    pub fn insert(&mut self, held: Held)
        requires above { AllByRecursion (λ c. c.number < held.container.number)
            self.old.containers }
        requires id { with_id held.container.id self.old.containers ≡ None }
        requires name { named held.container.name self.old.containers ≡ None }
        requires room { length self.old.containers < self.old.places }
        ensures containers { self.new.containers ≡ self.old.containers ++ container_in held ∷ [] }
        ensures logs { self.new.logs ≡ self.old.logs ++ room_in held ∷ [] }
        ensures timers { self.new.timers ≡ self.old.timers }
        ensures places { self.new.places ≡ self.old.places }
        ensures timer_places { self.new.timer_places ≡ self.old.timer_places }
    {
        entries::file(&mut self.ids, &self.boxes, Key::Id, &held);
        entries::file(&mut self.names, &self.boxes, Key::Name, &held);
        boxes::put(&mut self.boxes, &mut self.spare, held);
    }

    /// Gives a container a name, which no container has; it takes no memory.
    pub fn rename(&mut self, number: u64, name: Text)
        requires { named name self.old.containers ≡ None }
        ensures containers { self.new.containers ≡ renamed number name self.old.containers }
        ensures logs { self.new.logs ≡ self.old.logs }
        ensures timers { self.new.timers ≡ self.old.timers }
        ensures places { self.new.places ≡ self.old.places }
        ensures timer_places { self.new.timer_places ≡ self.old.timer_places }
    {
        let Ok(i) = entries::place_of(&self.boxes, number) else {
            return;
        };
        let held = entries::held_at(&self.boxes, i, number);
        entries::refile(&mut self.names, &self.boxes, held, name.as_str());
        boxes::rename(&mut self.boxes, i, number, name);
    }

    /// Changes the life of the container at that place; its log stays. It takes no memory.
    pub fn change(&mut self, place: usize, change: LifeChange)
        requires { place < length self.old.containers }
        ensures containers { self.new.containers
            ≡ at_place (with_change change) place self.old.containers }
        ensures logs { self.new.logs ≡ self.old.logs }
        ensures timers { self.new.timers ≡ self.old.timers }
        ensures places { self.new.places ≡ self.old.places }
        ensures timer_places { self.new.timer_places ≡ self.old.timer_places }
    {
        boxes::change(&mut self.boxes, place, change);
    }

    /// The life of the container at that place begins anew, with that process id and at the moment; its
    /// log stays. It takes no memory.
    pub fn launch(&mut self, place: usize, pid: u64, moment: u64)
        requires place { place < length self.old.containers }
        requires few { (c : container.Container) → slice_get self.old.containers place ≡ Some c
            → c.life.starts < 2 ^ 63 }
        ensures containers { self.new.containers
            ≡ at_place (with_launch pid moment) place self.old.containers }
        ensures logs { self.new.logs ≡ self.old.logs }
        ensures timers { self.new.timers ≡ self.old.timers }
        ensures places { self.new.places ≡ self.old.places }
        ensures timer_places { self.new.timer_places ≡ self.old.timer_places }
    {
        boxes::launch(&mut self.boxes, place, pid, moment);
    }

    /// Makes room for one record more in a container's log; room that is there stays.
    pub fn reserve_record(&mut self, number: u64) -> Result<(), NoMemory>
        ensures containers { self.new.containers ≡ self.old.containers }
        ensures ok { OnOk result (FitsLog number self.new.containers self.new.logs) }
        ensures logs { AreNoLess self.old.logs self.new.logs }
        ensures err { OnErr result (self.new.logs ≡ self.old.logs) }
        ensures timers { self.new.timers ≡ self.old.timers }
        ensures places { self.new.places ≡ self.old.places }
        ensures timer_places { self.new.timer_places ≡ self.old.timer_places }
    {
        match entries::place_of(&self.boxes, number) {
            Ok(i) => boxes::reserve_record(&mut self.boxes, *self.spare.allocator(), i, number),
            Err(_) => Ok(()),
        }
    }

    /// Adds a record to a container's log; it takes no memory.
    pub fn push_record(&mut self, number: u64, item: LogRecord)
        requires { FitsLog number self.old.containers self.old.logs }
        ensures containers { self.new.containers ≡ recorded number item self.old.containers }
        ensures logs { self.new.logs ≡ rooms_used number self.old.containers self.old.logs }
        ensures timers { self.new.timers ≡ self.old.timers }
        ensures places { self.new.places ≡ self.old.places }
        ensures timer_places { self.new.timer_places ≡ self.old.timer_places }
    {
        let Ok(i) = entries::place_of(&self.boxes, number) else {
            return;
        };
        boxes::push_record(&mut self.boxes, i, number, item);
    }

    /// Takes a container out; it takes no memory, and its place stays for another.
    pub fn remove(&mut self, number: u64) -> Option<Held>
        ensures value { option_map container_in result ≡ numbered number self.old.containers }
        ensures containers { self.new.containers ≡ without number self.old.containers }
        ensures logs { self.new.logs ≡ rooms_without number self.old.containers self.old.logs }
        ensures timers { self.new.timers ≡ self.old.timers }
        ensures places { self.new.places ≡ self.old.places }
        ensures timer_places { self.new.timer_places ≡ self.old.timer_places }
    {
        let Ok(i) = entries::place_of(&self.boxes, number) else {
            return None;
        };
        let held = entries::held_at(&self.boxes, i, number);
        entries::unfile(&mut self.ids, &self.boxes, Key::Id, held, number);
        entries::unfile(&mut self.names, &self.boxes, Key::Name, held, number);
        Some(boxes::take(&mut self.boxes, &mut self.spare, i, number))
    }

    /// There is a timer of that rank and number at the moment, in the place of an earlier one; it
    /// takes no memory.
    pub fn set(&mut self, moment: u64, rank: Rank, number: u64)
        requires { length (with_timer moment (number_of rank) number self.old.timers)
            ≤ self.old.timer_places }
        ensures { self.new ≡ record self.old {
          timers = with_timer moment (number_of rank) number self.old.timers;
        } }
    {
        self.timers.set(moment, rank.number(), number)
    }

    /// The timer of that rank and number is gone; it takes no memory.
    pub fn clear(&mut self, rank: Rank, number: u64)
        ensures { self.new
            ≡ record self.old { timers = cleared (number_of rank) number self.old.timers } }
    {
        self.timers.clear(rank.number(), number)
    }
}
