// Boxes of containers: those that are held, in order of number, and spare ones.
ghost use Rattle.std.specs.Prelude.{◌≡◌, ◌+◌, ◌<◌, ◌≤◌, ◌^◌, [], ◌∷◌, ◌++◌, length, Some, slice_get, Ok, OnOk, OnErr, vec_len, vec_capacity};
ghost use Rattle.container_table.specs.Tables.{numbered, without, renamed};
ghost use Rattle.container_table.specs.Logs.{container_in, room_in, recorded, rooms_used, rooms_without, AreNoLess, FitsLog};
ghost use Rattle.container_table.specs.LifeChanges.{with_change, with_launch};
ghost use Rattle.engine_text.specs.declared.container.Container as container;
ghost use Rattle.container_table.specs.Lists.{at_place};
ghost use Rattle.container_table.specs.Held.{contents, numbers_of, rooms_of, IsBoxed, IsPlaced};

use super::blank::blank;
use super::held::Held;
use super::life_change;
use super::life_change::LifeChange;
use super::rows::Rows;
use engine_text::{LogRecord, NoMemory, Text};
use std::alloc::Global;
use std::mem;

/// Containers in their boxes, in order of number, and their numbers alone, which a search reads.
#[derive(Drop)]
pub struct Boxes {
    pub list: Rows<Box<Held>>,
    pub numbers: Rows<u64>,
}

/// Makes room for so many boxes more.
pub fn reserve(boxes: &mut Boxes, alloc: Global, wanted: usize) -> Result<(), NoMemory>
    ensures list { boxes.new.list.items ≡ boxes.old.list.items }
    ensures numbers { boxes.new.numbers.items ≡ boxes.old.numbers.items }
    ensures capacity { boxes.old.list.places ≤ boxes.new.list.places }
    ensures numbers_capacity { boxes.old.numbers.places ≤ boxes.new.numbers.places }
    ensures ok { OnOk result (length boxes.new.list.items + wanted ≤ boxes.new.list.places) }
    ensures numbers_ok { OnOk result
        (length boxes.new.numbers.items + wanted ≤ boxes.new.numbers.places) }
{
    boxes.list.reserve(alloc, wanted)?;
    boxes.numbers.reserve(alloc, wanted)
}

/// Makes empty boxes, up to so many.
pub fn fill(spare: &mut Vec<Box<Held>>, alloc: Global, wanted: usize) -> Result<(), NoMemory>
    requires room { wanted ≤ vec_capacity spare.old }
    requires low { vec_len spare.old ≤ wanted }
    ensures low { vec_len spare.old ≤ vec_len spare.new }
    ensures high { vec_len spare.new ≤ wanted }
    ensures capacity { vec_capacity spare.new ≡ vec_capacity spare.old }
    ensures ok { OnOk result (vec_len spare.new ≡ wanted) }
{
    for _ in spare.len()..wanted {
        match Box::new(alloc, blank(alloc)) {
            Ok(place) => spare.push_reserved(place),
            Err(_) => return Err(NoMemory),
        }
    }
    Ok(())
}

/// Puts a container into a spare box, behind the others.
pub fn put(boxes: &mut Boxes, spare: &mut Vec<Box<Held>>, held: Held)
    requires spare { 0 < vec_len spare.old }
    requires room { length boxes.old.list.items < boxes.old.list.places }
    requires numbers_room { length boxes.old.numbers.items < boxes.old.numbers.places }
    requires numbers { boxes.old.numbers.items ≡ numbers_of (contents boxes.old.list.items) }
    ensures contents { contents boxes.new.list.items
        ≡ contents boxes.old.list.items ++ container_in held ∷ [] }
    ensures rooms { rooms_of boxes.new.list.items
        ≡ rooms_of boxes.old.list.items ++ room_in held ∷ [] }
    ensures numbers { boxes.new.numbers.items ≡ numbers_of (contents boxes.new.list.items) }
    ensures len { length boxes.new.list.items ≡ length boxes.old.list.items + 1 }
    ensures numbers_len { length boxes.new.numbers.items
        ≡ length boxes.old.numbers.items + 1 }
    ensures spare { vec_len spare.new + 1 ≡ vec_len spare.old }
    ensures capacity { boxes.new.list.places ≡ boxes.old.list.places }
    ensures numbers_capacity { boxes.new.numbers.places ≡ boxes.old.numbers.places }
    ensures spare_capacity { vec_capacity spare.new ≡ vec_capacity spare.old }
{
    if let Some(mut place) = spare.pop() {
        let number = held.container.number;
        *place = held;
        boxes.list.push(place);
        boxes.numbers.push(number);
    }
}

/// Takes the container of that number, which stands at i, out of its box, which is spare then.
pub fn take(boxes: &mut Boxes, spare: &mut Vec<Box<Held>>, i: usize, number: u64) -> Held
    requires boxed { IsBoxed boxes.old }
    requires len { length boxes.old.numbers.items ≡ length boxes.old.list.items }
    requires bound { i < length boxes.old.list.items }
    requires place { IsPlaced (contents boxes.old.list.items) number (Ok i) }
    requires room { vec_len spare.old < vec_capacity spare.old }
    ensures value { numbered number (contents boxes.old.list.items) ≡ Some (container_in result) }
    ensures contents { contents boxes.new.list.items
        ≡ without number (contents boxes.old.list.items) }
    ensures rooms { rooms_of boxes.new.list.items
        ≡ rooms_without number (contents boxes.old.list.items) (rooms_of boxes.old.list.items) }
    ensures numbers { boxes.new.numbers.items ≡ numbers_of (contents boxes.new.list.items) }
    ensures len { length boxes.new.list.items + 1 ≡ length boxes.old.list.items }
    ensures numbers_len { length boxes.new.numbers.items + 1
        ≡ length boxes.old.numbers.items }
    ensures spare { vec_len spare.new ≡ vec_len spare.old + 1 }
    ensures capacity { boxes.new.list.places ≡ boxes.old.list.places }
    ensures numbers_capacity { boxes.new.numbers.places ≡ boxes.old.numbers.places }
    ensures spare_capacity { vec_capacity spare.new ≡ vec_capacity spare.old }
{
    let empty = blank(*spare.allocator());
    let mut place = boxes.list.remove(i);
    boxes.numbers.remove(i);
    let gone = mem::replace(&mut *place, empty);
    spare.push_reserved(place);
    gone
}

/// Gives the container of that number, which stands at i, another name.
pub fn rename(boxes: &mut Boxes, i: usize, number: u64, name: Text)
    requires boxed { IsBoxed boxes.old }
    requires bound { i < length boxes.old.list.items }
    requires place { IsPlaced (contents boxes.old.list.items) number (Ok i) }
    ensures contents { contents boxes.new.list.items
        ≡ renamed number name (contents boxes.old.list.items) }
    ensures rooms { rooms_of boxes.new.list.items ≡ rooms_of boxes.old.list.items }
    ensures numbers { boxes.new.numbers ≡ boxes.old.numbers }
    ensures len { length boxes.new.list.items ≡ length boxes.old.list.items }
    ensures capacity { boxes.new.list.places ≡ boxes.old.list.places }
{
    let held = boxes.list.at_mut(i);
    held.container.name = name;
}

/// Changes the life of the container that stands at i; its log stays.
pub fn change(boxes: &mut Boxes, i: usize, change: LifeChange)
    requires { i < length boxes.old.list.items }
    ensures contents { contents boxes.new.list.items
        ≡ at_place (with_change change) i (contents boxes.old.list.items) }
    ensures rooms { rooms_of boxes.new.list.items ≡ rooms_of boxes.old.list.items }
    ensures numbers { boxes.new.numbers ≡ boxes.old.numbers }
    ensures len { length boxes.new.list.items ≡ length boxes.old.list.items }
    ensures capacity { boxes.new.list.places ≡ boxes.old.list.places }
{
    let held = boxes.list.at_mut(i);
    life_change::change(&mut held.container.life, change);
}

/// The life of the container that stands at i begins anew; its log stays.
pub fn launch(boxes: &mut Boxes, i: usize, pid: u64, moment: u64)
    requires bound { i < length boxes.old.list.items }
    requires few { (c : container.Container) → slice_get (contents boxes.old.list.items) i ≡ Some c
        → c.life.starts < 2 ^ 63 }
    ensures contents { contents boxes.new.list.items
        ≡ at_place (with_launch pid moment) i (contents boxes.old.list.items) }
    ensures rooms { rooms_of boxes.new.list.items ≡ rooms_of boxes.old.list.items }
    ensures numbers { boxes.new.numbers ≡ boxes.old.numbers }
    ensures len { length boxes.new.list.items ≡ length boxes.old.list.items }
    ensures capacity { boxes.new.list.places ≡ boxes.old.list.places }
{
    let held = boxes.list.at_mut(i);
    life_change::launch(&mut held.container.life, pid, moment);
}

/// Makes room for one record more in the log of the container of that number, which stands at i.
pub fn reserve_record(
    boxes: &mut Boxes,
    alloc: Global,
    i: usize,
    number: u64,
) -> Result<(), NoMemory>
    requires boxed { IsBoxed boxes.old }
    requires bound { i < length boxes.old.list.items }
    requires place { IsPlaced (contents boxes.old.list.items) number (Ok i) }
    ensures contents { contents boxes.new.list.items ≡ contents boxes.old.list.items }
    ensures ok { OnOk result
        (FitsLog number (contents boxes.new.list.items) (rooms_of boxes.new.list.items)) }
    ensures rooms { AreNoLess (rooms_of boxes.old.list.items) (rooms_of boxes.new.list.items) }
    ensures err { OnErr result (rooms_of boxes.new.list.items ≡ rooms_of boxes.old.list.items) }
    ensures numbers { boxes.new.numbers ≡ boxes.old.numbers }
    ensures len { length boxes.new.list.items ≡ length boxes.old.list.items }
    ensures capacity { boxes.new.list.places ≡ boxes.old.list.places }
{
    let held = boxes.list.at_mut(i);
    held.log.reserve(alloc, 1)
}

/// Adds a record to the log of the container of that number, which stands at i.
pub fn push_record(boxes: &mut Boxes, i: usize, number: u64, item: LogRecord)
    requires boxed { IsBoxed boxes.old }
    requires bound { i < length boxes.old.list.items }
    requires place { IsPlaced (contents boxes.old.list.items) number (Ok i) }
    requires room { FitsLog number (contents boxes.old.list.items) (rooms_of boxes.old.list.items) }
    ensures contents { contents boxes.new.list.items
        ≡ recorded number item (contents boxes.old.list.items) }
    ensures rooms { rooms_of boxes.new.list.items
        ≡ rooms_used number (contents boxes.old.list.items) (rooms_of boxes.old.list.items) }
    ensures numbers { boxes.new.numbers ≡ boxes.old.numbers }
    ensures len { length boxes.new.list.items ≡ length boxes.old.list.items }
    ensures capacity { boxes.new.list.places ≡ boxes.old.list.places }
{
    let held = boxes.list.at_mut(i);
    held.log.push_reserved(item);
}
