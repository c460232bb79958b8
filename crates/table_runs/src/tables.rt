// Tables of containers and of their timers, by steps.
ghost use Rattle.std.specs.Prelude.{◌≡◌, ◌<◌};

use crate::line::{as_text, number, owned};
use crate::short::Short;
use container_table::{Held, Rank, Table, blank_life};
use engine_text::{Container, OpenLog, Text, id_of};
use std::alloc::Global;

// The first word, and what follows the blank behind it.
fn word(line: &str) -> (&str, &str) {
    line.split_once(' ').unwrap_or((line, ""))
}

// The id of that number, by the seed of zeros.
fn id_text(alloc: Global, number: u64) -> Result<Text, Short> {
    Ok(Text::of(alloc, as_text(&id_of(&[0; 32], number)))?)
}

// A container with these, of which no more is told, and an empty log.
fn blank(alloc: Global, number: u64, id: Text, name: Text) -> Held {
    Held {
        container: Container {
            number,
            id,
            name,
            life: blank_life(alloc),
        },
        log: OpenLog::new(alloc),
    }
}

// A container of that number and name, with its id.
fn held(alloc: Global, number: u64, name: &str) -> Result<Held, Short> {
    let id = id_text(alloc, number)?;
    let name = Text::of(alloc, name)?;
    Ok(blank(alloc, number, id, name))
}

// Whether the container of `NUMBER NAME` was added.
fn add(table: &mut Table, alloc: Global, rest: &str) -> Result<bool, Short> {
    let (n, name) = word(rest);
    table.reserve(alloc, 1)?;
    let held = held(alloc, number(n), name)?;
    let one = &held.container;
    if !table.is_free(one.number, one.id.as_str(), one.name.as_str()) {
        return Ok(false);
    }
    if !table.has_room() {
        return Ok(false);
    }
    table.insert(held);
    Ok(true)
}

// Whether the container of `NUMBER NAME` has that name now.
fn rename(table: &mut Table, alloc: Global, rest: &str) -> Result<bool, Short> {
    let (n, name) = word(rest);
    let name = Text::of(alloc, name)?;
    if table.find_number(number(n)).is_none() {
        return Ok(false);
    }
    if table.find_name(name.as_str()).is_some() {
        return Ok(false);
    }
    table.rename(number(n), name);
    Ok(true)
}

// The rank in a field.
fn rank(field: &str) -> Rank {
    Rank::numbered(field.parse().unwrap_or(0))
}

// Whether the timer of `MOMENT RANK NUMBER` was set.
fn set(table: &mut Table, rest: &str) -> Result<bool, Short> {
    let (moment, rest) = word(rest);
    let (place, n) = word(rest);
    table.reserve_timers(1)?;
    if !table.has_timer_room() {
        return Ok(false);
    }
    table.set(number(moment), rank(place), number(n));
    Ok(true)
}

// Clears the timer of `RANK NUMBER`.
fn clear(table: &mut Table, rest: &str) -> bool {
    let (place, n) = word(rest);
    table.clear(rank(place), number(n));
    true
}

// What a change gives; a word that names none gives no.
fn change(table: &mut Table, alloc: Global, kind: &str, rest: &str) -> Result<bool, Short> {
    match kind {
        "add" => add(table, alloc, rest),
        "rename" => rename(table, alloc, rest),
        "set" => set(table, rest),
        "clear" => Ok(clear(table, rest)),
        _ => Ok(false),
    }
}

// What the step says.
fn step(table: &mut Table, alloc: Global, line: &str) -> Result<String, Short> {
    let (kind, rest) = word(line);
    match kind {
        "find" => Ok(format!(in alloc; "{:?}", table.find(rest))?),
        "least" => Ok(format!(in alloc; "{:?}", table.least())?),
        _ => owned(
            alloc,
            if change(table, alloc, kind, rest)? {
                "yes"
            } else {
                "no"
            },
        ),
    }
}

/// What the steps of a line say, with a bar between each two, of a new table.
pub fn told(alloc: Global, first: &str, rest: &str) -> Result<String, Short> {
    let mut table = Table::new(alloc);
    let mut told = step(&mut table, alloc, first)?;
    for line in rest.split('|') {
        let said = step(&mut table, alloc, line)?;
        write!(told, " | {said}")?;
    }
    Ok(told)
}
