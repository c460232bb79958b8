// List: the newest that pass, newest first.
ghost use Rattle.std.specs.Prelude.{◌≡◌, [], ◌∷◌, ◌++◌, IfOk, OnOk, map, filter, reverse, take};
ghost use Rattle.std.specs.List.{list_any};
ghost use Rattle.std.specs.Option.{option_map_or};
ghost use Rattle.machine_model.specs.Views.{listed};
ghost use Rattle.machine_model.specs.Calls.List as spec;
ghost use Rattle.container_table.specs.Logs.{container_in};
ghost use Rattle.reading_calls.specs.Calls.List.{is_reached};
ghost use Rattle.call_plans.specs.Making.{Makes};

use crate::filters::passes;
use api_json::list_body;
use call_plans::{Prepared, answer};
use container_table::Held;
use engine_text::{Filter, FilterKey, Listed, NoMemory, Status};
use machine_effects::Tables;
use std::alloc::Global;

fn is_state(key: FilterKey) -> bool
    ensures { result ≡ spec.is_state key }
{
    matches!(key, FilterKey::State)
}

fn asks_for_state(rows: &Filter) -> bool
    ensures { result ≡ list_any (λ r. spec.is_state r.key) rows.now }
{
    rows.as_slice().iter().any(|row| is_state(row.key))
}

fn shows_all(all: bool, limit: Option<u32>, rows: &Filter) -> bool
    ensures { result ≡ spec.shows_all all limit rows.now }
{
    all || limit.is_some() || asks_for_state(rows)
}

fn is_up(status: Status) -> bool
    ensures { result ≡ spec.is_up status }
{
    matches!(
        status,
        Status::Running | Status::Paused | Status::Restarting
    )
}

fn is_shown(h: &Held, all: bool, rows: &Filter) -> bool
    ensures { result ≡ spec.is_shown all rows.now (container_in h.now) }
{
    (all || is_up(h.container.life.status)) && passes(h, rows)
}

// Whether the limit lets no more in.
fn is_reached(limit: Option<u32>, count: usize) -> bool
    ensures { result ≡ is_reached limit count }
{
    match limit {
        None => false,
        Some(most) => most as usize <= count,
    }
}

fn listed(alloc: Global, h: &Held) -> Result<Listed, NoMemory>
    ensures { IfOk result (λ l. l ≡ listed (container_in h.now)) }
{
    let container = &h.container;
    let life = &container.life;
    Ok(Listed {
        number: container.number,
        id: container.id.copy(alloc)?,
        name: container.name.copy(alloc)?,
        words: life.words.copy(alloc)?,
        status: life.status,
        code: life.code,
        created: life.created,
        mounts: life.mounts.copy(alloc)?,
        labels: life.labels.copy(alloc)?,
    })
}

// Adds a container to the list, if it is shown.
fn add_shown(
    alloc: Global,
    items: &mut Vec<Listed>,
    h: &Held,
    all: bool,
    rows: &Filter,
) -> Result<(), NoMemory>
    ensures { OnOk result (items.new.items
        ≡ items.old.items ++ map listed
        (filter (spec.is_shown all rows.now) (container_in h.now ∷ []))) }
{
    if !is_shown(h, all, rows) {
        return Ok(());
    }
    let item = listed(alloc, h)?;
    match items.push(item) {
        Ok(()) => Ok(()),
        Err(_) => Err(NoMemory),
    }
}

// Behind the last that the limit lets in, none is looked at.
fn shown(
    alloc: Global,
    tables: &Tables,
    all: bool,
    limit: Option<u32>,
    rows: &Filter,
) -> Result<Vec<Listed>, NoMemory>
    ensures { IfOk result (λ v. v.items ≡ map listed
        (option_map_or (λ n. take n
        (filter (spec.is_shown all rows.now) (reverse tables.now.state.containers))) limit
        (filter (spec.is_shown all rows.now) (reverse tables.now.state.containers)))) }
{
    let mut items = Vec::new(alloc);
    let mut left = tables.containers();
    'older: while left > 0 {
        if is_reached(limit, items.len()) {
            return Ok(items);
        }
        left -= 1;
        add_shown(alloc, &mut items, tables.container_at(left), all, rows)?;
    }
    Ok(items)
}

/// Makes a list ready.
pub fn prepare(
    tables: &Tables,
    alloc: Global,
    moment: u64,
    all: bool,
    limit: Option<u32>,
    filter: &Filter,
) -> Result<Prepared, NoMemory>
    ensures { IfOk result
        (λ p. Makes p moment tables.now.state (spec.list_outcome all limit filter.now)) }
{
    let every = shows_all(all, limit, filter);
    let items = shown(alloc, tables, every, limit, filter)?;
    let body = list_body(alloc, items.as_slice())?;
    Ok(answer(alloc, moment, 200, body))
}
