// Volume list: those that pass, in byte order of names.
ghost use Rattle.std.specs.Prelude.{◌≡◌, [], ◌∷◌, ◌++◌, IfOk, OnOk, map, filter};
ghost use Rattle.machine_model.specs.Calls.Volumes as spec;
ghost use Rattle.machine_model.specs.Consistency.{IsConsistent};
ghost use Rattle.machine_model.specs.Filters as filters;
ghost use Rattle.machine_model.specs.Views.{listed_volume};
ghost use Rattle.call_plans.specs.Making.{Makes};

use crate::volume_filters::passes;
use api_json::volumes_body;
use call_plans::{Prepared, answer};
use engine_text::{Filter, ListedVolume, NoMemory, Volume};
use machine_effects::Tables;
use std::alloc::Global;

fn listed(alloc: Global, volume: &Volume) -> Result<ListedVolume, NoMemory>
    ensures { IfOk result (λ v. v ≡ listed_volume volume.now) }
{
    Ok(ListedVolume {
        name: volume.name.copy(alloc)?,
        labels: volume.labels.copy(alloc)?,
        created: volume.created,
    })
}

// Adds a volume to the list, if it passes.
fn add_shown(
    alloc: Global,
    items: &mut Vec<ListedVolume>,
    volume: &Volume,
    rows: &Filter,
) -> Result<(), NoMemory>
    ensures { OnOk result (items.new.items ≡ items.old.items
        ++ map listed_volume
        (filter (λ v. filters.passes (filters.volume_fits v) rows.now) (volume.now ∷ []))) }
{
    if !passes(volume, rows) {
        return Ok(());
    }
    let item = listed(alloc, volume)?;
    match items.push(item) {
        Ok(()) => Ok(()),
        Err(_) => Err(NoMemory),
    }
}

// Those of these that pass.
fn passing(alloc: Global, volumes: &[Volume], rows: &Filter) -> Result<Vec<ListedVolume>, NoMemory>
    ensures { IfOk result (λ v. v.items
        ≡ map listed_volume
        (filter (λ v. filters.passes (filters.volume_fits v) rows.now) volumes.now)) }
{
    let mut items = Vec::new(alloc);
    for v in volumes {
        add_shown(alloc, &mut items, v, rows)?;
    }
    Ok(items)
}

fn shown(alloc: Global, tables: &Tables, rows: &Filter) -> Result<Vec<ListedVolume>, NoMemory>
    ensures { IfOk result (λ v. v.items ≡ map listed_volume
        (filter (λ v. filters.passes (filters.volume_fits v) rows.now) tables.now.state.volumes)) }
{
    passing(alloc, tables.volumes(), rows)
}

/// Makes a list of volumes ready.
pub fn prepare(
    tables: &Tables,
    alloc: Global,
    moment: u64,
    filter: &Filter,
) -> Result<Prepared, NoMemory>
    requires { IsConsistent tables.now.state }
    ensures { IfOk result
        (λ p. Makes p moment tables.now.state (spec.volume_list_outcome filter.now)) }
{
    let items = shown(alloc, tables, filter)?;
    let body = volumes_body(alloc, items.as_slice())?;
    Ok(answer(alloc, moment, 200, body))
}
