// Words, pairs and mounts of a line's value.
ghost use Rattle.std.specs.Prelude.{◌≡◌};
ghost use Rattle.serde_json.specs.View.{view, items_view, members_view};
ghost use Rattle.json_laws.specs.Pairs.{words_of};
ghost use Rattle.api_json.specs.Lists as lists;
ghost use Rattle.journal_lines.specs.Reading.Parts as spec;
ghost use Rattle.journal_lines.specs.Reading.Lists as spec_lists;

use super::parts::{flag_at, part_at, text_at, text_of};
use crate::fault::LineFault;
use engine_text::{Mount, Mounts, Pair, Pairs, Text, Words};
use serde_json::{Map, Value};
use std::alloc::Global;

// The texts of a list's items.
fn words_of(alloc: Global, items: &[Value]) -> Result<Words, LineFault>
    ensures { spec.Reads (words_of (items_view items.now)) result }
{
    let mut words = Words::new(alloc);
    'items: for item in items {
        let word = text_of(alloc, item)?;
        words.push(alloc, word)?;
    }
    Ok(words)
}

/// The texts of a list.
pub fn words_in(alloc: Global, value: &Value) -> Result<Words, LineFault>
    ensures { spec.Reads (lists.texts_in (view value.now)) result }
{
    match value.as_array() {
        None => Err(LineFault::BadLine),
        Some(items) => words_of(alloc, items.as_slice()),
    }
}

/// The texts of the list at a key.
pub fn words_at(alloc: Global, value: &Value, key: &str) -> Result<Words, LineFault>
    ensures { spec.Reads (spec_lists.words_at key.now (view value.now)) result }
{
    let part = part_at(value, key)?;
    words_in(alloc, part)
}

// The pairs of an object's members.
fn pairs_of(alloc: Global, map: &Map<String, Value>) -> Result<Pairs, LineFault>
    ensures { spec.Reads (lists.pairs_of_members (members_view map.now.entries)) result }
{
    let mut pairs = Pairs::new(alloc);
    'members: for (key, value) in map.iter() {
        let value = text_of(alloc, value)?;
        let key = Text::of(alloc, key.as_str())?;
        pairs.push(alloc, Pair { key, value })?;
    }
    Ok(pairs)
}

// The pairs of an object of texts.
fn pairs_in(alloc: Global, value: &Value) -> Result<Pairs, LineFault>
    ensures { spec.Reads (lists.pairs_in (view value.now)) result }
{
    match value.as_object() {
        None => Err(LineFault::BadLine),
        Some(map) => pairs_of(alloc, map),
    }
}

/// The pairs of the object of texts at a key.
pub fn pairs_at(alloc: Global, value: &Value, key: &str) -> Result<Pairs, LineFault>
    ensures { spec.Reads (spec_lists.pairs_at key.now (view value.now)) result }
{
    let part = part_at(value, key)?;
    pairs_in(alloc, part)
}

// A mount.
fn mount_in(alloc: Global, value: &Value) -> Result<Mount, LineFault>
    ensures { spec.Reads (spec_lists.mount_in (view value.now)) result }
{
    let read_only = flag_at(value, "ro")?;
    let target = text_at(alloc, value, "target")?;
    let volume = text_at(alloc, value, "volume")?;
    Ok(Mount {
        volume,
        target,
        read_only,
    })
}

// The mounts of a list's items.
fn mounts_of(alloc: Global, items: &[Value]) -> Result<Mounts, LineFault>
    ensures { spec.Reads (spec_lists.mounts_of (items_view items.now)) result }
{
    let mut mounts = Mounts::new(alloc);
    'items: for item in items {
        let mount = mount_in(alloc, item)?;
        mounts.push(alloc, mount)?;
    }
    Ok(mounts)
}

// The mounts of a list.
fn mounts_in(alloc: Global, value: &Value) -> Result<Mounts, LineFault>
    ensures { spec.Reads (spec_lists.mounts_in (view value.now)) result }
{
    match value.as_array() {
        None => Err(LineFault::BadLine),
        Some(items) => mounts_of(alloc, items.as_slice()),
    }
}

/// The mounts of the list at a key.
pub fn mounts_at(alloc: Global, value: &Value, key: &str) -> Result<Mounts, LineFault>
    ensures { spec.Reads (spec_lists.mounts_at key.now (view value.now)) result }
{
    let part = part_at(value, key)?;
    mounts_in(alloc, part)
}
