// The keys of a query.
ghost use Rattle.std.specs.Prelude.{◌≡◌, ◌++◌, OnOk};
ghost use Rattle.client_model.specs.Requests as spec;

use engine_text::{NoMemory, Pair, Pairs, Text};
use std::alloc::Global;

/// A key with its value.
pub(crate) fn key(alloc: Global, query: &mut Pairs, name: &str, value: &str) -> Result<(), NoMemory>
    ensures { OnOk result (query.new ≡ query.old ++ spec.key name.now value.now) }
{
    let key = Text::of(alloc, name)?;
    let value = Text::of(alloc, value)?;
    query.push(alloc, Pair { key, value })
}

/// A key, where its value is given.
pub(crate) fn key_if(
    alloc: Global,
    query: &mut Pairs,
    name: &str,
    value: &Option<Text>,
) -> Result<(), NoMemory>
    ensures { OnOk result (query.new ≡ query.old ++ spec.key_if name.now value.now) }
{
    match value {
        Some(value) => key(alloc, query, name, value.as_str()),
        None => Ok(()),
    }
}

/// A key that is true, if it is set.
pub(crate) fn key_set(
    alloc: Global,
    query: &mut Pairs,
    name: &str,
    set: bool,
) -> Result<(), NoMemory>
    ensures { OnOk result (query.new ≡ query.old ++ spec.key_set name.now set) }
{
    if set {
        key(alloc, query, name, "1")
    } else {
        Ok(())
    }
}
