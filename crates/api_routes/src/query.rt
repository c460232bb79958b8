// The values of a query's keys.
ghost use Rattle.std.specs.Prelude.{◌≡◌, IfOk};
ghost use Rattle.std.specs.Option.{option_map};
ghost use Rattle.api_routes.specs.Query as spec;

use engine_text::{NoMemory, Text};
use std::alloc::Global;

/// The value of a query's key; of a repeated key the first counts.
pub(crate) fn query_value(alloc: Global, query: &str, key: &str) -> Result<Option<Text>, NoMemory>
    ensures { IfOk result (λ o. o ≡ spec.value_of key.now query.now) }
{
    let mut pairs = form_urlencoded::parse(alloc, query.as_bytes());
    'pairs: while let Some(pair) = pairs.next() {
        let Ok((name, value)) = pair else {
            return Err(NoMemory);
        };
        if name.as_str() == key {
            return Ok(Some(Text::of(alloc, value.as_str())?));
        }
    }
    Ok(None)
}

/// The value of a query's key; an absent key counts as an empty value.
pub(crate) fn value_or_empty(alloc: Global, query: &str, key: &str) -> Result<Text, NoMemory>
    ensures { IfOk result (λ t. t ≡ spec.value_or_empty key.now query.now) }
{
    match query_value(alloc, query, key)? {
        Some(text) => Ok(text),
        None => Ok(Text::new(alloc)),
    }
}
