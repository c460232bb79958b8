// What options say.
ghost use Rattle.std.specs.Prelude.{◌≡◌, IfOk};
ghost use Rattle.client_model.specs.Words as spec;

use engine_text::{NoMemory, Pair, Text, Words};
use std::alloc::Global;

/// The flag stands there.
pub(crate) fn has_flag(name: &str, given: &[Pair]) -> bool
    ensures { result ≡ spec.has_flag name.now given.now }
{
    given.iter().any(|pair| pair.key.is(name))
}

/// The value of an option, if it stands there.
pub(crate) fn value_of(alloc: Global, name: &str, given: &[Pair]) -> Result<Option<Text>, NoMemory>
    ensures { IfOk result (λ value. value ≡ spec.value_of name.now given.now) }
{
    match given.iter().find(|pair| pair.key.is(name)) {
        Some(pair) => Ok(Some(pair.value.copy(alloc)?)),
        None => Ok(None),
    }
}

/// The values of an option that may be repeated, in order.
pub(crate) fn values_of(alloc: Global, name: &str, given: &[Pair]) -> Result<Words, NoMemory>
    ensures { IfOk result (λ values. values ≡ spec.values_of name.now given.now) }
{
    let mut values = Words::new(alloc);
    'given: for pair in given {
        if pair.key.is(name) {
            values.push(alloc, pair.value.copy(alloc)?)?;
        }
    }
    Ok(values)
}
