// Texts, pairs, mounts and health checks as values.
ghost use Rattle.std.specs.Prelude.{◌≡◌, IfOk};
ghost use Rattle.serde_json.specs.View.{view};
ghost use Rattle.api_json.specs.Values.{text, list_of, pairs_object};
ghost use Rattle.journal_lines.specs.Fields as spec;

use engine_text::{HealthSpec, Mount, Pair, Text};
use json_objects::Object;
use serde_json::Value;
use std::alloc::{AllocError, Global};

/// The list of these words.
pub fn words_value(alloc: Global, words: &[Text]) -> Result<Value, AllocError>
    ensures { IfOk result (λ v. view v ≡ list_of text words.now) }
{
    let list = json_objects::words_value(alloc, words)?;
    Ok(list)
}

/// The object of these pairs, each key with its last value.
pub fn pairs_value(alloc: Global, pairs: &[Pair]) -> Result<Value, AllocError>
    ensures { IfOk result (λ v. view v ≡ pairs_object pairs.now) }
{
    let mut object = Object::new(alloc);
    'pairs: for pair in pairs {
        object = object.text(alloc, pair.key.as_str(), pair.value.as_str())?;
    }
    Ok(object.value())
}

// A mount.
fn mount_value(alloc: Global, mount: &Mount) -> Result<Value, AllocError>
    ensures { IfOk result (λ v. view v ≡ spec.mount_entry mount.now) }
{
    let object = Object::new(alloc)
        .flag(alloc, "ro", mount.read_only)?
        .text(alloc, "target", mount.target.as_str())?
        .text(alloc, "volume", mount.volume.as_str())?;
    Ok(object.value())
}

/// The list of these mounts.
pub fn mounts_value(alloc: Global, mounts: &[Mount]) -> Result<Value, AllocError>
    ensures { IfOk result (λ v. view v ≡ list_of spec.mount_entry mounts.now) }
{
    let mut items = Vec::new(alloc);
    'mounts: for mount in mounts {
        items.push(mount_value(alloc, mount)?)?;
    }
    Ok(Value::Array(items))
}

/// A health check.
pub fn check_value(alloc: Global, check: &HealthSpec) -> Result<Value, AllocError>
    ensures { IfOk result (λ v. view v ≡ spec.check_entry check.now) }
{
    let words = words_value(alloc, check.words.as_slice())?;
    let object = Object::new(alloc)
        .number(alloc, "interval", check.interval)?
        .number(alloc, "retries", u64::from(check.retries))?
        .number(alloc, "start", check.start_period)?
        .number(alloc, "timeout", check.timeout)?
        .with(alloc, "words", words)?;
    Ok(object.value())
}
