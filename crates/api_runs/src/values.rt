// Values that are read of texts and written on lines.
ghost use Rattle.std.specs.Prelude.{◌≡◌, false, IfOk};
ghost use Rattle.serde_json.specs.Written.{has_float};
ghost use Rattle.serde_json.specs.View.{view};

use crate::line::{as_text, bytes_of, owned};
use crate::short::Short;
use json_laws::{line_of_value, value_of_line, value_of_text};
use serde_json::{Value, json};
use std::alloc::Global;

// The value that is written here.
fn known(alloc: Global) -> Result<Value, Short>
    ensures { IfOk result (λ v. has_float (view v) ≡ false) }
{
    Ok(json!(in alloc; {"words": ["\u{e9}", "\n"], "after": -1})?)
}

// Whether the value is read of the line again.
fn is_read_again(alloc: Global, line: &[u8], value: &Value) -> Result<bool, Short> {
    match value_of_line(alloc, line)? {
        Some(other) => Ok(other == *value),
        None => Ok(false),
    }
}

// The line of that value, which is read again.
fn written(alloc: Global) -> Result<String, Short> {
    let value = known(alloc)?;
    let line = line_of_value(alloc, &value)?;
    if is_read_again(alloc, line.as_slice(), &value)? {
        owned(alloc, as_text(line.as_slice()))
    } else {
        owned(alloc, "another value")
    }
}

// Whether that value was read.
fn shown(alloc: Global, value: Option<Value>) -> Result<String, Short> {
    let known = known(alloc)?;
    let said = match &value {
        Some(value) if *value == known => "that value",
        Some(_) => "another value",
        None => "no value",
    };
    owned(alloc, said)
}

// So many brackets that are opened.
fn nested(alloc: Global, count: &str) -> Result<String, Short> {
    let text = vec![in alloc; b'['; usize::from(count.parse::<u16>().unwrap_or(0))]?;
    shown(alloc, value_of_text(alloc, &text)?)
}

/// What is said of a text of that kind.
pub fn told(alloc: Global, kind: &str, rest: &str) -> Result<String, Short> {
    match kind {
        "text" => shown(alloc, value_of_text(alloc, rest.as_bytes())?),
        "bytes" => shown(alloc, value_of_text(alloc, &bytes_of(alloc, rest)?)?),
        "line" => shown(alloc, value_of_line(alloc, rest.as_bytes())?),
        "nested" => nested(alloc, rest),
        "written" => written(alloc),
        _ => owned(alloc, "no such kind"),
    }
}
