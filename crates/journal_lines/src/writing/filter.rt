// A filter as a value (own: an object of lists of texts).
ghost use Rattle.std.specs.Prelude.{◌≡◌, IfOk};
ghost use Rattle.serde_json.specs.View.{view};
ghost use Rattle.journal_lines.specs.Fields as spec;

use super::values::words_value;
use api_json::filter_word;
use engine_text::FilterRow;
use json_objects::Object;
use serde_json::Value;
use std::alloc::{AllocError, Global};

/// The object of these rows, each key with its last list.
pub fn filter_value(alloc: Global, rows: &[FilterRow]) -> Result<Value, AllocError>
    ensures { IfOk result (λ v. view v ≡ spec.filter_value rows.now) }
{
    let mut object = Object::new(alloc);
    'rows: for row in rows {
        let values = words_value(alloc, row.values.as_slice())?;
        object = object.with(alloc, filter_word(row.key), values)?;
    }
    Ok(object.value())
}
