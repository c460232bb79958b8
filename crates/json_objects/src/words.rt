// Lists of texts (RFC 8259, section 5).
ghost use Rattle.std.specs.Prelude.{◌≡◌, IfOk};
ghost use Rattle.serde_json.specs.View.{view};
ghost use Rattle.json_laws.specs.Pairs.{words_data};

use engine_text::Text;
use serde_json::Value;
use std::alloc::{AllocError, Global};

/// The list of these words.
pub fn words_value(alloc: Global, words: &[Text]) -> Result<Value, AllocError>
    ensures { IfOk result (λ v. view v ≡ words_data words.now) }
{
    let mut items = Vec::new(alloc);
    'words: for word in words {
        items.push(Value::try_from_str(alloc, word.as_str())?)?;
    }
    Ok(Value::Array(items))
}
