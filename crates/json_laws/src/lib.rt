//! Laws of the compact JSON texts of `serde_json`, and lines of such texts.
#![tactic(auto)]

ghost use Rattle.std.specs.Prelude.{◌≡◌, ◌≢◌, IfOk, IfSome, IfNone, Some, None, false, option_map};
ghost use Rattle.serde_json.specs.Data.{Data};
ghost use Rattle.serde_json.specs.View.{view};
ghost use Rattle.serde_json.specs.Written.{has_float};
ghost use Rattle.json_laws.specs.Laws as law;
ghost use Rattle.json_laws.specs.Sound.{IsCarried, line_text};
ghost use Rattle.json_laws.specs.Text.{data_of, IsDataOfLine};

use serde_json::Value;
use std::alloc::{AllocError, Global};

/// Does nothing: its clauses are the laws of this crate.
pub fn laws()
    ensures read { law.ReadsBack }
    ensures carried { law.CarriedReadsBack }
    ensures differ { law.TextsDiffer }
    ensures no_float { law.PlainHasNoFloat }
    ensures utf8 { law.TextIsUtf8 }
    ensures pairs { law.PairsStand }
    ensures words { law.WordsStand }
    ensures integers { law.IntegersAreSound }
{}

/// The value of a text, or none where the bytes are not UTF-8 or no JSON; an error is want of
/// memory.
pub fn value_of_text(alloc: Global, text: &[u8]) -> Result<Option<Value>, AllocError>
    ensures { IfOk result (λ found. option_map view found ≡ data_of text.now) }
{
    match Value::from_slice(alloc, text) {
        Ok(value) => Ok(Some(value)),
        Err(e) => {
            if e.is_memory() {
                return Err(AllocError);
            }
            Ok(None)
        }
    }
}

/// The value of a line: that of the text before its line end, or none; an error is want of memory.
pub fn value_of_line(alloc: Global, line: &[u8]) -> Result<Option<Value>, AllocError>
    ensures value { IfOk result (λ found. IsDataOfLine line.now (option_map view found)) }
    ensures some { IfOk result (λ found. IfSome found
        (λ v. (d : Data) → IsCarried d → line_text d ≡ line.now → view v ≡ d)) }
    ensures none { IfOk result (λ found. IfNone found
        ((d : Data) → IsCarried d → line_text d ≢ line.now)) }
{
    let Some((last, rest)) = line.split_last() else {
        return Ok(None);
    };
    if *last != b'\n' {
        return Ok(None);
    }
    value_of_text(alloc, rest)
}

/// The line of a value; an error is want of memory.
pub fn line_of_value(alloc: Global, value: &Value) -> Result<Vec<u8>, AllocError>
    requires { has_float (view value.now) ≡ false }
    ensures { IfOk result (λ line. line.items ≡ line_text (view value.now)) }
{
    let mut line = value.to_vec(alloc)?;
    line.push(b'\n')?;
    Ok(line)
}
