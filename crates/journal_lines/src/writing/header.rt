// The header of a journal (own: format 2).
ghost use Rattle.std.specs.Prelude.{◌≡◌, IfOk};
ghost use Rattle.serde_json.specs.View.{view};
ghost use Rattle.journal_lines.specs.JournalLines as spec;

use engine_text::{Bytes, NoMemory};
use json_laws::line_of_value;
use json_objects::Object;
use serde_json::Value;
use std::alloc::{AllocError, Global};

// The value of a header.
fn header_value(alloc: Global, seed: &[u8; 32], moment: u64) -> Result<Value, AllocError>
    ensures { IfOk result (λ v. view v ≡ spec.header_value seed.now moment) }
{
    let digits = hex::encode(alloc, seed.as_slice())?;
    let object = Object::new(alloc)
        .number(alloc, "format", 2)?
        .number(alloc, "moment", moment)?
        .text(alloc, "seed", digits.as_str())?;
    Ok(object.value())
}

/// The line of a header as bytes that are compared.
pub fn header_of(alloc: Global, seed: &[u8; 32], moment: u64) -> Result<Vec<u8>, AllocError>
    ensures { IfOk result (λ line. line.items ≡ spec.header_line seed.now moment) }
{
    let value = header_value(alloc, seed, moment)?;
    line_of_value(alloc, &value)
}

/// The header of a journal of format 2, with its line end: the seed of ids, and the moment of the
/// opening in milliseconds.
pub fn write_header(alloc: Global, seed: [u8; 32], moment: u64) -> Result<Bytes, NoMemory>
    ensures { IfOk result (λ line. line ≡ spec.header_line seed moment) }
{
    let line = header_of(alloc, &seed, moment)?;
    Ok(Bytes::from_vec(line))
}
