// What a header names, read from its line (own: format 2).
ghost use Rattle.std.specs.Prelude.{◌≡◌, IfOk, IfErr};
ghost use Rattle.std.specs.Result.{result_ok};
ghost use Rattle.hex.specs.Hex.{decode_sized};
ghost use Rattle.serde_json.specs.View.{view};
ghost use Rattle.journal_lines.specs.JournalLines.{header_line, IsHeader};
ghost use Rattle.journal_lines.specs.Line.{IsHeaderFault};
ghost use Rattle.journal_lines.specs.Reading.Parts.{Reads};
ghost use Rattle.journal_lines.specs.Reading.Headers as spec;

use super::carried::seed_bytes;
use super::parts::{natural_at, word_at};
use crate::fault::LineFault;
use crate::header::Header;
use crate::writing::header_of;
use hex::FromHex;
use json_laws::value_of_line;
use machine_model::GREATEST_MOMENT;
use serde_json::Value;
use std::alloc::Global;

// 32 bytes in hexadecimal.
fn seed_of(digits: &str) -> Result<[u8; 32], LineFault>
    ensures { Reads (result_ok (decode_sized digits.now 32)) result }
{
    match <[u8; 32] as FromHex>::from_hex(digits) {
        Ok(seed) => Ok(seed),
        Err(_) => Err(LineFault::BadLine),
    }
}

// The header of a line's value.
fn header_in(value: &Value) -> Result<Header, LineFault>
    ensures { Reads (spec.header_in (view value.now)) result }
{
    let opening = natural_at(value, "moment")?;
    let digits = word_at(value, "seed")?;
    let seed = seed_of(digits)?;
    Ok(Header { seed, opening })
}

/// Reads a header, with its line end: exactly what `write_header` writes of a moment up to the
/// greatest is taken.
pub fn read_header(alloc: Global, line: &[u8]) -> Result<Header, LineFault>
    ensures taken { IfOk result (λ h. IsHeader h.seed h.opening
        × (header_line h.seed h.opening ≡ line.now)) }
    ensures refused { IfErr result (λ e. IsHeaderFault line.now e) }
{
    let Some(value) = value_of_line(alloc, line)? else {
        return Err(LineFault::BadLine);
    };
    let header = header_in(&value)?;
    if header.opening > GREATEST_MOMENT {
        return Err(LineFault::BadLine);
    }
    seed_bytes(&header.seed);
    let again = header_of(alloc, &header.seed, header.opening)?;
    if again.as_slice() != line {
        return Err(LineFault::BadLine);
    }
    Ok(header)
}
