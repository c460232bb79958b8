// The header that a text begins with (own: format 2).
ghost use Rattle.std.specs.Prelude.{◌≡◌, ◌++◌, IfOk, IfSome, IfNone};
ghost use Rattle.journal_lines.specs.JournalLines.{header_line, IsHeader};
ghost use Rattle.journal_lines.specs.Line.{BeginsWithHeader};

use super::cut::cut_line;
use engine_text::NoMemory;
use journal_lines::{Header, LineFault, read_header};
use std::alloc::Global;

/// The header, and what stands behind it; none where the text begins with none.
pub fn head_of(alloc: Global, text: &[u8]) -> Result<Option<(Header, &[u8])>, NoMemory>
    ensures header { IfOk result (λ head. IfSome head (λ h. IsHeader h.0.seed h.0.opening)) }
    ensures whole { IfOk result (λ head. IfSome head
        (λ h. header_line h.0.seed h.0.opening ++ h.1.now ≡ text.now)) }
    ensures none { IfOk result (λ head. IfNone head (BeginsWithHeader text.now → ⊥)) }
{
    let Some((line, rest)) = cut_line(text) else {
        return Ok(None);
    };
    match read_header(alloc, line) {
        Ok(header) => Ok(Some((header, rest))),
        Err(LineFault::BadLine) => Ok(None),
        Err(LineFault::NoMemory) => Err(NoMemory),
    }
}
