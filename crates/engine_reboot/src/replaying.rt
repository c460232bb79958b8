// A written history, made again on a daemon.
ghost use Rattle.std.specs.Prelude.{◌++◌, IfOk};
ghost use Rattle.engine_reboot.specs.Replaying.{IsReplayed};
ghost use Rattle.journal_lines.specs.JournalLines.{header_line, IsHeader};

use crate::reopening::Reopened;
use engine_text::NoMemory;
use history_replay::{check_lines, head_of};
use journal_lines::{Header, Verdict};
use std::alloc::Global;

/// A written history, made again; or what its text is.
pub enum Replayed {
    Done(Reopened),
    Not(Verdict),
    Old,
}

// The lines behind a header.
fn replay_lines(
    alloc: Global,
    header: &Header,
    lines: &[u8],
    greatest: u64,
) -> Result<Replayed, NoMemory>
    requires { IsHeader header.now.seed header.now.opening }
    ensures { IfOk result (λ r. IsReplayed
        (header_line header.now.seed header.now.opening ++ lines.now) greatest r) }
{
    let mut reopened = Reopened::new(alloc, header, greatest)?;
    match check_lines(&mut reopened, alloc, 2, 2, lines) {
        Ok(Verdict::Legal { .. }) => Ok(Replayed::Done(reopened)),
        Ok(Verdict::Illegal { line, kept, found }) => {
            reopened.end();
            Ok(Replayed::Not(Verdict::Illegal { line, kept, found }))
        }
        Ok(Verdict::BadLine { line }) => {
            reopened.end();
            Ok(Replayed::Not(Verdict::BadLine { line }))
        }
        Err(NoMemory) => {
            reopened.end();
            Err(NoMemory)
        }
    }
}

/// Makes a written history again.
pub fn replay(alloc: Global, text: &[u8], greatest: u64) -> Result<Replayed, NoMemory>
    ensures { IfOk result (λ r. IsReplayed text.now greatest r) }
{
    match head_of(alloc, text)? {
        Some((header, lines)) => replay_lines(alloc, &header, lines, greatest),
        None => Ok(Replayed::Old),
    }
}
