// The journal of a drill, judged.
ghost use Rattle.std.specs.Prelude.{◌≡◌, IfOk};
ghost use Rattle.history_replay.specs.Legal.{journal_of};
ghost use Rattle.journal_lines.specs.declared.format.Format.TheVariants.{Second};
ghost use Rattle.daemon_core.specs.Keeping.{history_of};
ghost use Rattle.daemon_core.specs.Passing.{charter};

use daemon_core::Daemon;
use engine_text::NoMemory;
use session_model::Part;
use std::alloc::Global;

/// The whole journal of a daemon.
pub fn journal_text(alloc: Global, daemon: &Daemon) -> Result<Vec<u8>, NoMemory>
    ensures { IfOk result
        (λ v. v.items
        ≡ journal_of Second (charter daemon.now) (history_of daemon.now.stored.journal)) }
{
    let mut text = Vec::new(alloc);
    let mut number = 0;
    'lines: loop {
        match daemon.journal_from(alloc, number, &mut text) {
            Part::More { next } => number = next,
            Part::UpToDate => return Ok(text),
            Part::NoMemory => return Err(NoMemory),
            Part::Whole | Part::Gone { .. } => unreachable!(),
        }
    }
}
