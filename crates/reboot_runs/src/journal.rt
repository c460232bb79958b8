// The whole journal of a daemon.
use daemon_core::Daemon;
use engine_text::NoMemory;
use session_model::Part;
use std::alloc::Global;

/// The header, and the line of each entry.
pub fn journal_text(alloc: Global, daemon: &Daemon) -> Result<Vec<u8>, NoMemory> {
    let mut text = Vec::new(alloc);
    for number in 0..u64::MAX {
        match daemon.journal_from(alloc, number, &mut text) {
            Part::More { .. } => {}
            Part::UpToDate => return Ok(text),
            Part::NoMemory | Part::Whole | Part::Gone { .. } => return Err(NoMemory),
        }
    }
    Ok(text)
}
