// Answers that tell of a volume, or that there is none.
ghost use Rattle.std.specs.Prelude.{◌≤◌, IfOk};
ghost use Rattle.machine_model.specs.Outcome.{message_text};
ghost use Rattle.machine_model.specs.Refusals.{no_such_volume};
ghost use Rattle.machine_model.specs.Views.{volume_body};
ghost use Rattle.call_plans.specs.Making.{IsAnswer};

use crate::answers::{answer, refuse};
use crate::prepared::Prepared;
use crate::refusals::no_such_volume;
use api_json::{VolumeView, volume_body};
use engine_text::{NoMemory, Volume};
use machine_model::GREATEST_MOMENT;
use std::alloc::Global;

/// An answer that tells what the volume is.
pub fn show(alloc: Global, moment: u64, status: u16, volume: &Volume) -> Result<Prepared, NoMemory>
    requires { volume.now.created ≤ GREATEST_MOMENT }
    ensures { IfOk result (λ p. IsAnswer moment status (volume_body volume.now) p) }
{
    let view = VolumeView {
        name: volume.name.as_str(),
        labels: &volume.labels,
        created: volume.created,
    };
    let body = volume_body(alloc, &view)?;
    Ok(answer(alloc, moment, status, body))
}

/// The answer that no volume has the name.
pub fn refuse_missing(alloc: Global, moment: u64, name: &str) -> Result<Prepared, NoMemory>
    ensures { IfOk result (λ p. IsAnswer moment 404 (message_text (no_such_volume name.now)) p) }
{
    let text = no_such_volume(alloc, name)?;
    refuse(alloc, moment, 404, &text)
}
