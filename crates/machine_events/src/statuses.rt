// What a status is.
ghost use Rattle.std.specs.Prelude.{◌≡◌};
ghost use Rattle.api_json.specs.Status.{is_paused, is_restarting};
ghost use Rattle.machine_model.specs.Effects.EndMain.{is_dead};

use engine_text::Status;

/// Whether its status is restarting.
pub fn is_restarting(status: Status) -> bool
    ensures { result ≡ is_restarting status }
{
    matches!(status, Status::Restarting)
}

/// Whether its status is paused.
pub fn is_paused(status: Status) -> bool
    ensures { result ≡ is_paused status }
{
    matches!(status, Status::Paused)
}

/// Whether its status is dead.
pub fn is_dead(status: Status) -> bool
    ensures { result ≡ is_dead status }
{
    matches!(status, Status::Dead)
}
