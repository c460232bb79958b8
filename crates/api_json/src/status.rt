// The words for a container's state (Docker Engine API v1.43, ContainerState and ContainerSummary).
ghost use Rattle.std.specs.Prelude.{◌≡◌, IfOk, string_bytes};
ghost use Rattle.api_json.specs.Status as spec;

use engine_text::Status;
use std::alloc::{AllocError, Global};

/// The state in one word.
pub fn status_word(status: Status) -> &'static str
    ensures { result.now ≡ spec.status_word status }
{
    match status {
        Status::Created => "created",
        Status::Running => "running",
        Status::Paused => "paused",
        Status::Restarting => "restarting",
        Status::Removing => "removing",
        Status::Exited => "exited",
        Status::Dead => "dead",
    }
}

/// The state as the list of containers tells it, with the last exit code.
pub fn status_text(alloc: Global, status: Status, code: u8) -> Result<String, AllocError>
    ensures { IfOk result (λ s. string_bytes s ≡ spec.status_text status code) }
{
    match status {
        Status::Created => String::from_str(alloc, "Created"),
        Status::Running => String::from_str(alloc, "Up"),
        Status::Paused => String::from_str(alloc, "Up (Paused)"),
        Status::Restarting => format!(in alloc; "Restarting ({code})"),
        Status::Removing => String::from_str(alloc, "Removal In Progress"),
        Status::Exited => format!(in alloc; "Exited ({code})"),
        Status::Dead => String::from_str(alloc, "Dead"),
    }
}

pub fn is_paused(status: Status) -> bool
    ensures { result ≡ spec.is_paused status }
{
    matches!(status, Status::Paused)
}

pub fn is_restarting(status: Status) -> bool
    ensures { result ≡ spec.is_restarting status }
{
    matches!(status, Status::Restarting)
}

pub fn is_dead(status: Status) -> bool
    ensures { result ≡ spec.is_dead status }
{
    matches!(status, Status::Dead)
}
