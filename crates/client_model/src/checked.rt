// A container's health check, as an inspect shows it.
use engine_text::{HealthSpec, Text};

/// A container with a health check: its id, and the check.
#[derive(Drop)]
pub struct Checked {
    pub id: Text,
    pub spec: HealthSpec,
}
