// A health check (Docker Engine API v1.43, definition HealthConfig; own: milliseconds, and no default left open).
ghost use Rattle.std.specs.Prelude.{◌≡◌, IfOk};

use super::{NoMemory, Words};
use std::alloc::Global;

/// What is run to see whether a container is healthy, and how often; times are milliseconds.
#[derive(Clone, Drop)]
pub struct HealthSpec {
    pub words: Words,
    pub interval: u64,
    pub timeout: u64,
    pub retries: u32,
    pub start_period: u64,
}

impl HealthSpec {
    /// The same again.
    pub fn copy(&self, _alloc: Global) -> Result<HealthSpec, NoMemory>
        ensures { IfOk result (λ h. h ≡ self.now) }
    {
        Ok(self.clone()?)
    }
}
