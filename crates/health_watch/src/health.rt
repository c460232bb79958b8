// Health, and its changes (Docker Engine API v1.43, definition Health).

/// Whether a container is healthy; `None` outside of its runs.
#[derive(Clone, Copy, PartialEq, Eq, Debug, Drop)]
pub enum Health {
    None,
    Starting,
    Healthy,
    Unhealthy,
}

/// A change to healthy or unhealthy, and its moment in milliseconds.
#[derive(Clone, Copy, PartialEq, Eq, Debug, Drop)]
pub struct Change {
    pub healthy: bool,
    pub moment: u64,
}
