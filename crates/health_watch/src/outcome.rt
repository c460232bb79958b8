// What comes of probes (Docker Engine API v1.43, definition HealthcheckResult).

/// Whether a probe passes, and how many milliseconds behind its beginning its result comes.
#[derive(Clone, Copy, PartialEq, Eq, Debug, Drop)]
pub struct Outcome {
    pub passes: bool,
    pub after: u64,
}

/// A probe's result, and its moment in milliseconds.
#[derive(Clone, Copy, PartialEq, Eq, Debug, Drop)]
pub struct ProbeResult {
    pub moment: u64,
    pub passes: bool,
}
