// What a table of volumes answers (Docker Engine API v1.43, VolumeCreate, VolumeDelete).

/// Whether a volume was made.
#[derive(Clone, Copy, PartialEq, Eq, Debug, Drop)]
pub enum Made {
    New,
    /// One of that name stood, and stays as it is.
    Stood,
}

/// Whether a volume was removed.
#[derive(Clone, Copy, PartialEq, Eq, Debug, Drop)]
pub enum Removed {
    Ok,
    Missing,
    /// A container refers to it.
    InUse,
}
