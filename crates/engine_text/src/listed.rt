// Items of the lists (Docker Engine API v1.43, ContainerList, VolumeList).
use super::{Mounts, Pairs, Status, Text, Words};

/// A container as the list shows it; `code` is its last exit code, `created` a moment in
/// milliseconds.
#[derive(Drop)]
pub struct Listed {
    pub number: u64,
    pub id: Text,
    pub name: Text,
    pub words: Words,
    pub status: Status,
    pub code: u8,
    pub created: u64,
    pub mounts: Mounts,
    pub labels: Pairs,
}

/// A volume as the list shows it; `created` is a moment in milliseconds.
#[derive(Drop)]
pub struct ListedVolume {
    pub name: Text,
    pub labels: Pairs,
    pub created: u64,
}
