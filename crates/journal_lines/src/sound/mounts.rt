// Whether a request can ask for mounts.
ghost use Rattle.std.specs.Prelude.{◌≡◌};
ghost use Rattle.std.specs.List.{list_all};
ghost use Rattle.engine_text.specs.Mounts.{is_path};
ghost use Rattle.engine_text.specs.Soundness as spec;

use engine_text::{Mount, is_volume_name};
use machine_model::MOST_MOUNTS;

// Whether it begins with a slash.
fn is_path(path: &str) -> bool
    ensures { result ≡ is_path path.now }
{
    match path.as_bytes() {
        [first, ..] => *first == b'/',
        [] => false,
    }
}

// Whether it is a mount of a volume at a path.
fn is_mount(mount: &Mount) -> bool
    ensures { result ≡ spec.is_mount mount.now }
{
    is_volume_name(mount.volume.as_str()) && is_path(mount.target.as_str())
}

// Whether all of them are.
fn are_all_mounts(mounts: &[Mount]) -> bool
    ensures { result ≡ list_all spec.is_mount mounts.now }
{
    mounts.iter().all(|mount| is_mount(mount))
}

/// Whether they are mounts, and at most sixteen.
pub fn are_mounts(mounts: &[Mount]) -> bool
    ensures { result ≡ spec.are_mounts mounts.now }
{
    mounts.len() <= MOST_MOUNTS && are_all_mounts(mounts)
}
