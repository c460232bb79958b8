// Mounts in bodies (Docker Engine API v1.43, definition MountPoint).
ghost use Rattle.std.specs.Prelude.{◌≡◌, IfOk, string_bytes};
ghost use Rattle.api_json.specs.Mount as spec;
ghost use Rattle.api_json.specs.Values.{list_of};
ghost use Rattle.api_json.specs.Written.{Appends, tokens_of, member_tokens};

use super::written::{flag_member, text_member};
use engine_text::Mount;
use json::Writer;
use std::alloc::{AllocError, Global};

/// Where a volume's data lie.
pub fn source_of(alloc: Global, volume: &str) -> Result<String, AllocError>
    ensures { IfOk result (λ s. string_bytes s ≡ spec.source_of volume.now) }
{
    format!(in alloc; "/var/lib/engine/volumes/{volume}/_data")
}

// Writes a mount.
fn write_mount(alloc: Global, out: &mut Writer, mount: &Mount) -> Result<(), AllocError>
    ensures { Appends result out.old out.new (tokens_of (spec.mount_data mount.now)) }
{
    let volume = mount.volume.as_str();
    let source = source_of(alloc, volume)?;
    out.begin_object()?;
    text_member(out, "Destination", mount.target.as_str())?;
    text_member(out, "Driver", "local")?;
    text_member(out, "Mode", "")?;
    text_member(out, "Name", volume)?;
    flag_member(out, "RW", !mount.read_only)?;
    text_member(out, "Source", source.as_str())?;
    text_member(out, "Type", "volume")?;
    out.end_object()
}

/// Writes a member that is the list of these mounts.
pub fn mounts_member(
    alloc: Global,
    out: &mut Writer,
    key: &str,
    mounts: &[Mount],
) -> Result<(), AllocError>
    ensures { Appends result out.old out.new
        (member_tokens key.now (list_of spec.mount_data mounts.now)) }
{
    out.key(key)?;
    out.begin_array()?;
    'mounts: for mount in mounts {
        write_mount(alloc, out, mount)?;
    }
    out.end_array()
}
