// The texts of volumes (Docker Engine API v1.43, VolumeInspect and VolumeList).
ghost use Rattle.std.specs.Prelude.{◌≡◌, ◌≤◌, IfOk, All, codes};
ghost use Rattle.api_json.specs.Mount.{source_of};
ghost use Rattle.api_json.specs.Values.{list_of, text};
ghost use Rattle.api_json.specs.Views.{volume_shown};
ghost use Rattle.api_json.specs.Volume as spec;
ghost use Rattle.api_json.specs.Written.{Appends, tokens_of, member_tokens};

use super::mount::source_of;
use super::written::{
    empty_list_member, empty_object_member, moment_member, pairs_member, text_member, written_text,
};
use engine_text::{ListedVolume, NoMemory, Pairs, Text};
use json::Writer;
use std::alloc::{AllocError, Global};

/// What the text of a volume tells; `created` is a moment in milliseconds.
#[derive(Clone, Copy, Drop)]
pub struct VolumeView<'a> {
    pub name: &'a str,
    pub labels: &'a Pairs,
    pub created: u64,
}

// Writes where the data of the volume of this name lie.
fn mount_point_member(alloc: Global, out: &mut Writer, name: &str) -> Result<(), AllocError>
    ensures { Appends result out.old out.new
        (member_tokens (codes "Mountpoint") (text (source_of name.now))) }
{
    let source = source_of(alloc, name)?;
    text_member(out, "Mountpoint", source.as_str())
}

// Writes a volume.
fn write_volume(alloc: Global, out: &mut Writer, volume: &VolumeView<'_>) -> Result<(), AllocError>
    requires { volume.now.created ≤ 9_000_000_000_000 }
    ensures { Appends result out.old out.new
        (tokens_of (spec.volume_data (volume_shown volume.now))) }
{
    out.begin_object()?;
    moment_member(alloc, out, "CreatedAt", Some(volume.created))?;
    text_member(out, "Driver", "local")?;
    pairs_member(alloc, out, "Labels", volume.labels.as_slice())?;
    mount_point_member(alloc, out, volume.name)?;
    text_member(out, "Name", volume.name)?;
    empty_object_member(out, "Options")?;
    text_member(out, "Scope", "local")?;
    out.end_object()
}

/// The text of a volume; its moment is at most 9,000,000,000,000.
pub fn volume_body(alloc: Global, volume: &VolumeView<'_>) -> Result<Text, NoMemory>
    requires { volume.now.created ≤ 9_000_000_000_000 }
    ensures { IfOk result (λ text. text ≡ spec.volume_text (volume_shown volume.now)) }
{
    let mut out = Writer::new(Vec::new(alloc));
    write_volume(alloc, &mut out, volume)?;
    Ok(written_text(out))
}

// Writes a volume of a list.
fn write_listed(alloc: Global, out: &mut Writer, item: &ListedVolume) -> Result<(), AllocError>
    requires { item.now.created ≤ 9_000_000_000_000 }
    ensures { Appends result out.old out.new (tokens_of (spec.volume_data item.now)) }
{
    let volume = VolumeView {
        name: item.name.as_str(),
        labels: &item.labels,
        created: item.created,
    };
    write_volume(alloc, out, &volume)
}

// Writes the volumes of a list.
fn volumes_member(
    alloc: Global,
    out: &mut Writer,
    volumes: &[ListedVolume],
) -> Result<(), AllocError>
    requires { All (λ v. v.created ≤ 9_000_000_000_000) volumes.now }
    ensures { Appends result out.old out.new
        (member_tokens (codes "Volumes") (list_of spec.volume_data volumes.now)) }
{
    out.key("Volumes")?;
    out.begin_array()?;
    'volumes: for volume in volumes {
        write_listed(alloc, out, volume)?;
    }
    out.end_array()
}

// Writes a list of volumes, without warnings.
fn write_volumes(
    alloc: Global,
    out: &mut Writer,
    volumes: &[ListedVolume],
) -> Result<(), AllocError>
    requires { All (λ v. v.created ≤ 9_000_000_000_000) volumes.now }
    ensures { Appends result out.old out.new
        (tokens_of (spec.volumes_object (list_of spec.volume_data volumes.now))) }
{
    out.begin_object()?;
    volumes_member(alloc, out, volumes)?;
    empty_list_member(out, "Warnings")?;
    out.end_object()
}

/// The text of a list of volumes, as they stand; their moments are at most 9,000,000,000,000.
pub fn volumes_body(alloc: Global, volumes: &[ListedVolume]) -> Result<Text, NoMemory>
    requires { All (λ v. v.created ≤ 9_000_000_000_000) volumes.now }
    ensures { IfOk result (λ text. text ≡ spec.volumes_text volumes.now) }
{
    let mut out = Writer::new(Vec::new(alloc));
    write_volumes(alloc, &mut out, volumes)?;
    Ok(written_text(out))
}
