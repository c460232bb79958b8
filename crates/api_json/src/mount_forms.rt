// The mounts that a create asks for (Docker Engine API v1.43, HostConfig: Binds and Mounts).
ghost use Rattle.std.specs.Prelude.{◌≡◌, [], option_map, option_copied};
ghost use Rattle.serde_json.specs.View.{view, items_view};
ghost use Rattle.engine_text.specs.Mounts.{is_path};
ghost use Rattle.api_json.specs.Fault.{Answers};
ghost use Rattle.api_json.specs.MountForms as spec;

use super::fault::{BodyFault, BodyKey, Refused};
use super::fields::{field, flag, text_field};
use super::lists::texts_field;
use engine_text::{Mount, Mounts, Text, is_volume_name};
use serde_json::Value;
use std::alloc::Global;

/// The most mounts that a container has.
const MOST_MOUNTS: usize = 16;

fn is_path(path: &str) -> bool
    ensures { result ≡ is_path path.now }
{
    match path.as_bytes() {
        [first, ..] => *first == b'/',
        [] => false,
    }
}

// A volume and the path at which it is seen.
fn mount_of(alloc: Global, volume: &str, target: &str, read_only: bool) -> Result<Mount, Refused>
    ensures { Answers (spec.mount_of volume.now target.now read_only) result }
{
    if !(is_volume_name(volume) && is_path(target)) {
        return Err(Refused::BadBody(BodyFault::BadMount));
    }
    let volume = Text::of(alloc, volume)?;
    let target = Text::of(alloc, target)?;
    Ok(Mount {
        volume,
        target,
        read_only,
    })
}

// The parts round the first colon.
fn split_colon(text: &str) -> Option<(&str, &str)>
    ensures { option_map (λ parts. (parts.0.now, parts.1.now)) result ≡ spec.split_colon text.now }
{
    text.split_once(':')
}

// Whether a mount is read only, by the part behind its second colon.
fn mode_of(mode: &str) -> Result<bool, BodyFault>
    ensures { result ≡ spec.mode_of mode.now }
{
    match mode {
        "ro" => Ok(true),
        "rw" => Ok(false),
        _ => Err(BodyFault::BadMount),
    }
}

// A path, or a path, a colon and a mode.
fn path_and_mode(alloc: Global, volume: &str, rest: &str) -> Result<Mount, Refused>
    ensures { Answers (spec.path_and_mode volume.now rest.now (spec.split_colon rest.now)) result }
{
    let Some((path, mode)) = split_colon(rest) else {
        return mount_of(alloc, volume, rest, false);
    };
    let read_only = mode_of(mode)?;
    mount_of(alloc, volume, path, read_only)
}

// The mount of `VOLUME:PATH`, `VOLUME:PATH:ro` or `VOLUME:PATH:rw`.
fn bind_of(alloc: Global, text: &str) -> Result<Mount, Refused>
    ensures { Answers (spec.bind_of text.now) result }
{
    let Some((volume, rest)) = split_colon(text) else {
        return Err(Refused::BadBody(BodyFault::BadMount));
    };
    path_and_mode(alloc, volume, rest)
}

// The mount that the fields tell.
fn told_mount(
    alloc: Global,
    kind: Option<&str>,
    source: Option<&str>,
    target: Option<&str>,
    read_only: bool,
) -> Result<Mount, Refused>
    ensures { Answers (spec.told_mount (option_copied kind.entry) (option_copied source.entry)
        (option_copied target.entry) read_only) result }
{
    match (kind, source, target) {
        (Some("volume"), Some(source), Some(target)) => mount_of(alloc, source, target, read_only),
        _ => Err(Refused::BadBody(BodyFault::BadMount)),
    }
}

// The kinds of the fields of a mount, in their order, and then what they tell.
fn mount_fields(alloc: Global, value: &Value) -> Result<Mount, Refused>
    ensures { Answers (spec.mount_fields (view value.now)) result }
{
    let kind = text_field(value, BodyKey::Type)?;
    let source = text_field(value, BodyKey::Source)?;
    let target = text_field(value, BodyKey::Target)?;
    let read_only = flag(value, BodyKey::ReadOnly)?;
    told_mount(alloc, kind, source, target, read_only)
}

// The mount of an item, which must be an object.
fn mount_in(alloc: Global, value: &Value) -> Result<Mount, Refused>
    ensures { Answers (spec.mount_in (view value.now)) result }
{
    if value.is_object() {
        return mount_fields(alloc, value);
    }
    Err(Refused::BadBody(BodyFault::BadField(BodyKey::Mounts)))
}

// One more mount, of which there are 16 at most.
fn add_mount(alloc: Global, mut mounts: Mounts, mount: Mount) -> Result<Mounts, Refused>
    ensures { Answers (spec.added_mount mounts mount) result }
{
    if mounts.len() >= MOST_MOUNTS {
        return Err(Refused::BadBody(BodyFault::BadMount));
    }
    mounts.push(alloc, mount)?;
    Ok(mounts)
}

// The mounts of `Binds`.
fn add_binds(alloc: Global, texts: &[Text]) -> Result<Mounts, Refused>
    ensures { Answers (spec.add_binds [] texts.now) result }
{
    let mut mounts = Mounts::new(alloc);
    'texts: for text in texts {
        let mount = bind_of(alloc, text.as_str())?;
        mounts = add_mount(alloc, mounts, mount)?;
    }
    Ok(mounts)
}

// These mounts and those of `Mounts`.
fn add_mounts(alloc: Global, before: Mounts, items: &[Value]) -> Result<Mounts, Refused>
    ensures { Answers (spec.add_mounts before (items_view items.now)) result }
{
    let mut mounts = before;
    'items: for value in items {
        let mount = mount_in(alloc, value)?;
        mounts = add_mount(alloc, mounts, mount)?;
    }
    Ok(mounts)
}

/// The mounts of a host config, those of `Binds` first.
pub fn read_mounts(alloc: Global, host: &Value) -> Result<Mounts, Refused>
    ensures { Answers (spec.mounts_of (view host.now)) result }
{
    let binds = texts_field(alloc, host, BodyKey::Binds)?;
    let mounts = add_binds(alloc, binds.as_slice())?;
    let Some(value) = field(host, BodyKey::Mounts) else {
        return Ok(mounts);
    };
    match value.as_array() {
        None => Err(Refused::BadBody(BodyFault::BadField(BodyKey::Mounts))),
        Some(items) => add_mounts(alloc, mounts, items.as_slice()),
    }
}
