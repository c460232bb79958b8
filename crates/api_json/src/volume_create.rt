// The body of a volume create (Docker Engine API v1.43, VolumeCreate).
ghost use Rattle.std.specs.Prelude.{MatchResult, ◌≡◌, Ok, Err};
ghost use Rattle.serde_json.specs.View.{view};
ghost use Rattle.api_json.specs.Fault.{Answers, and_then};
ghost use Rattle.api_json.specs.Fields.{text_field, needed_text};
ghost use Rattle.api_json.specs.VolumeCreate as spec;

use super::fault::{BodyFault, BodyKey, Refused};
use super::fields::{needed_text, read_body, text_field};
use super::lists::read_labels;
use engine_text::{Pairs, Text, is_volume_name};
use serde_json::Value;
use std::alloc::Global;

/// What is asked of a volume create; the name passes `is_volume_name`.
#[derive(Drop)]
pub struct VolumeSpec {
    pub name: Text,
    pub labels: Pairs,
}

// The name of the volume.
fn volume_name(body: &Value) -> Result<&str, BodyFault>
    ensures { MatchResult result
        (λ name. and_then (needed_text BodyKey.Name (view body.now)) spec.volume_named
        ≡ Ok name.now)
        (λ fault. and_then (needed_text BodyKey.Name (view body.now)) spec.volume_named
        ≡ Err fault) }
{
    let name = needed_text(body, BodyKey::Name)?;
    if is_volume_name(name) {
        Ok(name)
    } else {
        Err(BodyFault::BadVolumeName)
    }
}

// The driver is the one that there is.
fn check_driver(body: &Value) -> Result<bool, BodyFault>
    ensures { result ≡ and_then (text_field BodyKey.Driver (view body.now)) spec.driver_named }
{
    match text_field(body, BodyKey::Driver)? {
        None | Some("") | Some("local") => Ok(true),
        Some(_) => Err(BodyFault::BadDriver),
    }
}

// What the object of a volume create asks.
fn volume_in(alloc: Global, body: &Value) -> Result<VolumeSpec, Refused>
    ensures { Answers (spec.volume_in (view body.now)) result }
{
    let name = volume_name(body)?;
    check_driver(body)?;
    let labels = read_labels(alloc, body)?;
    let name = Text::of(alloc, name)?;
    Ok(VolumeSpec { name, labels })
}

/// Reads the body of a volume create: `Name`, which must be a volume's, `Driver`, which is empty or
/// `local`, and `Labels`.
#[tactic(auto, unfolding(crate::specs::VolumeCreate::volume_of))]
pub fn read_volume(alloc: Global, body: &[u8]) -> Result<VolumeSpec, Refused>
    ensures { Answers (spec.volume_of body.now) result }
{
    let body = read_body(alloc, body)?;
    volume_in(alloc, &body)
}
