// The lines of a container's health.
ghost use Rattle.std.specs.Prelude.{◌≡◌, ◌≤◌, find, IfOk};
ghost use Rattle.std.specs.Option.{option_copied};
ghost use Rattle.serde_json.specs.View.{view};
ghost use Rattle.serde_json.specs.Written.{compact_text};
ghost use Rattle.engine_text.specs.Texts.{same_bytes};
ghost use Rattle.client_model.specs.Commands.Health as spec;
ghost use Rattle.health_watch.specs.Health.{Standing};

use crate::answers::with_word;
use engine_text::{NoMemory, Pair, Text};
use health_watch::{Change, Health};
use itoa::Buffer;
use json_objects::Object;
use serde_json::Value;
use std::alloc::{AllocError, Global};

/// What a change is called.
fn status_word(healthy: bool) -> &'static str
    ensures { result.now ≡ spec.status_word healthy }
{
    if healthy {
        "health_status: healthy"
    } else {
        "health_status: unhealthy"
    }
}

/// The attribute of that name.
fn pair_of<'a>(pairs: &'a [Pair], name: &str) -> Option<&'a Pair>
    ensures { option_copied result ≡ find (λ p. same_bytes p.key name.now) pairs.now }
{
    pairs.iter().find(|pair| pair.key.is(name))
}

/// The value of an attribute, empty where there is none.
fn attribute<'a>(pairs: &'a [Pair], name: &str) -> &'a str
    ensures { result.now ≡ spec.attribute name.now pairs.now }
{
    match pair_of(pairs, name) {
        None => "",
        Some(pair) => pair.value.as_str(),
    }
}

/// The image and the name.
fn attributes_value(alloc: Global, attributes: &[Pair]) -> Result<Value, AllocError>
    ensures { IfOk result (λ v. view v ≡ spec.attributes_data attributes.now) }
{
    let object = Object::new(alloc).text(alloc, "image", attribute(attributes, "image"))?;
    let object = object.text(alloc, "name", attribute(attributes, "name"))?;
    Ok(object.value())
}

/// What a change is of.
fn actor_value(alloc: Global, id: &str, attributes: &[Pair]) -> Result<Value, AllocError>
    ensures { IfOk result (λ v. view v ≡ spec.actor_data id.now attributes.now) }
{
    let attributes = attributes_value(alloc, attributes)?;
    let object = Object::new(alloc).with(alloc, "Attributes", attributes)?;
    let object = object.text(alloc, "ID", id)?;
    Ok(object.value())
}

/// A change, as an event of the container.
fn change_value(
    alloc: Global,
    id: &str,
    attributes: &[Pair],
    change: &Change,
) -> Result<Value, AllocError>
    requires { change.now.moment ≤ 9999999999999 }
    ensures { IfOk result (λ v. view v ≡ spec.change_data id.now attributes.now change.now) }
{
    let actor = actor_value(alloc, id, attributes)?;
    let object = Object::new(alloc).text(alloc, "Action", status_word(change.healthy))?;
    let object = object.with(alloc, "Actor", actor)?;
    let object = object.text(alloc, "Type", "container")?;
    let object = object.text(alloc, "scope", "local")?;
    let object = object.number(alloc, "time", change.moment / 1_000)?;
    let object = object.number(alloc, "timeNano", change.moment * 1_000_000)?;
    Ok(object.value())
}

/// A change as a line of events, without its line end, with the image and the name of these attributes.
pub fn change_line(
    alloc: Global,
    id: &str,
    attributes: &[Pair],
    change: &Change,
) -> Result<Text, NoMemory>
    requires { change.now.moment ≤ 9999999999999 }
    ensures { IfOk result
        (λ t. t ≡ compact_text (spec.change_data id.now attributes.now change.now)) }
{
    let value = change_value(alloc, id, attributes, change)?;
    Ok(Text::from_string(value.to_string(alloc)?))
}

/// A status, in lower case.
fn health_word(health: Health) -> &'static str
    ensures { result.now ≡ spec.health_word health }
{
    match health {
        Health::None => "none",
        Health::Starting => "starting",
        Health::Healthy => "healthy",
        Health::Unhealthy => "unhealthy",
    }
}

/// `ID STATUS STREAK`.
pub fn standing_line(alloc: Global, id: &str, health: Health, streak: u32) -> Result<Text, NoMemory>
    ensures { (s : Standing) → s.status ≡ health → s.streak ≡ streak
        → IfOk result (λ t. t ≡ spec.standing_line id.now s) }
{
    let mut digits = Buffer::new();
    let line = Text::of(alloc, id)?;
    let line = with_word(line, health_word(health))?;
    with_word(line, digits.format(streak))
}
