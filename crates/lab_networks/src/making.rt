// A network is made.
ghost use Rattle.std.specs.Prelude.{◌≡◌, ◌≤◌, ◌++◌, [], ◌∷◌, IfOk, OnErr, option_map, option_copied, option_and_then};
ghost use Rattle.std.specs.List.{list_any};
ghost use Rattle.std.specs.Str.{bytes_eq};
ghost use Rattle.serde_json.specs.View.{view};
ghost use Rattle.lab_networks.specs.Known.{fixed_name, id_of, fixed_called};
ghost use Rattle.lab_networks.specs.Steps as spec;

use crate::answer::{Answer, answer_of};
use crate::known::{Fixed, MOST, fixed_called, fixed_name, is_network_name};
use crate::made::Made;
use engine_text::{NoMemory, Text};
use json_laws::value_of_text;
use serde_json::Value;
use std::alloc::Global;

/// The text `Name` of an object.
fn text_in(value: &Value) -> Option<&str>
    ensures { option_map (λ t. t.now) result ≡ spec.text_in (view value.now) }
{
    match value.get("Name") {
        None => None,
        Some(name) => name.as_str(),
    }
}

fn copied(alloc: Global, text: Option<&str>) -> Result<Option<Text>, NoMemory>
    ensures { IfOk result (λ t. t ≡ option_map (λ t. t.now) text.entry) }
{
    match text {
        None => Ok(None),
        Some(text) => Ok(Some(Text::of(alloc, text)?)),
    }
}

/// The name in a body.
fn name_in(alloc: Global, body: &[u8]) -> Result<Option<Text>, NoMemory>
    ensures { IfOk result (λ name. name ≡ spec.name_in body.now) }
{
    let Some(value) = value_of_text(alloc, body)? else {
        return Ok(None);
    };
    copied(alloc, text_in(&value))
}

/// Whether a network of this name was made.
fn is_made(networks: &[Made], name: &str) -> bool
    ensures { result ≡ list_any (λ n. bytes_eq n name.now) networks.now }
{
    networks.iter().any(|made| made.is_named(name))
}

/// The answer of a name that stands.
fn stands_already(alloc: Global, name: &str) -> Result<Answer, NoMemory>
    ensures { IfOk result (λ a. a ≡ spec.answer 409 (spec.stands_text name.now)) }
{
    let text = format!(in alloc; "{{\"message\":\"network with name {name} already exists\"}}")?;
    Ok(Answer {
        status: 409,
        text: Text::from_string(text),
    })
}

/// The answer of a name that is one of the three's.
fn not_permitted(alloc: Global, which: Fixed) -> Result<Answer, NoMemory>
    ensures { IfOk result (λ a. a ≡ spec.answer 403 (spec.predefined_text which)) }
{
    let name = fixed_name(which);
    let text = format!(in alloc;
        "{{\"message\":\"operation is not permitted on predefined {name} network\"}}"
    )?;
    Ok(Answer {
        status: 403,
        text: Text::from_string(text),
    })
}

/// The answer of a network that was made.
fn created(alloc: Global, made: &Made) -> Result<Answer, NoMemory>
    ensures { IfOk result (λ a. a ≡ spec.answer 201 (spec.created_text made.now)) }
{
    let id = made.id();
    let text = format!(in alloc; "{{\"Id\":\"{id}\",\"Warning\":\"\"}}")?;
    Ok(Answer {
        status: 201,
        text: Text::from_string(text),
    })
}

/// Makes a network of this name.
fn keep(alloc: Global, name: &str, networks: &mut Vec<Made>) -> Result<Answer, NoMemory>
    ensures ok { IfOk result (λ a. (networks.new.items ≡ networks.old.items ++ name.now ∷ [])
        × (a ≡ spec.answer 201 (spec.created_text name.now))) }
    ensures err { OnErr result (networks.new.items ≡ networks.old.items) }
{
    let made = Made::new(alloc, name)?;
    let answer = created(alloc, &made)?;
    if networks.reserve(1).is_err() {
        return Err(NoMemory);
    }
    networks.push_reserved(made);
    Ok(answer)
}

/// Makes a network of a name that is none of the three's, where there is none yet and room for one.
fn make_new(alloc: Global, name: &str, networks: &mut Vec<Made>) -> Result<Answer, NoMemory>
    ensures ok { IfOk result
        (λ a. (networks.new.items, a) ≡ spec.if_new name.now networks.old.items) }
    ensures err { OnErr result (networks.new.items ≡ networks.old.items) }
{
    if is_made(networks, name) {
        return stands_already(alloc, name);
    }
    if MOST <= networks.len() {
        return answer_of(alloc, 500, "{\"message\":\"no more networks can be made\"}");
    }
    keep(alloc, name, networks)
}

/// Makes a network of a name, where there may be one.
fn make_named(alloc: Global, name: &str, networks: &mut Vec<Made>) -> Result<Answer, NoMemory>
    ensures ok { IfOk result
        (λ a. (networks.new.items, a) ≡ spec.if_allowed name.now networks.old.items) }
    ensures err { OnErr result (networks.new.items ≡ networks.old.items) }
{
    if !is_network_name(name) {
        return answer_of(alloc, 400, "{\"message\":\"bad network name\"}");
    }
    match fixed_called(name) {
        Some(which) => not_permitted(alloc, which),
        None => make_new(alloc, name, networks),
    }
}

/// Makes a network as a body asks.
pub(crate) fn make(alloc: Global, body: &[u8], networks: &mut Vec<Made>) -> Result<Answer, NoMemory>
    ensures ok { IfOk result (λ a. (networks.new.items, a)
        ≡ spec.made_named networks.old.items (spec.name_in body.now)) }
    ensures err { OnErr result (networks.new.items ≡ networks.old.items) }
{
    let Some(name) = name_in(alloc, body)? else {
        return answer_of(alloc, 400, "{\"message\":\"a network has a Name\"}");
    };
    make_named(alloc, name.as_str(), networks)
}
