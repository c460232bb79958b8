// The list of networks.
ghost use Rattle.std.specs.Prelude.{◌≡◌, ◌++◌, ◌∷◌, [], ◌||◌, IfOk, OnOk, option_map};
ghost use Rattle.std.specs.List.{flat_map};
ghost use Rattle.lab_networks.specs.Known.{fixed_name};
ghost use Rattle.lab_networks.specs.Shown as spec;

use crate::known::{Fixed, fixed_name};
use crate::made::Made;
use crate::showing::{fixed_text, made_text};
use engine_text::{NoMemory, Text};
use lab_front::{query_of, spells, value_of};
use std::alloc::Global;

/// Whether a filter is that of this name.
fn names_it(alloc: Global, value: &[u8], name: &str) -> Result<bool, NoMemory>
    ensures { IfOk result (λ t. t ≡ spec.names_it value.now name.now) }
{
    let close = format!(in alloc; "{{\"name\":[\"{name}\"]}}")?;
    let wide = format!(in alloc; "{{\"name\": [\"{name}\"]}}")?;
    let object = format!(in alloc; "{{\"name\":{{\"{name}\":true}}}}")?;
    Ok(
        spells(value, close.as_str())
            || spells(value, wide.as_str())
            || spells(value, object.as_str()),
    )
}

/// Whether filters ask for nothing.
fn is_plain(value: &[u8]) -> bool
    ensures { result ≡ spec.is_plain value.now }
{
    spells(value, "") || spells(value, "{}")
}

/// Whether a network of this name is listed.
fn is_listed(alloc: Global, filters: Option<&[u8]>, name: &str) -> Result<bool, NoMemory>
    ensures { IfOk result
        (λ t. t ≡ spec.is_listed (option_map (λ v. v.now) filters.entry) name.now) }
{
    match filters {
        None => Ok(true),
        Some(value) => {
            if is_plain(value) {
                return Ok(true);
            }
            names_it(alloc, value, name)
        }
    }
}

/// Puts a text behind the others. Without memory they stay.
fn put(texts: &mut Vec<Text>, text: Text) -> Result<(), NoMemory>
    ensures { OnOk result (texts.new.items ≡ texts.old.items ++ text ∷ []) }
{
    if texts.reserve(1).is_err() {
        return Err(NoMemory);
    }
    texts.push_reserved(text);
    Ok(())
}

fn put_fixed(
    alloc: Global,
    filters: Option<&[u8]>,
    which: Fixed,
    texts: &mut Vec<Text>,
) -> Result<(), NoMemory>
    ensures { OnOk result (texts.new.items ≡ texts.old.items
        ++ spec.if_listed (option_map (λ v. v.now) filters.entry) (fixed_name which)
        (spec.fixed_text which)) }
{
    if is_listed(alloc, filters, fixed_name(which))? {
        return put(texts, fixed_text(alloc, which)?);
    }
    Ok(())
}

fn put_made(
    alloc: Global,
    filters: Option<&[u8]>,
    made: &Made,
    texts: &mut Vec<Text>,
) -> Result<(), NoMemory>
    ensures { OnOk result (texts.new.items ≡ texts.old.items
        ++ spec.if_made (option_map (λ v. v.now) filters.entry) made.now) }
{
    if is_listed(alloc, filters, made.name())? {
        return put(texts, made_text(alloc, made)?);
    }
    Ok(())
}

fn put_all(
    alloc: Global,
    filters: Option<&[u8]>,
    networks: &[Made],
    texts: &mut Vec<Text>,
) -> Result<(), NoMemory>
    ensures { OnOk result (texts.new.items ≡ texts.old.items
        ++ flat_map (spec.if_made (option_map (λ v. v.now) filters.entry)) networks.now) }
{
    'all: for made in networks {
        put_made(alloc, filters, made, texts)?;
    }
    Ok(())
}

/// The texts of those that are listed.
fn listed(alloc: Global, filters: Option<&[u8]>, networks: &[Made]) -> Result<Vec<Text>, NoMemory>
    ensures { IfOk result (λ texts. texts.items
        ≡ spec.listed (option_map (λ v. v.now) filters.entry) networks.now) }
{
    let mut texts = Vec::new(alloc);
    put_fixed(alloc, filters, Fixed::Bridge, &mut texts)?;
    put_fixed(alloc, filters, Fixed::Host, &mut texts)?;
    put_fixed(alloc, filters, Fixed::None, &mut texts)?;
    put_all(alloc, filters, networks, &mut texts)?;
    Ok(texts)
}

/// The list, by the filters of a target's query.
pub(crate) fn list_text(alloc: Global, target: &str, networks: &[Made]) -> Result<Text, NoMemory>
    ensures { IfOk result (λ t. t ≡ spec.list_text target.now networks.now) }
{
    let filters = value_of(b"filters", query_of(target).as_bytes());
    let texts = listed(alloc, filters, networks)?;
    let members = texts.as_slice().join(alloc, ",")?;
    let members = members.as_str();
    let text = format!(in alloc; "[{members}]")?;
    Ok(Text::from_string(text))
}
