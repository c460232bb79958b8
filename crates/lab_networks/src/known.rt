// Networks by their names.
ghost use Rattle.std.specs.Prelude.{◌≡◌, ◌++◌, ◌-◌, ◌≤◌, length, replicate, IfOk, string_bytes};
ghost use Rattle.hex.specs.Hex.{encode_lower};
ghost use Rattle.lab_networks.specs.Known as spec;

use engine_text::{NoMemory, Text, is_volume_name};
use std::alloc::Global;

/// The most bytes of a name.
const LONGEST: usize = 128;

/// The most networks that are kept beside the three.
pub(crate) const MOST: usize = 64;

/// One of the three networks that always stand.
#[derive(Clone, Copy, Debug, PartialEq, Eq)]
pub enum Fixed {
    Bridge,
    Host,
    None,
}

/// Whether a network can have this name.
pub(crate) fn is_network_name(name: &str) -> bool
    ensures { result ≡ spec.is_network_name name.now }
{
    is_volume_name(name) && name.len() <= LONGEST
}

/// Puts zeros behind digits, up to 64.
fn pad(digits: &mut String) -> Result<(), NoMemory>
    ensures { IfOk result (λ x. string_bytes digits.new ≡ spec.padded (string_bytes digits.old)) }
{
    while digits.len() < 64 {
        digits.push_str("0")?;
    }
    Ok(())
}

/// The id of a name.
#[tactic(auto, unfolding(crate::specs::Known::id_of))]
pub(crate) fn id_of(alloc: Global, name: &str) -> Result<Text, NoMemory>
    ensures { IfOk result (λ id. id ≡ spec.id_of name.now) }
{
    let mut digits = hex::encode(alloc, name.as_bytes())?;
    pad(&mut digits)?;
    Ok(Text::from_string(digits))
}

pub(crate) fn fixed_name(which: Fixed) -> &'static str
    ensures { result.now ≡ spec.fixed_name which }
{
    match which {
        Fixed::Bridge => "bridge",
        Fixed::Host => "host",
        Fixed::None => "none",
    }
}

pub(crate) fn fixed_driver(which: Fixed) -> &'static str
    ensures { result.now ≡ spec.fixed_driver which }
{
    match which {
        Fixed::Bridge => "bridge",
        Fixed::Host => "host",
        Fixed::None => "null",
    }
}

pub(crate) fn fixed_id(which: Fixed) -> &'static str
    ensures { result.now ≡ spec.fixed_id which }
{
    match which {
        Fixed::Bridge => "17f29b073143d8cd97b5bbe492bdeffec1c5fee55cc1fe2112c8b9335f8b6121",
        Fixed::Host => "4740ae6347b0172c01254ff55bae5aff5199f4446e7f6d643d40185b3f475145",
        Fixed::None => "140bedbf9c3f6d56a9846d2ba7088798683f4da0c248231336e6a05679e4fdfe",
    }
}

fn is_fixed_called(text: &str, which: Fixed) -> bool
    ensures { result ≡ spec.is_fixed_called text.now which }
{
    text == fixed_name(which) || text == fixed_id(which)
}

/// The one of the three that has this name or id.
pub(crate) fn fixed_called(text: &str) -> Option<Fixed>
    ensures { result ≡ spec.fixed_called text.now }
{
    if is_fixed_called(text, Fixed::Bridge) {
        return Some(Fixed::Bridge);
    }
    if is_fixed_called(text, Fixed::Host) {
        return Some(Fixed::Host);
    }
    if is_fixed_called(text, Fixed::None) {
        return Some(Fixed::None);
    }
    None
}
