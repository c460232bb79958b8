// Whether a removal is asked for with force.
ghost use Rattle.std.specs.Prelude.{◌≡◌, ◌==◌, option_map};
ghost use Rattle.std.specs.List.{before_first};
ghost use Rattle.lab_front.specs.Forced as spec;

use crate::query::{behind_first, place_in, spells, value_of};

/// Whether a value means no.
fn is_no(value: &[u8]) -> bool
    ensures { result ≡ spec.is_no value.now }
{
    spells(value, "")
        || spells(value, "0")
        || spells(value, "no")
        || spells(value, "false")
        || spells(value, "False")
        || spells(value, "none")
}

fn is_yes(value: Option<&[u8]>) -> bool
    ensures { result ≡ spec.is_yes (option_map (λ v. v.now) value.entry) }
{
    match value {
        Some(value) => !is_no(value),
        None => false,
    }
}

/// What stands before the first such byte.
fn before(bytes: &[u8], mark: u8) -> &[u8]
    ensures { result.now ≡ before_first (λ b. b == mark) bytes.now }
{
    &bytes[..place_in(bytes, mark)]
}

/// The query of a request that begins with these bytes.
pub fn query_in(bytes: &[u8]) -> &[u8]
    ensures { result.now ≡ spec.query_in bytes.now }
{
    behind_first(before(behind_first(bytes, b' '), b' '), b'?')
}

/// Whether a request that begins with these bytes asks for force. It takes no memory.
pub fn is_forced(bytes: &[u8]) -> bool
    ensures { result ≡ spec.is_forced bytes.now }
{
    is_yes(value_of(b"force", query_in(bytes)))
}
