// Keys of a query.
ghost use Rattle.std.specs.Prelude.{◌≡◌, option_map};
ghost use Rattle.lab_handed.specs.Keys as spec;

/// Whether a key stands there with a value.
pub(crate) fn is_given(value: Option<&[u8]>) -> bool
    ensures { result ≡ spec.is_given (option_map (λ v. v.now) value.entry) }
{
    match value {
        Some(value) => !value.is_empty(),
        None => false,
    }
}

/// Whether all bytes are of ASCII.
pub(crate) fn are_ascii(bytes: &[u8]) -> bool
    ensures { result ≡ spec.are_ascii bytes.now }
{
    bytes.iter().all(|byte| *byte < 128)
}
