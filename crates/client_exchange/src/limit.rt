// How much of a body is kept.
ghost use Rattle.std.specs.Prelude.{◌≡◌};
ghost use Rattle.client_model.specs.Plans as spec;

use client_model::Fault;

/// The most bytes of a body that are kept: 64 MiB.
const MOST_KEPT: usize = 67_108_864;

/// Whether a body has more bytes than are kept.
pub(crate) fn is_too_long(body: &[u8]) -> bool
    ensures { result ≡ spec.is_too_long body.now }
{
    body.len() > MOST_KEPT
}

/// What a body comes to that is kept and wasn't read to its end.
pub fn cut_fault(body: &[u8]) -> Fault
    ensures { result ≡ spec.cut_fault body.now }
{
    if is_too_long(body) {
        Fault::TooLong
    } else {
        Fault::Answer
    }
}
