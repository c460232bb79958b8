// The parts of an answer between which members are put in.
ghost use Rattle.std.specs.Prelude.{◌≡◌, ◌≤◌, ◌+◌, ◌++◌, length, drop, Some, None, IfSome, IfNone};
ghost use Rattle.lab_shown.specs.Shown as spec;

use crate::searching::{brace_in, place_in};
use crate::texts::host_key;
use http_edge::{Form, Head, head_line};

/// The head of a JSON answer of this status and so many bytes.
pub(crate) fn head_of(status: u16, size: u64, close: bool) -> Head
    ensures { result ≡ spec.head_by status size close }
{
    Head {
        status,
        form: Form::Json(size),
        close,
    }
}

/// Whether this is the head of such an answer.
fn is_head(head: &[u8], status: u16, size: u64, close: bool) -> bool
    ensures { result ≡ spec.is_head head.now status size close }
{
    head == head_line(&head_of(status, size, close)).as_slice()
}

/// Whether the connection closes behind the answer with this head, where it is such a head.
pub(crate) fn close_in(head: &[u8], status: u16, size: u64) -> Option<bool>
    ensures { result ≡ spec.close_in head.now status size }
{
    if is_head(head, status, size, false) {
        return Some(false);
    }
    if is_head(head, status, size, true) {
        return Some(true);
    }
    None
}

/// What stands behind the first byte.
fn behind_first(bytes: &[u8]) -> &[u8]
    ensures { result.now ≡ drop 1 bytes.now }
{
    match bytes {
        [_, rest @ ..] => rest,
        [] => bytes,
    }
}

/// The body of an answer to an inspect: whether its connection closes, what stands between its first brace and the
/// key of the host's settings, and what behind that.
#[derive(Clone, Copy)]
pub(crate) struct Parts<'a> {
    pub close: bool,
    pub before: &'a [u8],
    pub behind: &'a [u8],
}

/// The parts of a body behind a head that closes its connection so.
fn parts_by(close: bool, body: &[u8]) -> Option<Parts<'_>>
    ensures some { IfSome result (λ p. (p.close ≡ close)
        × (spec.more_in body.now ≡ Some (spec.more p.before.now p.behind.now))
        × (length p.before.now + length p.behind.now ≤ length body.now)) }
    ensures none { IfNone result (spec.more_in body.now ≡ None) }
{
    let Some(place) = place_in(host_key(), body) else {
        return None;
    };
    let (front, _) = body.split_at(place);
    Some(Parts {
        close,
        before: behind_first(front),
        behind: &body[place + host_key().len()..],
    })
}

/// The parts of an answer to an inspect; none of another piece.
pub(crate) fn parts_of(piece: &[u8]) -> Option<Parts<'_>>
    ensures some { IfSome result (λ p. (spec.shown piece.now
        ≡ spec.answer_of 200 p.close (spec.more p.before.now p.behind.now))
        × (length p.before.now + length p.behind.now ≤ length piece.now)) }
    ensures none { IfNone result (spec.shown piece.now ≡ piece.now) }
{
    let (head, body) = piece.split_at(brace_in(piece));
    let Some(close) = close_in(head, 200, body.len() as u64) else {
        return None;
    };
    parts_by(close, body)
}
