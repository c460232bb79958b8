// How the head of a request is handed on, where it isn't as it came.
ghost use Rattle.std.specs.Prelude.{◌≡◌, ◌≤◌, length};
ghost use Rattle.http_edge.specs.Reader.{request_of};
ghost use Rattle.lab_handed.specs.Changes as spec;

use crate::early::{early_line, takes_field};
use crate::exact::{no_filters, takes_exact};
use crate::since::{since_key, takes_since};
use http_edge::RequestView;
use lab_front::behind_first;

/// How the head of a request is handed on, where it isn't as it came.
#[derive(Clone, Copy, Debug, PartialEq, Eq)]
pub enum Change {
    /// With a field that asks for an early head, in front of the others.
    Early,
    /// With the key of the first kept event, in front of its query.
    Since,
    /// With the key of no filters, in front of its query.
    Exact,
}

/// How a request with so many fields is handed on, where it isn't as it came.
pub fn change_of(request: &RequestView<'_>, count: usize) -> Option<Change>
    requires { count ≡ length (request_of request.now).fields }
    ensures { result ≡ spec.change_of (request_of request.now) }
{
    if takes_field(request, count) {
        return Some(Change::Early);
    }
    if takes_since(request) {
        return Some(Change::Since);
    }
    if takes_exact(request) {
        return Some(Change::Exact);
    }
    None
}

/// What is put in.
pub fn text_of(change: Change) -> &'static [u8]
    ensures text { result.now ≡ spec.text_of change }
    ensures short { length result.now ≤ 32 }
{
    match change {
        Change::Early => early_line(),
        Change::Since => since_key(),
        Change::Exact => no_filters(),
    }
}

/// What stands behind the first line of a head.
fn fields_in(head: &[u8]) -> &[u8]
    ensures { result.now ≡ spec.fields_in head.now }
{
    behind_first(behind_first(behind_first(head, b' '), b' '), b'\n')
}

/// What stands behind that which is put in.
fn behind(change: Change, head: &[u8]) -> &[u8]
    ensures { result.now ≡ spec.behind change head.now }
{
    match change {
        Change::Early => fields_in(head),
        Change::Since | Change::Exact => behind_first(head, b'?'),
    }
}

/// Where it is put into a head.
pub fn place_of(change: Change, head: &[u8]) -> usize
    ensures place { result ≡ spec.place_of change head.now }
    ensures within { result ≤ length head.now }
{
    head.len().saturating_sub(behind(change, head).len())
}
