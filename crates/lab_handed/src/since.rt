// Events up to a moment are handed on as those from the first kept one on.
ghost use Rattle.std.specs.Prelude.{◌≡◌, ◌≤◌, length};
ghost use Rattle.http_edge.specs.Reader.{request_of};
ghost use Rattle.lab_front.specs.Rows.{path_of};
ghost use Rattle.lab_front.specs.Queries.{query_of};
ghost use Rattle.lab_handed.specs.Since as spec;

use crate::keys::{are_ascii, is_given};
use http_edge::RequestView;
use lab_front::{path_of, query_of, value_of};

fn is_target_of_events(target: &str) -> bool
    ensures { result ≡ spec.is_path_of_events (path_of target.now) }
{
    match path_of(target) {
        Some(path) => path == "events",
        None => false,
    }
}

/// Whether a query tells up to when, and not from when on.
fn tells_until_alone(query: &str) -> bool
    ensures { result ≡ spec.tells_until_alone query.now }
{
    let query = query.as_bytes();
    !is_given(value_of(b"since", query)) && is_given(value_of(b"until", query))
}

/// Whether such events are asked for by this target.
fn is_target_until(target: &str) -> bool
    ensures { result ≡ spec.is_target_until target.now }
{
    if is_target_of_events(target) && are_ascii(target.as_bytes()) {
        return tells_until_alone(query_of(target));
    }
    false
}

/// Whether a request asks for events up to a moment, and doesn't say from when on.
pub(crate) fn takes_since(request: &RequestView<'_>) -> bool
    ensures { result ≡ spec.takes_since (request_of request.now) }
{
    if request.method() == "GET" {
        return is_target_until(request.target());
    }
    false
}

/// The key of the first kept event, before other keys.
pub(crate) fn since_key() -> &'static [u8]
    ensures text { result.now ≡ spec.since_key }
    ensures short { length result.now ≤ 32 }
{
    b"since=0&"
}
