// A wait is handed on with a field that asks for its head early.
ghost use Rattle.std.specs.Prelude.{◌≡◌, ◌≤◌, length};
ghost use Rattle.http_edge.specs.Reader.{request_of};
ghost use Rattle.lab_front.specs.Rows.{path_of};
ghost use Rattle.lab_handed.specs.Early as spec;

use http_edge::{FIELD_LIMIT, RequestView};
use lab_front::path_of;

fn is_wait(path: &str) -> bool
    ensures { result ≡ spec.is_wait path.now }
{
    let bytes = path.as_bytes();
    bytes.starts_with(b"containers/") && bytes.ends_with(b"/wait")
}

/// Whether a request to this target waits, where its method does.
fn is_wait_target(target: &str) -> bool
    ensures { result ≡ spec.is_path_of_wait (path_of target.now) }
{
    match path_of(target) {
        Some(path) => is_wait(path),
        None => false,
    }
}

/// Whether a request waits for a container.
fn waits(request: &RequestView<'_>) -> bool
    ensures { result ≡ spec.waits (request_of request.now) }
{
    if request.method() == "POST" {
        return is_wait_target(request.target());
    }
    false
}

/// Whether a request with so many fields waits for a container, and can have one more.
pub(crate) fn takes_field(request: &RequestView<'_>, count: usize) -> bool
    requires { count ≡ length (request_of request.now).fields }
    ensures { result ≡ spec.takes_field (request_of request.now) }
{
    if waits(request) {
        return count < FIELD_LIMIT;
    }
    false
}

/// The line of the field.
pub(crate) fn early_line() -> &'static [u8]
    ensures text { result.now ≡ spec.early_line }
    ensures short { length result.now ≤ 32 }
{
    b"X-Engine-Early: wait\r\n"
}
