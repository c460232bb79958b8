// How a request is treated.
ghost use Rattle.std.specs.Prelude.{◌≡◌, length};
ghost use Rattle.http_edge.specs.Reader.{request_of};
ghost use Rattle.http_edge.specs.Asks.{closes};
ghost use Rattle.http_edge.specs.declared.framing.Framing.TheVariants.{Length};
ghost use Rattle.lab_front.specs.Rows.{path_of, row_of};
ghost use Rattle.lab_handed.specs.Changes.{change_of};
ghost use Rattle.front_session.specs.Ways as spec;

use http_edge::{Framing, RequestView};
use lab_front::{Row, path_of, row_of};
use lab_handed::{Change, change_of};

/// How a request is treated.
#[derive(Clone, Copy, Debug, PartialEq, Eq)]
pub enum Way {
    /// It is answered by the front.
    Answered(Row),
    /// It is answered, and its connection closes behind it.
    Closes(Row),
    /// It is handed on, with so many bytes of a body.
    HandedOn(usize),
    /// It is handed on with its head changed so. It has no body.
    Changed(Change),
    /// It is handed on, and so is all behind it.
    Opens,
}

fn is_attach(path: &str) -> bool
    ensures { result ≡ spec.is_attach path.now }
{
    let bytes = path.as_bytes();
    bytes.starts_with(b"containers/") && bytes.ends_with(b"/attach")
}

fn is_exec_start(path: &str) -> bool
    ensures { result ≡ spec.is_exec_start path.now }
{
    let bytes = path.as_bytes();
    bytes.starts_with(b"exec/") && bytes.ends_with(b"/start")
}

/// Whether a request to this target takes its connection over, where its method does.
fn is_target_over(target: &str) -> bool
    ensures { result ≡ spec.is_path_over (path_of target.now) }
{
    match path_of(target) {
        Some(path) => is_attach(path) || is_exec_start(path),
        None => false,
    }
}

/// Whether a request may take its connection over.
fn may_take_over(request: &RequestView<'_>) -> bool
    ensures { result ≡ spec.may_take_over (request_of request.now) }
{
    if request.method() == "POST" {
        return is_target_over(request.target());
    }
    false
}

/// How a request of the table is treated.
fn answer_way(closing: bool, row: Row) -> Way
    ensures { result ≡ spec.answer_way closing row }
{
    if closing {
        Way::Closes(row)
    } else {
        Way::Answered(row)
    }
}

/// How a request is treated that has a body of so many bytes, and isn't of the table.
fn handed_way(count: usize, change: Option<Change>) -> Way
    ensures { result ≡ spec.handed_way count change }
{
    match change {
        Some(change) => {
            if count == 0 {
                Way::Changed(change)
            } else {
                Way::HandedOn(count)
            }
        }
        None => Way::HandedOn(count),
    }
}

/// How a request is treated that has a body of so many bytes and so many fields, and doesn't take its connection over.
fn way_by(request: &RequestView<'_>, count: usize, fields: usize) -> Way
    requires { fields ≡ length (request_of request.now).fields }
    ensures { result ≡ spec.way_by count (closes (request_of request.now))
        (change_of (request_of request.now)) (row_of (request_of request.now)) }
{
    match row_of(request) {
        Some(row) => {
            if count == 0 {
                answer_way(request.closes(), row)
            } else {
                Way::HandedOn(count)
            }
        }
        None => handed_way(count, change_of(request, fields)),
    }
}

fn sized_way(request: &RequestView<'_>, count: usize, fields: usize) -> Way
    requires { fields ≡ length (request_of request.now).fields }
    ensures { result ≡ spec.way_framed (Length count) (request_of request.now) }
{
    if may_take_over(request) {
        return Way::Opens;
    }
    way_by(request, count, fields)
}

/// How a request with so many fields is treated whose body is framed so.
pub(crate) fn way_framed(request: &RequestView<'_>, framing: Framing, fields: usize) -> Way
    requires { fields ≡ length (request_of request.now).fields }
    ensures { result ≡ spec.way_framed framing (request_of request.now) }
{
    match framing {
        Framing::Length(count) => sized_way(request, count, fields),
        Framing::Chunked | Framing::Refused(_) => Way::Opens,
    }
}
