// What a request asks of control.
ghost use Rattle.std.specs.Prelude.{◌≡◌, ◌<◌, ◌==◌, ◌&&◌};
ghost use Rattle.std.specs.List.{before_first, after_first};
ghost use Rattle.std.specs.Str.{bytes_eq};
ghost use Rattle.http_edge.specs.Reader.{request_of};
ghost use Rattle.lab_control.specs.Asking as spec;

use crate::number::number_in;
use http_edge::RequestView;

/// A move of the clock, in milliseconds.
#[derive(Clone, Copy, Debug, PartialEq, Eq)]
pub enum Move {
    /// To a moment since 1970.
    To(u64),
    /// By so many.
    By(u64),
}

/// What a request asks of control.
#[derive(Clone, Copy, Debug, PartialEq, Eq)]
pub enum Asked {
    /// The moment.
    Moment,
    /// A move of the clock.
    Move(Move),
    /// A move that isn't told by one number.
    NoMove,
    /// The daemon's journal.
    Journal,
    /// What control answers.
    Description,
    /// The program's end.
    Stop,
    /// What control doesn't answer.
    Other,
}

/// What stands before the first such character, and behind it.
fn cut_at(text: &str, mark: char) -> (&str, &str)
    requires { mark < 128 }
    ensures front { result.0.now ≡ before_first (λ b. b == mark) text.now }
    ensures back { result.1.now ≡ after_first (λ b. b == mark) text.now }
{
    match text.split_once(mark) {
        Some(parts) => parts,
        None => (text, ""),
    }
}

/// The move that a query tells.
fn move_in(query: &str) -> Asked
    ensures { result ≡ spec.move_in query.now }
{
    let (key, value) = cut_at(query, '=');
    match number_in(value) {
        Some(ms) => if key == "to" {
            Asked::Move(Move::To(ms))
        } else if key == "by" {
            Asked::Move(Move::By(ms))
        } else {
            Asked::NoMove
        },
        None => Asked::NoMove,
    }
}

/// Whether these are the row's method and path.
fn is_row(method: &str, path: &str, row_method: &str, row_path: &str) -> bool
    ensures { result ≡ spec.is_row method.now path.now row_method.now row_path.now }
{
    method == row_method && path == row_path
}

/// What a method, a path and a query ask for.
fn asked_by(method: &str, path: &str, query: &str) -> Asked
    ensures { result ≡ spec.asked_by method.now path.now query.now }
{
    if is_row(method, path, "GET", "/clock") {
        return Asked::Moment;
    }
    if is_row(method, path, "POST", "/clock") {
        return move_in(query);
    }
    if is_row(method, path, "GET", "/journal") {
        return Asked::Journal;
    }
    if is_row(method, path, "GET", "/openapi.yaml") {
        return Asked::Description;
    }
    if is_row(method, path, "POST", "/stop") {
        return Asked::Stop;
    }
    Asked::Other
}

/// What a request asks of control. It takes no memory.
pub fn asked_of(request: &RequestView<'_>) -> Asked
    ensures { result ≡ spec.asked_of (request_of request.now) }
{
    let (path, query) = cut_at(request.target(), '?');
    asked_by(request.method(), path, query)
}
