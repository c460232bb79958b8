// How a connection goes on behind an answer.
ghost use Rattle.std.specs.Prelude.{◌≡◌};
ghost use Rattle.control_session.specs.Answering as spec;

use engine_ports::Failed;
use json_answer::Terms;
use lab_control::Asked;

/// How a connection goes on behind a request.
#[derive(Clone, Copy, Debug, PartialEq, Eq)]
pub enum Way {
    /// The next request is read.
    On,
    /// It closes.
    Closes,
    /// It closes, and the program ends.
    Stops,
}

/// Whether the connection closes behind what was asked for, in any case.
fn closes_behind(asked: Asked) -> bool
    ensures { result ≡ spec.closes_behind asked }
{
    match asked {
        Asked::Journal | Asked::Stop => true,
        Asked::Moment | Asked::Move(_) | Asked::NoMove | Asked::Description | Asked::Other => false,
    }
}

/// Whether the program's end was asked for.
fn is_stop(asked: Asked) -> bool
    ensures { result ≡ spec.is_stop asked }
{
    match asked {
        Asked::Stop => true,
        Asked::Moment
        | Asked::Move(_)
        | Asked::NoMove
        | Asked::Journal
        | Asked::Description
        | Asked::Other => false,
    }
}

/// What a request asks of its answer, by its own terms.
pub(crate) fn terms_by(asked: Asked, terms: Terms) -> Terms
    ensures { result ≡ spec.terms_by asked terms }
{
    if closes_behind(asked) {
        Terms {
            close: true,
            bare: terms.bare,
        }
    } else {
        terms
    }
}

/// Whether the answer wasn't written whole.
fn is_lost(written: Result<(), Failed>) -> bool
    ensures { result ≡ spec.is_lost written }
{
    match written {
        Ok(()) => false,
        Err(Failed) => true,
    }
}

/// How the connection goes on, by what was asked for, by its terms, and by whether the answer was written.
pub(crate) fn way_by(asked: Asked, terms: Terms, written: Result<(), Failed>) -> Way
    ensures { result ≡ spec.way_by asked terms written }
{
    if is_stop(asked) {
        return Way::Stops;
    }
    if terms.close || is_lost(written) {
        return Way::Closes;
    }
    Way::On
}
