// What control tells.
ghost use Rattle.std.specs.Prelude.{◌≡◌};
ghost use Rattle.engine_ports.specs.Sink.{WriteSays};
ghost use Rattle.json_answer.specs.Answer.{json_answer};
ghost use Rattle.lab_control.specs.Telling as spec;

use arrayvec::ArrayString;
use engine_ports::{Failed, Sink};
use itoa::Buffer;
use json_answer::{Terms, write_json};
use manual_clock::MoveFault;

/// What control tells.
#[derive(Clone, Copy, Debug, PartialEq, Eq)]
pub enum Told {
    /// The moment, also behind a move.
    Moment(u64),
    /// A move is refused.
    Refused(MoveFault),
    /// A move isn't told by one number.
    NoMove,
    /// The clock is the system's.
    Fixed,
    /// The daemon can't be asked for its journal.
    NoJournal,
    /// The program ends.
    Stopping,
    /// Control doesn't answer this.
    Other,
}

/// Tells a moment.
fn moment_text(moment: u64) -> ArrayString<64>
    ensures { result.bytes ≡ spec.moment_text moment }
{
    let mut digits = Buffer::new();
    let mut text = ArrayString::new();
    text.push_str("{\"moment\":");
    text.push_str(digits.format(moment));
    text.push_str("}");
    text
}

/// Tells why a move is refused.
fn refusal_text(fault: MoveFault) -> &'static str
    ensures { result.now ≡ spec.refusal_text fault }
{
    match fault {
        MoveFault::Backwards => "{\"message\":\"the clock never goes back\"}",
        MoveFault::TooFar => "{\"message\":\"a move adds a week at most, 604800000 ms\"}",
        MoveFault::PastGreatest => "{\"message\":\"the clock goes up to 9000000000000\"}",
    }
}

/// Tells that a move isn't told by one number.
fn no_move_text() -> &'static str
    ensures { result.now ≡ spec.no_move_text }
{
    "{\"message\":\"a move is to=MS or by=MS, and MS has one to 13 decimal digits\"}"
}

/// Tells that the clock is the system's.
fn fixed_text() -> &'static str
    ensures { result.now ≡ spec.fixed_text }
{
    "{\"message\":\"the clock is the system's, and can't be moved\"}"
}

/// Tells that the daemon can't be asked for its journal.
fn no_journal_text() -> &'static str
    ensures { result.now ≡ spec.no_journal_text }
{
    "{\"message\":\"the daemon can't be asked for its journal\"}"
}

/// Tells what control answers.
fn list_text() -> &'static str
    ensures { result.now ≡ spec.list_text }
{
    "{\"message\":\"control answers GET /clock, POST /clock?to=MS, POST /clock?by=MS, GET /journal, GET /openapi.yaml and POST /stop\"}"
}

/// Writes what control tells, as the answer to a request. It takes no memory.
pub fn write_told<K: Sink>(sink: &mut K, terms: Terms, told: Told) -> Result<(), Failed>
    ensures { WriteSays result (json_answer terms (spec.status_of told) (spec.text_of told))
        (K.takes sink.old) (K.takes sink.new) }
{
    match told {
        Told::Moment(moment) => {
            let text = moment_text(moment);
            write_json(sink, terms, 200, text.as_str().as_bytes())
        }
        Told::Refused(fault) => write_json(sink, terms, 400, refusal_text(fault).as_bytes()),
        Told::NoMove => write_json(sink, terms, 400, no_move_text().as_bytes()),
        Told::Fixed => write_json(sink, terms, 400, fixed_text().as_bytes()),
        Told::NoJournal => write_json(sink, terms, 500, no_journal_text().as_bytes()),
        Told::Stopping => write_json(sink, terms, 200, b"{}"),
        Told::Other => write_json(sink, terms, 404, list_text().as_bytes()),
    }
}
