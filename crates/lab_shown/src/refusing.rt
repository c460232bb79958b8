// Refusals are written as tools read them.
ghost use Rattle.std.specs.Prelude.{◌≡◌, ◌≤◌, ◌++◌, length, option_map, IfSome, IfNone};
ghost use Rattle.engine_ports.specs.Sink.{WriteSays};
ghost use Rattle.http_edge.specs.Response.{head_text};
ghost use Rattle.lab_shown.specs.Shown.{answer_of};
ghost use Rattle.lab_shown.specs.Refused as spec;

use crate::parting::{close_in, head_of};
use crate::searching::brace_in;
use crate::taking::Taking;
use crate::writing::write_two;
use engine_ports::Failed;
use http_edge::{Form, Head, head_line};

/// Whether a connection closes behind an answer, and the answer's text.
#[derive(Clone, Copy)]
struct Told<'a> {
    close: bool,
    body: &'a [u8],
}

/// What an answer of this status tells; none of another piece.
fn body_in(status: u16, piece: &[u8]) -> Option<Told<'_>>
    ensures { option_map (λ t. (t.close, t.body.now)) result ≡ spec.body_in status piece.now }
{
    let (head, body) = piece.split_at(brace_in(piece));
    match close_in(head, status, body.len() as u64) {
        Some(close) => Some(Told { close, body }),
        None => None,
    }
}

/// What ends the text of a word that is no program's.
#[tactic(auto, unfolding(crate::specs::Refused::not_found))]
fn not_found() -> &'static [u8]
    ensures text { result.now ≡ spec.not_found }
    ensures short { length result.now ≤ 512 }
{
    b": executable file not found in $PATH\"}"
}

/// The text of a word that is no program's, without its end.
fn word_in(body: &[u8]) -> Option<&[u8]>
    ensures { option_map (λ f. f.now) result ≡ spec.word_in body.now }
{
    if body.starts_with(b"{\"message\":\"unknown command: ") && body.ends_with(b"\"}") {
        return Some(&body[..body.len().saturating_sub(2)]);
    }
    None
}

/// Whether this is the text of a volume that doesn't stand.
fn is_missing(body: &[u8]) -> bool
    ensures { result ≡ spec.is_missing body.now }
{
    body.starts_with(b"{\"message\":\"get ") && body.ends_with(b": no such volume\"}")
}

fn write_under<W: Taking>(
    sink: &mut W,
    head: &Head,
    front: &[u8],
    back: &[u8],
) -> Result<(), Failed>
    ensures { WriteSays result (head_text head.now ++ (front.now ++ back.now))
        (W.takes sink.old) (W.takes sink.new) }
{
    let line = head_line(head);
    sink.take(line.as_slice())?;
    write_two(sink, front, back)
}

/// How many bytes such a text has with its end.
fn size_of(front: &[u8]) -> u64
    ensures { result ≡ length (front.now ++ spec.not_found) }
{
    front.len() as u64 + not_found().len() as u64
}

/// Writes an answer of status 400 with this text and what ends it.
fn write_not_found<W: Taking>(sink: &mut W, close: bool, front: &[u8]) -> Result<(), Failed>
    ensures { WriteSays result (answer_of 400 close (front.now ++ spec.not_found))
        (W.takes sink.old) (W.takes sink.new) }
{
    let size = size_of(front);
    write_under(sink, &head_of(400, size, close), front, not_found())
}

/// What is told of what is refused for its word: the text without its end.
fn start_told(piece: &[u8]) -> Option<Told<'_>>
    ensures some { IfSome result (λ t. spec.shown_as 400 spec.start_told piece.now
        ≡ answer_of 400 t.close (t.body.now ++ spec.not_found)) }
    ensures none { IfNone result (spec.shown_as 400 spec.start_told piece.now ≡ piece.now) }
{
    let Some(told) = body_in(400, piece) else {
        return None;
    };
    let Some(front) = word_in(told.body) else {
        return None;
    };
    Some(Told {
        close: told.close,
        body: front,
    })
}

/// Writes an answer to what is done, where its word is no program's, so that command lines read it, and another piece as
/// it is.
pub(crate) fn write_done<W: Taking>(sink: &mut W, piece: &[u8]) -> Result<(), Failed>
    ensures { WriteSays result (spec.shown_as 400 spec.start_told piece.now)
        (W.takes sink.old) (W.takes sink.new) }
{
    match start_told(piece) {
        Some(told) => write_not_found(sink, told.close, told.body),
        None => sink.take(piece),
    }
}

/// Writes an answer without a body.
fn write_gone<W: Taking>(sink: &mut W, close: bool) -> Result<(), Failed>
    ensures { WriteSays result (spec.gone_text close) (W.takes sink.old) (W.takes sink.new) }
{
    let line = head_line(&Head {
        status: 204,
        form: Form::Empty,
        close,
    });
    sink.take(line.as_slice())
}

/// Whether the connection closes behind an answer that tells of a volume that doesn't stand.
fn missing_told(piece: &[u8]) -> Option<bool>
    ensures some { IfSome result
        (λ close. spec.shown_as 404 spec.removal_told piece.now ≡ spec.gone_text close) }
    ensures none { IfNone result (spec.shown_as 404 spec.removal_told piece.now ≡ piece.now) }
{
    let Some(told) = body_in(404, piece) else {
        return None;
    };
    if is_missing(told.body) {
        return Some(told.close);
    }
    None
}

/// Writes an answer to a removal with force: a volume that doesn't stand is gone; and another piece as it is.
pub(crate) fn write_removed<W: Taking>(sink: &mut W, piece: &[u8]) -> Result<(), Failed>
    ensures { WriteSays result (spec.shown_as 404 spec.removal_told piece.now)
        (W.takes sink.old) (W.takes sink.new) }
{
    match missing_told(piece) {
        Some(close) => write_gone(sink, close),
        None => sink.take(piece),
    }
}
