// What the lines of events tell of containers.
ghost use Rattle.std.specs.Prelude.{◌≡◌, ◌∷◌, ◌++◌, [], ℕ, List, Option, Some, map, codes, option_map, IfOk, IfSome, IfNone};
ghost use Rattle.engine_text.specs.declared.event.Event.{Event};
ghost use Rattle.event_ring.specs.Fold.{fold_of};
ghost use Rattle.api_json.specs.Event.{IsLine};
ghost use Rattle.client_model.specs.Streams.{event_in, events_in};
ghost use Rattle.client_model.specs.Commands.Watch as watch;
ghost use Rattle.engine_client.specs.Cutting.{IsCut, HasNoLineEnd, FoldsOrFails};
ghost use Rattle.engine_client.specs.Reading.{ReadsOrFails};
ghost use Rattle.engine_client.specs.Rows.{joined};

use crate::rows::Rows;
use api_json::{Refused, read_event_line};
use client_model::Fault;
use engine_text::{Event, FoldRow, NoMemory, Text, Words};
use event_ring::Fold;
use itoa::Buffer;
use std::alloc::Global;

/// The first line, with its line end, and what is left; none where there is no line end.
pub(crate) fn cut_line(text: &[u8]) -> Option<(&[u8], &[u8])>
    ensures line { IfSome result (λ p. IsCut text.now p.0.now p.1.now) }
    ensures none { IfNone result (HasNoLineEnd text.now) }
{
    let place = text.iter().position(|byte| *byte == b'\n')?;
    Some(text.split_at(place + 1))
}

/// The event that a line is, with its line end.
pub(crate) fn read_event(alloc: Global, line: &[u8]) -> Result<Event, Fault>
    ensures reads { (front : List ℕ) → line.now ≡ front ++ 10 ∷ []
        → ReadsOrFails result (event_in front) }
    ensures line { IfOk result (λ e. IsLine e) }
{
    match read_event_line(alloc, line) {
        Ok(event) => Ok(event),
        Err(Refused::BadBody(_)) => Err(Fault::Answer),
        Err(Refused::NoMemory) => Err(Fault::NoMemory),
    }
}

/// The rows behind one event more.
fn fold_event(rows: &mut Rows, alloc: Global, event: &Event) -> Result<(), Fault>
    requires { IsLine event.now }
    ensures { (meaning : Option Event) → meaning ≡ Some event.now
        → FoldsOrFails result meaning rows.old rows.new }
{
    match rows.fold_step(alloc, event) {
        Ok(()) => Ok(()),
        Err(_) => Err(Fault::NoMemory),
    }
}

/// The rows behind the event of one line more.
fn fold_line(rows: &mut Rows, alloc: Global, line: &[u8]) -> Result<(), Fault>
    ensures { (front : List ℕ) → line.now ≡ front ++ 10 ∷ []
        → FoldsOrFails result (event_in front) rows.old rows.new }
{
    match read_event(alloc, line) {
        Ok(event) => fold_event(rows, alloc, &event),
        Err(fault) => Err(fault),
    }
}

/// The rows that the events of a text of lines tell.
pub(crate) fn fold_events(alloc: Global, body: &[u8]) -> Result<Rows, Fault>
    ensures { ReadsOrFails result (option_map fold_of (events_in body.now)) }
{
    let mut rows = Rows::new(alloc);
    let mut rest = body;
    'lines: while !rest.is_empty() {
        let Some((line, behind)) = cut_line(rest) else {
            return Err(Fault::Answer);
        };
        match fold_line(&mut rows, alloc, line) {
            Ok(()) => {}
            Err(fault) => return Err(fault),
        }
        rest = behind;
    }
    Ok(rows)
}

/// Whether a container lives.
fn live_word(live: bool) -> &'static str
    ensures { result.now ≡ watch.live_word live }
{
    if live { "live" } else { "not-live" }
}

/// Whether it is paused.
fn paused_word(paused: bool) -> &'static str
    ensures { result.now ≡ watch.paused_word paused }
{
    if paused { "paused" } else { "not-paused" }
}

/// One word more, behind a blank.
fn with_word(line: Text, word: &str) -> Result<Text, NoMemory>
    ensures { IfOk result (λ t. t ≡ line ++ codes " " ++ word.now) }
{
    let mut string = line.into_string();
    string.push_str(" ")?;
    string.push_str(word)?;
    Ok(Text::from_string(string))
}

/// `ID NAME live|not-live paused|not-paused CODE`.
fn row_line(alloc: Global, row: &FoldRow) -> Result<Text, NoMemory>
    ensures { IfOk result (λ t. t ≡ watch.row_line row.now) }
{
    let mut digits = Buffer::new();
    let line = row.id.copy(alloc)?;
    let line = with_word(line, row.name.as_str())?;
    let line = with_word(line, live_word(row.live))?;
    let line = with_word(line, paused_word(row.paused))?;
    with_word(line, digits.format(row.code))
}

/// Adds a line of each row.
fn add_lines(lines: &mut Words, alloc: Global, rows: &[FoldRow]) -> Result<(), NoMemory>
    ensures { IfOk result (λ x. lines.new ≡ lines.old ++ map watch.row_line rows.now) }
{
    'rows: for row in rows {
        lines.push(alloc, row_line(alloc, row)?)?;
    }
    Ok(())
}

/// A line of each row of folds.
pub(crate) fn row_lines(alloc: Global, folds: &[Fold]) -> Result<Words, NoMemory>
    ensures { IfOk result (λ lines. lines ≡ map watch.row_line (joined folds.now)) }
{
    let mut lines = Words::new(alloc);
    'folds: for fold in folds {
        add_lines(&mut lines, alloc, fold.rows())?;
    }
    Ok(lines)
}
