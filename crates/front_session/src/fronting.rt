// A front over a connection's two ways.
ghost use Rattle.std.specs.Prelude.{◌≡◌, ◌<◌, ◌≤◌, ◌+◌, ◌++◌, [], length};
ghost use Rattle.engine_ports.specs.Sink.{WriteSays};
ghost use Rattle.http_edge.specs.Limits.{head_limit};
ghost use Rattle.http_edge.specs.Spelling.{HasNoRequest};
ghost use Rattle.front_session.specs.Steps.{MayPass, row_answer};
ghost use Rattle.front_session.specs.Reads.{whole, FrontReads, GoesSo};
ghost use Rattle.front_session.specs.declared.standing.Stage.TheVariants.{Within};

use crate::standing::Stage;
use crate::stepping::{Act, FrontState};
use crate::wiring::TwoWays;
use engine_ports::{Failed, Got};
use http_edge::{Form, Head, head_line};
use json_answer::Terms;
use lab_front::{Row, status_of, text_of};
use std::sync::Wait;

/// Writes two pieces, one after the other.
fn write_both<W: TwoWays>(ways: &mut W, first: &[u8], second: &[u8]) -> Result<(), Failed>
    ensures says { WriteSays result (first.now ++ second.now) (W.sink ways.old) (W.sink ways.new) }
    ensures same { W.source ways.new ≡ W.source ways.old }
{
    ways.write(first)?;
    ways.write(second)
}

/// Writes a row's answer.
fn write_row<W: TwoWays>(ways: &mut W, terms: Terms, row: Row) -> Result<(), Failed>
    ensures says { WriteSays result (row_answer terms row) (W.sink ways.old) (W.sink ways.new) }
    ensures same { W.source ways.new ≡ W.source ways.old }
{
    let text = text_of(row).as_bytes();
    let head = head_line(&Head {
        status: status_of(row),
        form: Form::Json(text.len() as u64),
        close: terms.close,
    });
    if terms.bare {
        return ways.write(head.as_slice());
    }
    write_both(ways, head.as_slice(), text)
}

/// Hands bytes on as they come.
fn pass<W: TwoWays>(ways: &mut W, front: &mut FrontState, size: usize, into: &mut [u8]) -> Got
    requires some { 0 < size }
    requires place { size ≤ length into.old }
    requires owed { front.old.owed ≡ [] }
    requires ahead { front.old.ahead ≡ [] }
    requires may { MayPass size front.old.stage }
    ensures { FrontReads result into.new
        (whole (W.source ways.old) (W.sink ways.old) front.old)
        (whole (W.source ways.new) (W.sink ways.new) front.new) }
{
    match ways.read(&mut into[..size]) {
        Got::Bytes(count) => {
            front.pass(count);
            Got::Bytes(count)
        }
        Got::End => Got::End,
        Got::Failed => Got::Failed,
    }
}

/// Reads on, up to so many bytes, before a request is whole.
fn want<W: TwoWays>(
    ways: &mut W,
    front: &mut FrontState,
    size: usize,
    into: &mut [u8],
) -> Option<Got>
    requires some { 0 < size }
    requires place { size ≤ length into.old }
    requires room { length front.old.ahead + size ≤ head_limit }
    requires owed { front.old.owed ≡ [] }
    requires stage { front.old.stage ≡ Within 0 }
    requires none { HasNoRequest front.old.ahead }
    ensures { GoesSo result into.new
        (whole (W.source ways.old) (W.sink ways.old) front.old)
        (whole (W.source ways.new) (W.sink ways.new) front.new) }
{
    match ways.read(&mut into[..size]) {
        Got::Bytes(count) => {
            front.feed(&into[..count]);
            None
        }
        Got::End => {
            if front.ahead_len() == 0 {
                return Some(Got::End);
            }
            front.stand(Stage::Ended);
            None
        }
        Got::Failed => Some(Got::Failed),
    }
}

/// A step, and what it asks for.
fn step<W: TwoWays>(ways: &mut W, front: &mut FrontState, into: &mut [u8]) -> Option<Got>
    requires { 0 < length into.old }
    ensures { GoesSo result into.new
        (whole (W.source ways.old) (W.sink ways.old) front.old)
        (whole (W.source ways.new) (W.sink ways.new) front.new) }
{
    match front.step(into) {
        Act::Gave(count) => Some(Got::Bytes(count)),
        Act::Answers(terms, row) => match write_row(ways, terms, row) {
            Ok(()) => None,
            Err(Failed) => {
                front.stand(Stage::Lost);
                Some(Got::Failed)
            }
        },
        Act::Passes(size) => Some(pass(ways, front, size, into)),
        Act::Wants(size) => want(ways, front, size, into),
        Act::On => None,
        Act::Ended => Some(Got::End),
        Act::Lost => Some(Got::Failed),
    }
}

/// Answers requests until bytes are handed on, the source ends or a call fails. It may wait.
pub(crate) fn read_on<R: Wait, W: TwoWays>(
    rt: &R,
    ways: &mut W,
    front: &mut FrontState,
    into: &mut [u8],
) -> Got
    requires { 0 < length into.old }
    ensures { FrontReads result into.new
        (whole (W.source ways.old) (W.sink ways.old) front.old)
        (whole (W.source ways.new) (W.sink ways.new) front.new) }
{
    for _ in rt.forever() {
        if let Some(over) = step(ways, front, into) {
            return over;
        }
    }
    unreachable!()
}
