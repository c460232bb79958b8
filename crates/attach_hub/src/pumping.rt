// Pumping standard input to a run.
ghost use Rattle.std.specs.Prelude.{◌≡◌, ◌<◌, ◌≤◌, IfOk, IsSomeAnd, IsTrue, Some, length};
ghost use Rattle.engine_text.specs.Soundness.{IsSound};
ghost use Rattle.engine_text.specs.declared.call.Call.TheVariants.{Feed};
ghost use Rattle.engine_text.specs.declared.reply.Reply.TheVariants.{Fed};
ghost use Rattle.machine_model.specs.History.{input_of};
ghost use Rattle.machine_model.specs.Statuses.{is_feed};
ghost use Rattle.session_model.specs.Pass.{IsConnection, IsNumber};
ghost use Rattle.session_model.specs.Turning.{Turn};
ghost use Rattle.attach_hub.specs.Pumping.{EndsInput, FeedsOrEnds, Hears, IsFed, PumpsInput};

use crate::polling::POLL;
use daemon_core::{Turns, input_of};
use engine_ports::{Clock, Got, Pause, Source};
use engine_text::{Bytes, Call, LogSpec, NoMemory, Reply};
use http_edge::RequestReader;
use session_model::{PumpEnd, Turned};
use std::alloc::Global;
use std::sync::Wait;

/// How many bytes are read at once at most: a piece of the input.
const PIECE: usize = 32_768;

/// Whether input was taken.
fn is_taken(reply: &Reply) -> bool
    requires { IsFed reply.now }
    ensures { reply.now ≡ Fed result }
{
    match reply {
        Reply::Fed { taken } => *taken,
        _ => unreachable!(),
    }
}

// A turn with a call of the connection's input.
fn ask_once<T: Turns>(turns: &mut T, alloc: Global, conn: u32, handed: u64, call: &Call) -> Turned
    requires connection { IsConnection conn }
    requires number { IsNumber (T.pass turns.old).number (input_of conn) }
    requires sound { IsSound call.now }
    requires kind { IsTrue (is_feed call.now) }
    ensures { Turn (input_of conn) handed (Some call.now) result
        (T.pass turns.old) (T.pass turns.new) }
{
    turns.turn(alloc, input_of(conn), handed, Some(call))
}

// Asks for a call of the connection's input until it is ready: a turn, and 50 ms later the next.
fn ask<W: Wait, T: Turns, C: Clock>(
    rt: &W,
    turns: &mut T,
    alloc: Global,
    conn: u32,
    call: &Call,
    clock: &mut C,
) -> Result<bool, PumpEnd>
    requires connection { IsConnection conn }
    requires number { IsNumber (T.pass turns.old).number (input_of conn) }
    requires sound { IsSound call.now }
    requires kind { IsTrue (is_feed call.now) }
    ensures { Hears conn call.now result (T.pass turns.old) (T.pass turns.new)
        (C.times clock.old) (C.times clock.new) }
{
    for _ in rt.forever() {
        let handed = clock.now();
        match ask_once(turns, alloc, conn, handed, call) {
            Turned::Replied(reply) => return Ok(is_taken(&reply)),
            Turned::NotYet => match clock.pause(POLL) {
                Pause::Go => {}
                Pause::Stop => return Err(PumpEnd::Stopped),
            },
            Turned::JournalFull => return Err(PumpEnd::JournalFull),
            Turned::NoMemory => return Err(PumpEnd::NoMemory),
            Turned::Begun { .. } | Turned::Nothing => unreachable!(),
        }
    }
    unreachable!()
}

// Feeds a piece to the run, and answers whether it was taken.
fn feed<W: Wait, T: Turns, C: Clock>(
    rt: &W,
    turns: &mut T,
    alloc: Global,
    conn: u32,
    spec: &LogSpec,
    run: u64,
    piece: &[u8],
    clock: &mut C,
) -> Result<bool, PumpEnd>
    requires connection { IsConnection conn }
    requires number { IsNumber (T.pass turns.old).number (input_of conn) }
    requires run { 1 ≤ run }
    requires some { 0 < length piece.now }
    requires few { length piece.now ≤ 32_768 }
    ensures { Hears conn (Feed spec.now.owner run piece.now) result
        (T.pass turns.old) (T.pass turns.new) (C.times clock.old) (C.times clock.new) }
{
    match Bytes::of(alloc, piece) {
        Ok(bytes) => {
            let call = Call::Feed {
                owner: spec.owner,
                run,
                bytes,
            };
            ask(rt, turns, alloc, conn, &call, clock)
        }
        Err(NoMemory) => Err(PumpEnd::NoMemory),
    }
}

// Ends the input of the run.
fn end_input<W: Wait, T: Turns, C: Clock>(
    rt: &W,
    turns: &mut T,
    alloc: Global,
    conn: u32,
    spec: &LogSpec,
    run: u64,
    clock: &mut C,
) -> PumpEnd
    requires connection { IsConnection conn }
    requires number { IsNumber (T.pass turns.old).number (input_of conn) }
    requires run { 1 ≤ run }
    ensures { EndsInput conn spec.now.owner run result
        (T.pass turns.old) (T.pass turns.new) (C.times clock.old) (C.times clock.new) }
{
    let call = Call::FeedEnd {
        owner: spec.owner,
        run,
    };
    match ask(rt, turns, alloc, conn, &call, clock) {
        Ok(_) => PumpEnd::Ended,
        Err(end) => end,
    }
}

// Reads the next piece into the place, and feeds it; at the end of the input its end is told.
fn feed_next<W: Wait, T: Turns, S: Source, C: Clock>(
    rt: &W,
    turns: &mut T,
    alloc: Global,
    conn: u32,
    spec: &LogSpec,
    run: u64,
    reader: &mut RequestReader,
    source: &mut S,
    place: &mut [u8],
    clock: &mut C,
) -> Result<(), PumpEnd>
    requires connection { IsConnection conn }
    requires number { IsNumber (T.pass turns.old).number (input_of conn) }
    requires feed { spec.now.feed ≡ Some run }
    requires run { 1 ≤ run }
    requires place { length place.old ≡ 32_768 }
    ensures place { length place.new ≡ 32_768 }
    ensures says { FeedsOrEnds conn spec.now run result (T.pass turns.old) (T.pass turns.new)
        reader.old.ahead reader.new.ahead (S.gives source.old) (S.gives source.new)
        (C.times clock.old) (C.times clock.new) }
{
    match reader.take_rest(source, place) {
        Got::Bytes(count) => {
            match feed(rt, turns, alloc, conn, spec, run, &place[..count], clock) {
                Ok(true) => Ok(()),
                Ok(false) => Err(PumpEnd::Gone),
                Err(end) => Err(end),
            }
        }
        Got::End => Err(end_input(rt, turns, alloc, conn, spec, run, clock)),
        Got::Failed => Err(PumpEnd::ReadFault),
    }
}

// Feeds piece after piece by way of the place.
fn pump_by<W: Wait, T: Turns, S: Source, C: Clock>(
    rt: &W,
    turns: &mut T,
    alloc: Global,
    conn: u32,
    spec: &LogSpec,
    run: u64,
    reader: &mut RequestReader,
    source: &mut S,
    place: &mut [u8],
    clock: &mut C,
) -> PumpEnd
    requires connection { IsConnection conn }
    requires number { IsNumber (T.pass turns.old).number (input_of conn) }
    requires feed { spec.now.feed ≡ Some run }
    requires run { 1 ≤ run }
    requires place { length place.old ≡ 32_768 }
    ensures { PumpsInput conn spec.now result (T.pass turns.old) (T.pass turns.new)
        reader.old.ahead (S.gives source.old) (S.gives source.new)
        (C.times clock.old) (C.times clock.new) }
{
    for _ in rt.forever() {
        match feed_next(
            rt, turns, alloc, conn, spec, run, reader, source, place, clock,
        ) {
            Ok(()) => {}
            Err(end) => return end,
        }
    }
    unreachable!()
}

/// A place for a piece.
fn new_place(alloc: Global) -> Result<Vec<u8>, NoMemory>
    ensures { IfOk result (λ v. length v.items ≡ 32_768) }
{
    let mut place = Vec::new(alloc);
    place.resize(PIECE, 0)?;
    Ok(place)
}

// Pumps the connection's standard input to the run that the stream's `feed` names, by turns of the number of the input: each piece
// that is read, of at most 32,768 bytes, is one feed, and the end of the input is told. Where a piece isn't taken the run has
// ended or its owner is gone.
pub(crate) fn pump_stdin<W: Wait, T: Turns, S: Source, C: Clock>(
    rt: &W,
    turns: &mut T,
    alloc: Global,
    conn: u32,
    spec: &LogSpec,
    reader: &mut RequestReader,
    source: &mut S,
    clock: &mut C,
) -> PumpEnd
    requires connection { IsConnection conn }
    requires number { IsNumber (T.pass turns.old).number (input_of conn) }
    requires input { IsSomeAnd spec.now.feed (λ run. 1 ≤ run) }
    ensures { PumpsInput conn spec.now result (T.pass turns.old) (T.pass turns.new)
        reader.old.ahead (S.gives source.old) (S.gives source.new)
        (C.times clock.old) (C.times clock.new) }
{
    let Some(run) = spec.feed else { unreachable!() };
    let Ok(mut place) = new_place(alloc) else {
        return PumpEnd::NoMemory;
    };
    pump_by(
        rt,
        turns,
        alloc,
        conn,
        spec,
        run,
        reader,
        source,
        place.as_mut_slice(),
        clock,
    )
}
