// A takeover behind its head: its stream is followed, while its input is pumped, if it is fed.
ghost use Rattle.std.specs.Prelude.{◌≡◌, ◌≤◌, IsSome, IsSomeAnd, Some, false};
ghost use Rattle.engine_ports.specs.Sink.{FinishSays};
ghost use Rattle.engine_text.specs.declared.reply.Reply.TheVariants.{LogStream};
ghost use Rattle.machine_model.specs.History.{input_of, state_after};
ghost use Rattle.session_model.specs.Pass.{IsConnection, IsNumber};
ghost use Rattle.attach_hub.specs.Connection.{HasNumbers};
ghost use Rattle.attach_hub.specs.Sides.{RunsOver};
ghost use Rattle.attach_hub.specs.Following.{FollowsLent, FollowsSince, MayFollow};
ghost use Rattle.attach_hub.specs.Pumping.{PumpsInput};

use crate::connection::Connection;
use crate::following::{Stream, follow};
use crate::pumping::pump_stdin;
use daemon_core::{Pairs, Turns};
use engine_ports::{Clock, Failed, Sink, Source};
use engine_text::LogSpec;
use http_edge::RequestReader;
use session_model::{Followed, PumpEnd};
use std::alloc::Global;
use std::sync::Wait;
use std::thread::{Threads, join_mut};

// No more comes on the connection.
fn finish<W, T: Turns, K: Sink, C: Clock>(
    conn: &mut Connection<'_, W, T, K, C>,
) -> Result<(), Failed>
    ensures same { conn.new ≡ record conn.old { sink = conn.new.sink } }
    ensures says { FinishSays result conn.old.sink conn.new.sink }
{
    conn.sink.finish()
}

// Follows the stream, from wherever it could once be followed, and tells the peer its end as soon as it is whole, so that one
// that waits for the end may close.
fn follow_since<W: Wait, T: Turns, K: Sink, C: Clock>(
    conn: &mut Connection<'_, W, T, K, C>,
    spec: &LogSpec,
) -> Followed
    requires { IsNumber conn.old.pass.number conn.old.who.number }
    ensures same { conn.new.who ≡ conn.old.who }
    ensures follows { FollowsSince (LogStream spec.now) false result conn.old conn.new }
{
    let stream = Stream::Log(spec);
    let followed = follow(conn, &stream, false);
    match followed {
        Followed::Whole => match finish(conn) {
            Ok(()) => Followed::Whole,
            Err(Failed) => Followed::WriteFault,
        },
        followed => followed,
    }
}

// The same over what stands apart: a closure that is sent to a thread can't hold a connection that is lent.
fn follow_lent<'a, W: Wait, T: Turns, K: Sink, C: Clock>(
    rt: &'a W,
    alloc: Global,
    number: u32,
    turns: &'a mut T,
    sink: &'a mut K,
    clock: &'a mut C,
    spec: &LogSpec,
) -> Followed
    requires { IsNumber (T.pass turns.old).number number }
    ensures { FollowsLent number spec.now result (T.pass turns.old) (T.pass turns.new)
        (K.takes sink.old) (K.takes sink.new) (C.times clock.old) (C.times clock.new) }
{
    let mut conn = Connection {
        rt,
        alloc,
        number,
        turns,
        sink,
        clock,
    };
    let followed = follow_since(&mut conn, spec);
    let Connection {
        turns,
        sink,
        clock,
        ..
    } = conn;
    let _ = turns;
    let _ = sink;
    let _ = clock;
    followed
}

// Both sides in two threads, each with turns of its own.
fn side_by_side<R: Threads + Wait + Sync, T: Turns + Send, U: Turns, S: Source, K: Sink, C: Clock>(
    conn: &mut Connection<'_, R, U, K, C>,
    theirs: &mut T,
    twin: &mut C,
    spec: &LogSpec,
    reader: &mut RequestReader,
    source: &mut S,
) -> (PumpEnd, Followed)
    requires connection { IsConnection conn.old.who.number }
    requires theirs { IsNumber (T.pass theirs.old).number (input_of conn.old.who.number) }
    requires mine { IsNumber conn.old.pass.number conn.old.who.number }
    requires input { IsSomeAnd spec.now.feed (λ run. 1 ≤ run) }
    ensures same { conn.new.who ≡ conn.old.who }
    ensures pumped { PumpsInput conn.old.who.number spec.now result.0
        (T.pass theirs.old) (T.pass theirs.new) reader.old.ahead
        (S.gives source.old) (S.gives source.new) (C.times twin.old) (C.times twin.new) }
    ensures followed { FollowsSince (LogStream spec.now) false result.1 conn.old conn.new }
{
    let rt = conn.rt;
    let alloc = conn.alloc;
    let number = conn.number;
    let turns = &mut *conn.turns;
    let sink = &mut *conn.sink;
    let clock = &mut *conn.clock;
    let mut one = move ||
        requires connection { IsConnection number }
        requires number { IsNumber (T.pass theirs.now).number (input_of number) }
        requires input { IsSomeAnd spec.now.feed (λ run. 1 ≤ run) }
    { pump_stdin(rt, theirs, alloc, number, spec, reader, source, twin) };
    let mut two = move ||
        requires { IsNumber (U.pass turns.now).number number }
    { follow_lent(rt, alloc, number, turns, sink, clock, spec) };
    join_mut(rt, &mut one, &mut two)
}

// Pumps the connection's standard input while its stream is followed, in two threads; who takes all turns does one after the
// other. The pump has a twin of the clock.
fn both<R: Threads + Wait + Sync, T: Pairs, S: Source, K: Sink, C: Clock>(
    conn: &mut Connection<'_, R, T, K, C>,
    spec: &LogSpec,
    reader: &mut RequestReader,
    source: &mut S,
) -> (PumpEnd, Followed)
    requires connection { IsConnection conn.old.who.number }
    requires numbers { HasNumbers conn.old }
    requires input { IsSome spec.now.feed }
    requires may { MayFollow (state_after conn.old.pass.charter conn.old.pass.seen) spec.now }
    ensures same { conn.new.who ≡ conn.old.who }
    ensures runs { RunsOver spec.now result.1 (Some result.0) conn.old conn.new reader.old.ahead
        (S.gives source.old) (S.gives source.new) }
{
    let mut twin = conn.clock.twin();
    match conn.turns.part(conn.alloc, conn.number) {
        Some(mut other) => {
            let ends = side_by_side(conn, &mut other, &mut twin, spec, reader, source);
            conn.turns.rejoin(conn.number, Some(other));
            conn.clock.rejoin(twin);
            ends
        }
        None => {
            let end = pump_stdin(
                conn.rt,
                conn.turns,
                conn.alloc,
                conn.number,
                spec,
                reader,
                source,
                &mut twin,
            );
            let followed = follow_since(conn, spec);
            conn.clock.rejoin(twin);
            (end, followed)
        }
    }
}

/// Follows the stream of a log as it is, and tells the peer its end as soon as it is whole. Where the
/// stream's run takes input, the connection's standard input is pumped to it meanwhile: what was read
/// ahead, and what the source gives. It may wait.
pub fn take_over<R: Threads + Wait + Sync, T: Pairs, S: Source, K: Sink, C: Clock>(
    conn: &mut Connection<'_, R, T, K, C>,
    spec: &LogSpec,
    reader: &mut RequestReader,
    source: &mut S,
) -> (Followed, Option<PumpEnd>)
    requires connection { IsConnection conn.old.who.number }
    requires numbers { HasNumbers conn.old }
    requires may { MayFollow (state_after conn.old.pass.charter conn.old.pass.seen) spec.now }
    ensures same { conn.new.who ≡ conn.old.who }
    ensures runs { RunsOver spec.now result.0 result.1 conn.old conn.new reader.old.ahead
        (S.gives source.old) (S.gives source.new) }
{
    match spec.feed {
        None => {
            let followed = follow_since(conn, spec);
            (followed, None)
        }
        Some(_) => {
            let (end, followed) = both(conn, spec, reader, source);
            (followed, Some(end))
        }
    }
}
