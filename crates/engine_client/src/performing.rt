// A command, performed step by step.
ghost use Rattle.std.specs.Prelude.{◌≡◌, Some};
ghost use Rattle.engine_ports.specs.Link.{but_for};
ghost use Rattle.http_edge.specs.Message.{Request};
ghost use Rattle.client_model.specs.Plans.{Plan, named};
ghost use Rattle.client_model.specs.Requests.{request_bytes};
ghost use Rattle.client_model.specs.Client.{plan_of};
ghost use Rattle.client_exchange.specs.Asking.{asked_as, asks_then};
ghost use Rattle.client_exchange.specs.Exchanges.{reach};
ghost use Rattle.engine_client.specs.Places.{IsStep, IsTimed, feeds_at, plan_at};
ghost use Rattle.engine_client.specs.Performing.{AskedSays, Follows, IsFirst, IsInTime, PerformSays, performed_of};
ghost use Rattle.engine_client.specs.Running.{Ran, outside_of};

use crate::beginning::begin;
use crate::going_on::next;
use crate::onward::Then;
use crate::performed::Performed;
use crate::replaying::replay_journal;
use crate::step::Step;
use crate::writing::write_all;
use client_exchange::{Ask, Body, Outside, ask};
use client_model::{Command, Fault};
use engine_ports::{Link, Sink, Source};
use std::alloc::Global;
use std::sync::Wait;

/// The step behind an answer that doesn't refuse.
fn go_on(alloc: Global, place: &Then, body: Body) -> Result<Performed, Fault>
    ensures { Follows result (feeds_at place.now) (named body.line (Some body.status)
        (plan_at place.now body.first body.bytes.items body.whole)) }
{
    match next(alloc, place, body) {
        Ok(step) => Ok(Performed::On(step)),
        Err(fault) => Err(fault),
    }
}

/// Asks, and tells the step behind the answer.
fn ask_and_go_on<W: Wait, L: Link, N: Source, K: Sink, E: Sink>(
    rt: &W,
    alloc: Global,
    outside: &mut Outside<L, N, K, E>,
    address: &str,
    request: &Ask,
    place: &Then,
) -> Result<Performed, Fault>
    ensures { (r : Request) → request.now.request.items ≡ request_bytes r
        → AskedSays request.now.input (feeds_at place.now)
        (asks_then (asked_as r request.now.input request.now.showing) (plan_at place.now)) result
        (N.gives outside.old.input) (N.gives outside.new.input)
        (reach (but_for address.now (L.links outside.old.link)) (K.takes outside.old.out)
        (E.takes outside.old.errors))
        (reach (but_for address.now (L.links outside.new.link)) (K.takes outside.new.out)
        (E.takes outside.new.errors)) }
{
    match ask(rt, alloc, outside, address, request) {
        Ok(body) => go_on(alloc, place, body),
        Err(fault) => Err(fault),
    }
}

/// The command ended so.
fn ended(end: Result<u8, Fault>) -> Result<Performed, Fault>
    ensures { result ≡ performed_of end }
{
    match end {
        Ok(status) => Ok(Performed::Ended(status)),
        Err(fault) => Err(fault),
    }
}

/// Performs one step.
fn perform<W: Wait, L: Link, N: Source, K: Sink, E: Sink>(
    rt: &W,
    alloc: Global,
    outside: &mut Outside<L, N, K, E>,
    address: &str,
    step: &Step,
) -> Result<Performed, Fault>
    requires { IsInTime step.now }
    ensures { (plan : Plan) → IsStep step.now plan → PerformSays step.now plan result
        (N.gives outside.old.input) (N.gives outside.new.input)
        (reach (but_for address.now (L.links outside.old.link)) (K.takes outside.old.out)
        (E.takes outside.old.errors))
        (reach (but_for address.now (L.links outside.new.link)) (K.takes outside.new.out)
        (E.takes outside.new.errors)) }
{
    match step {
        Step::Asks { ask, place } => ask_and_go_on(rt, alloc, outside, address, ask, place),
        Step::Writes { text, status } => ended(write_all(&mut outside.out, text, *status)),
        Step::Judges {
            upgrade,
            seed,
            moment,
        } => ended(replay_journal(
            rt,
            alloc,
            *upgrade,
            *seed,
            *moment,
            &mut outside.input,
            &mut outside.out,
        )),
    }
}

/// Performs steps from the first on to the end.
fn perform_all<W: Wait, L: Link, N: Source, K: Sink, E: Sink>(
    rt: &W,
    alloc: Global,
    outside: &mut Outside<L, N, K, E>,
    address: &str,
    first: Step,
) -> Result<u8, Fault>
    requires { IsFirst first }
    ensures { (plan : Plan) → IsStep first plan → Ran address.now plan result
        (outside_of (L.links outside.old.link) (N.gives outside.old.input)
        (K.takes outside.old.out) (E.takes outside.old.errors))
        (outside_of (L.links outside.new.link) (N.gives outside.new.input)
        (K.takes outside.new.out) (E.takes outside.new.errors)) }
{
    let mut step = first;
    for _ in rt.forever() {
        match perform(rt, alloc, outside, address, &step) {
            Ok(Performed::On(after)) => step = after,
            Ok(Performed::Ended(status)) => return Ok(status),
            Err(fault) => return Err(fault),
        }
    }
    unreachable!()
}

/// Runs a command.
pub(crate) fn run_command<W: Wait, L: Link, N: Source, K: Sink, E: Sink>(
    rt: &W,
    alloc: Global,
    outside: &mut Outside<L, N, K, E>,
    address: &str,
    command: &Command,
) -> Result<u8, Fault>
    requires { IsTimed command.now }
    ensures { Ran address.now (plan_of command.now) result
        (outside_of (L.links outside.old.link) (N.gives outside.old.input)
        (K.takes outside.old.out) (E.takes outside.old.errors))
        (outside_of (L.links outside.new.link) (N.gives outside.new.input)
        (K.takes outside.new.out) (E.takes outside.new.errors)) }
{
    match begin(alloc, command) {
        Ok(step) => perform_all(rt, alloc, outside, address, step),
        Err(fault) => Err(fault),
    }
}
