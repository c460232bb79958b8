// Each session is polled, in order of number.
ghost use Rattle.std.specs.Prelude.{◌≡◌, ◌<◌, ◌≤◌, ◌+◌, ◌⊎◌, ℕ, true, false, [], IsTrue, IsFalse};
ghost use Rattle.std.specs.VecDeque.{deque_items, deque_len};
ghost use Rattle.futures.specs.Task.{IsArmed, Keeps};
ghost use Rattle.engine_ports.specs.Clock.{ClockHanded, ClockStood};
ghost use Rattle.engine_ports.specs.Rose.{Rose};
ghost use Rattle.engine_loop.specs.Standing.{CanServe, ComesOf, GoesOn, PausesSo, PollsAll, PollsOne, PollsConnection, is_open, ports_in, takes_more};
ghost use Rattle.session_poll.specs.Going.{IsArmedBy};
ghost use Rattle.session_poll.specs.Standing.{CanPoll, IsWoken};
ghost use Rattle.daemon_core.specs.Passing.{alone_pass};
ghost use Rattle.session_model.specs.Pass.{IsConnection};

use crate::connection::{Connection, Halves};
use crate::serving::Serving;
use crate::ticking::Ticking;
use api_routes::Routes;
use daemon_core::Alone;
use door_model::{called_by, worse_of};
use engine_ports::Pause;
use futures::task::Context;
use polled_ports::{PollDoor, PollSink, PollSource};
use session_poll::{Cause, Polled};
use std::alloc::Global;

/// How long the loop pauses before it polls again, in milliseconds.
const BREATH: u64 = 5;

/// What polls came to: all sessions wait for their sources and their sinks; one at least waits for the machine, and none
/// went on; or one at least went on.
#[derive(Clone, Copy, Debug)]
pub(crate) enum Rest {
    Ports,
    Machine,
    On,
}

impl Rest {
    fn is_for_machine(self) -> bool
        ensures { result ≡ true → self ≡ Rest.Machine }
    {
        match self {
            Rest::Machine => true,
            Rest::Ports | Rest::On => false,
        }
    }
}

/// What two of them come to.
fn both(one: Rest, other: Rest) -> Rest
    ensures { ComesOf one other result }
{
    match one {
        Rest::On => Rest::On,
        Rest::Ports => other,
        Rest::Machine => match other {
            Rest::On => Rest::On,
            Rest::Ports | Rest::Machine => Rest::Machine,
        },
    }
}

/// What a poll that isn't done comes to, by whether bytes were moved.
fn rest_of(cause: Cause, has_moved: bool) -> Rest
    ensures { result ≡ Rest.Machine → cause ≡ Cause.NotYet }
{
    if has_moved {
        return Rest::On;
    }
    match cause {
        Cause::Source | Cause::Sink => Rest::Ports,
        Cause::NotYet => Rest::Machine,
        Cause::Yield => Rest::On,
    }
}

impl<S: PollSource, K: PollSink> Halves<S, K> {
    /// Whether bytes were moved since this was asked last.
    fn has_moved(&mut self) -> bool
        ensures source { self.new.source.port ≡ self.old.source.port }
        ensures sink { self.new.sink.port ≡ self.old.sink.port }
    {
        let has_read = self.source.has_moved();
        let has_written = self.sink.has_moved();
        has_read || has_written
    }
}

impl<S: PollSource, K: PollSink> Connection<S, K> {
    /// Polls the session, at the moment now.
    fn poll<C: Ticking>(
        &mut self,
        alloc: Global,
        routes: &Routes,
        turns: &mut Alone,
        clock: &mut C,
        stop: bool,
        cx: &mut Context<'_>,
    ) -> Polled
        requires connection { IsConnection self.old.number }
        requires conn { self.old.session.conn ≡ self.old.number }
        requires stands { CanPoll (alone_pass turns.old).charter self.old.number self.old.session
            (alone_pass turns.old).seen (ports_in S.gives K.takes self.old.conn) }
        ensures polls { PollsConnection S.gives K.takes stop result (IsWoken cx.new) self.old self.new
            (alone_pass turns.old) (alone_pass turns.new) (C.times clock.old) (C.times clock.new) }
        ensures armed { IsArmedBy result cx.new }
        ensures ticks { C.which clock.new ≡ C.which clock.old }
        ensures kept { Keeps cx.old cx.new }
    {
        let handed = clock.now();
        let Connection {
            number: _,
            conn: Halves { source, sink },
            came: _,
            session,
        } = self;
        session.poll(alloc, routes, turns, handed, stop, source, sink, cx)
    }
}

impl<S: PollSource + Drop, K: PollSink + Drop> Serving<S, K> {
    /// Polls the first session, which then is the last one, or leaves its connection to the door.
    fn poll_first<D: PollDoor<From = S, Into = K>, C: Ticking>(
        &mut self,
        alloc: Global,
        routes: &Routes,
        door: &mut D,
        clock: &mut C,
        cx: &mut Context<'_>,
    ) -> Rest
        requires stands { CanServe S.gives K.takes self.old (D.opens door.old) (C.times clock.old) }
        requires first { 0 < deque_len self.old.connections }
        ensures goes { GoesOn S.gives K.takes self.old self.new
            (D.opens door.old) (D.opens door.new) (C.times clock.old) (C.times clock.new) }
        ensures polls { PollsOne S.gives K.takes (IsWoken cx.old) (IsWoken cx.new) result
            self.old self.new (D.opens door.old) (D.opens door.new)
            (C.times clock.old) (C.times clock.new) }
        ensures later { (C.times clock.old).stops ≤ (C.times clock.new).stops }
        ensures len { deque_len self.old.connections ≤ deque_len self.new.connections + 1 }
        ensures waits { (deque_len self.new.connections + 1 ≡ deque_len self.old.connections)
            ⊎ ((deque_len self.new.connections ≡ deque_len self.old.connections) × IsArmed cx.new) }
        ensures same { (self.new.coming ≡ self.old.coming) × (self.new.stop ≡ self.old.stop) }
        ensures registered { (D.opens door.new).registered ≡ (D.opens door.old).registered }
        ensures ticks { C.which clock.new ≡ C.which clock.old }
        ensures kept { Keeps cx.old cx.new }
    {
        let Some(mut connection) = self.connections.pop_front() else {
            unreachable!()
        };
        match connection.poll(alloc, routes, &mut self.turns, clock, self.stop, cx) {
            Polled::Pending(cause) => {
                let rest = rest_of(cause, connection.conn.has_moved());
                self.connections.push_back_reserved(connection);
                rest
            }
            Polled::Done(ending) => {
                self.worst = worse_of(self.worst, called_by(ending));
                connection.leave(door);
                Rest::On
            }
        }
    }

    /// Polls each session once.
    fn poll_all<D: PollDoor<From = S, Into = K>, C: Ticking>(
        &mut self,
        alloc: Global,
        routes: &Routes,
        door: &mut D,
        clock: &mut C,
        cx: &mut Context<'_>,
    ) -> Rest
        requires stands { CanServe S.gives K.takes self.old (D.opens door.old) (C.times clock.old) }
        ensures goes { GoesOn S.gives K.takes self.old self.new
            (D.opens door.old) (D.opens door.new) (C.times clock.old) (C.times clock.new) }
        ensures polls { PollsAll S.gives K.takes (IsWoken cx.new) result self.old self.new
            (D.opens door.old) (D.opens door.new) (C.times clock.old) (C.times clock.new) }
        ensures later { (C.times clock.old).stops ≤ (C.times clock.new).stops }
        ensures waits { (deque_len self.new.connections ≡ 0) ⊎ IsArmed cx.new }
        ensures same { (self.new.coming ≡ self.old.coming) × (self.new.stop ≡ self.old.stop) }
        ensures registered { (D.opens door.new).registered ≡ (D.opens door.old).registered }
        ensures ticks { C.which clock.new ≡ C.which clock.old }
        ensures kept { Keeps cx.old cx.new }
    {
        let mut rest = Rest::Ports;
        for _ in 0..self.connections.len() {
            rest = both(rest, self.poll_first(alloc, routes, door, clock, cx));
        }
        rest
    }

    /// Waits a little, or is stopped.
    fn pause<C: Ticking>(&mut self, clock: &mut C)
        ensures stood { ClockStood (C.times clock.old) (C.times clock.new) }
        ensures stops { IsTrue self.new.stop
            → IsTrue self.old.stop ⊎ Rose (C.times clock.old).stops (C.times clock.new).stops }
        ensures still { IsTrue self.old.stop → IsTrue self.new.stop }
        ensures same { self.new ≡ record self.old { stop = self.new.stop } }
        ensures ticks { C.which clock.new ≡ C.which clock.old }
    {
        if let Pause::Stop = clock.pause(BREATH) {
            self.stop = true;
        }
    }

    /// Whether all that were to come have come, and have left.
    fn is_over(&self) -> bool
        ensures over { result ≡ true → (deque_items self.now.connections ≡ [])
            × (IsTrue self.now.stop ⊎ (is_open self.now.coming ≡ false)) }
        ensures not_yet { result ≡ false → (0 < deque_len self.now.connections)
            ⊎ IsTrue (takes_more S.gives K.takes self.now) }
    {
        self.connections.is_empty() && (self.stop || !self.coming.is_open())
    }

    /// One poll of the loop; whether it is over.
    pub(crate) fn go_on<D: PollDoor<From = S, Into = K>, C: Ticking>(
        &mut self,
        alloc: Global,
        routes: &Routes,
        door: &mut D,
        clock: &mut C,
        cx: &mut Context<'_>,
    ) -> bool
        requires stands { CanServe S.gives K.takes self.old (D.opens door.old) (C.times clock.old) }
        ensures goes { GoesOn S.gives K.takes self.old self.new
            (D.opens door.old) (D.opens door.new) (C.times clock.old) (C.times clock.new) }
        ensures over { result ≡ true → (deque_items self.new.connections ≡ [])
            × (IsTrue self.new.stop ⊎ (is_open self.new.coming ≡ false)) }
        ensures pauses { result ≡ false → PausesSo S.gives K.takes (IsWoken cx.new)
            self.old self.new (D.opens door.old) (D.opens door.new)
            (C.times clock.old) (C.times clock.new) }
        ensures armed { result ≡ false → IsArmed cx.new }
        ensures ticks { C.which clock.new ≡ C.which clock.old }
        ensures kept { Keeps cx.old cx.new }
    {
        self.accept_all(alloc, door, cx);
        let rest = self.poll_all(alloc, routes, door, clock, cx);
        if self.is_over() {
            return true;
        }
        if rest.is_for_machine() {
            self.pause(clock);
        }
        false
    }
}
