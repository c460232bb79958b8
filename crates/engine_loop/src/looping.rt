// One loop over all connections of a door.
ghost use Rattle.std.specs.Prelude.{◌≡◌, ◌⊎◌, [], true, false, IfSome, IfNone, IsTrue};
ghost use Rattle.std.specs.VecDeque.{deque_items};
ghost use Rattle.futures.specs.Poll.{IfReady, OnPending};
ghost use Rattle.futures.specs.Task.{Covers, IsArmed, Keeps};
ghost use Rattle.session_model.specs.declared.ending.Worst.TheVariants as worst;
ghost use Rattle.engine_ports.specs.Rose.{Rose};
ghost use Rattle.daemon_core.specs.Passing.{alone_pass, whole_pass};
ghost use Rattle.door_model.specs.Connections.{most_from};
ghost use Rattle.door_model.specs.Worsts.{worse_of};
ghost use Rattle.engine_loop.specs.Looping.{BeginsLoop, CanPollLoop, GivesLoop, LoopWaits};
ghost use Rattle.engine_loop.specs.Running.{RunsLoop};
ghost use Rattle.engine_loop.specs.Standing.{CanServe, GoesOn, PausesSo, is_open, why_of};
ghost use Rattle.session_poll.specs.Standing.{IsWoken};

use crate::coming::Coming;
use crate::serving::Serving;
use crate::ticking::{LentClock, Ticking};
use api_routes::Routes;
use daemon_core::{Alone, Daemon};
use door_model::worse_of;
use engine_ports::Clock;
use futures::Future;
use futures::task::{Context, Poll};
use polled_ports::{PollDoor, Runner};
use session_model::Worst;
use std::alloc::Global;
use std::collections::VecDeque;
use std::snapshot::Snapshot;

/// What a loop leaves: the door and the clock are those that it was lent.
#[derive(Drop)]
pub struct Finished<'a, D: PollDoor, T> {
    pub worst: Worst,
    pub daemon: Daemon,
    pub door: &'a mut D,
    pub clock: T,
}

/// What a loop holds while it runs.
#[derive(Drop)]
pub(crate) struct Held<'a, D: PollDoor, T> {
    pub(crate) serving: Serving<D::From, D::Into>,
    pub(crate) door: &'a mut D,
    pub(crate) clock: T,
}

/// All connections of a door, served in one thread.
#[derive(Drop)]
pub struct Loop<'a, D: PollDoor, T> {
    alloc: Global,
    routes: &'a Routes,
    held: Option<Held<'a, D, T>>,
    began: Snapshot<Held<'a, D, T>>,
}

impl<'a, D: PollDoor, T: Ticking> Loop<'a, D, T> {
    /// A loop over the connections of a bound door, numbered from `first` on, `limit` of them at most. It takes no memory.
    pub fn new(
        alloc: Global,
        routes: &'a Routes,
        daemon: Daemon,
        first: u32,
        limit: Option<u32>,
        door: &'a mut D,
        clock: T,
    ) -> Loop<'a, D, T>
        ensures { BeginsLoop D.From.gives D.Into.takes D.opens T.times T.which first limit
            (whole_pass daemon) door.entry clock result }
    {
        let serving = Serving {
            turns: Alone::new(daemon),
            connections: VecDeque::new(alloc),
            coming: Coming::new(first, limit),
            worst: Worst::Closed,
            stop: false,
        };
        let held = Held {
            serving,
            door,
            clock,
        };
        let began = Snapshot::of(&held);
        Loop {
            alloc,
            routes,
            held: Some(held),
            began,
        }
    }
}

impl<'a, D: PollDoor, T: Ticking> Held<'a, D, T> {
    /// One poll; whether it is over.
    fn go_on(&mut self, alloc: Global, routes: &Routes, cx: &mut Context<'_>) -> bool
        requires stands { CanServe D.From.gives D.Into.takes self.old.serving
            (D.opens self.old.door.now) (T.times self.old.clock) }
        ensures goes { GoesOn D.From.gives D.Into.takes self.old.serving self.new.serving
            (D.opens self.old.door.now) (D.opens self.new.door.now)
            (T.times self.old.clock) (T.times self.new.clock) }
        ensures over { result ≡ true → (deque_items self.new.serving.connections ≡ [])
            × (IsTrue self.new.serving.stop ⊎ (is_open self.new.serving.coming ≡ false)) }
        ensures pauses { result ≡ false → PausesSo D.From.gives D.Into.takes (IsWoken cx.new)
            self.old.serving self.new.serving (D.opens self.old.door.now)
            (D.opens self.new.door.now) (T.times self.old.clock) (T.times self.new.clock) }
        ensures armed { result ≡ false → IsArmed cx.new }
        ensures kept { Keeps cx.old cx.new }
        ensures lent { (self.new.door.ghost_name ≡ self.old.door.ghost_name)
            × (T.which self.new.clock ≡ T.which self.old.clock) }
    {
        let door = &mut *self.door;
        self.serving.go_on(alloc, routes, door, &mut self.clock, cx)
    }

    /// What is left of it.
    fn finish(self) -> Finished<'a, D, T>
        ensures worst { result.worst
            ≡ worse_of (why_of self.entry.serving.coming.end) self.entry.serving.worst }
        ensures daemon { whole_pass result.daemon ≡ alone_pass self.entry.serving.turns }
        ensures lent { (result.door ≡ self.entry.door) × (result.clock ≡ self.entry.clock) }
    {
        let Held {
            serving,
            door,
            clock,
        } = self;
        let (worst, daemon) = serving.finish();
        Finished {
            worst,
            daemon,
            door,
            clock,
        }
    }
}

impl<'a, D: PollDoor, T: Ticking> Loop<'a, D, T> {
    /// `poll`, with a contract that says what it waits for where it isn't ready.
    pub fn go_on(&mut self, cx: &mut Context<'_>) -> Poll<Finished<'a, D, T>>
        requires { CanPollLoop D.From.gives D.Into.takes D.opens T.times T.which self.old }
        ensures value { IfReady result
            (GivesLoop D.From.gives D.Into.takes D.opens T.times T.which self.old) }
        ensures again { OnPending result
            (CanPollLoop D.From.gives D.Into.takes D.opens T.times T.which self.new) }
        ensures waits { OnPending result (LoopWaits D.From.gives D.Into.takes D.opens
            T.times T.which (IsWoken cx.new) self.old self.new) }
        ensures same { OnPending result ((x : _)
            → GivesLoop D.From.gives D.Into.takes D.opens T.times T.which self.new x
            → GivesLoop D.From.gives D.Into.takes D.opens T.times T.which self.old x) }
        ensures registered { OnPending result (Covers cx.new (λ _. ⊥)) }
        ensures kept { Keeps cx.old cx.new }
    {
        let alloc = self.alloc;
        let routes = self.routes;
        let Some(held) = &mut self.held else {
            unreachable!()
        };
        if !held.go_on(alloc, routes, cx) {
            return Poll::Pending;
        }
        match self.held.take() {
            Some(held) => Poll::Ready(held.finish()),
            None => unreachable!(),
        }
    }
}

impl<'a, D: PollDoor, T: Ticking> Future for Loop<'a, D, T> {
    type Output = Finished<'a, D, T>;

    ghost can_poll = { CanPollLoop D.From.gives D.Into.takes D.opens T.times T.which };

    ghost gives = { GivesLoop D.From.gives D.Into.takes D.opens T.times T.which };

    fn poll(&mut self, cx: &mut Context<'_>) -> Poll<Finished<'a, D, T>> {
        self.go_on(cx)
    }
}

/// Serves the connections of a bound door by a daemon, all in this thread: numbered from `first` on, `limit` of them at most.
/// The daemon comes back once all sessions have ended, where the runner didn't fail.
pub fn run_loop<D: PollDoor, C: Clock, R: Runner>(
    alloc: Global,
    routes: &Routes,
    daemon: Daemon,
    first: u32,
    limit: Option<u32>,
    door: &mut D,
    clock: &mut C,
    runner: &mut R,
) -> (Worst, Option<Daemon>)
    ensures some { IfSome result.1 (λ d. RunsLoop first (most_from first limit) result.0
        (whole_pass daemon) (whole_pass d) (D.opens door.old) (D.opens door.new)
        (C.times clock.old) (C.times clock.new)) }
    ensures none { IfNone result.1
        ((result.0 ≡ worst.Fault) × Rose (R.faults runner.old) (R.faults runner.new)) }
{
    let lent = LentClock { clock };
    let all = Loop::new(alloc, routes, daemon, first, limit, door, lent);
    match runner.run(all) {
        Ok(finished) => {
            let Finished {
                worst,
                daemon,
                door: back,
                clock: LentClock { clock: ticked },
            } = finished;
            let _ = back;
            let _ = ticked;
            (worst, Some(daemon))
        }
        Err(_) => (Worst::Fault, None),
    }
}
