// Connections are taken in, as many as are there.
ghost use Rattle.std.specs.Prelude.{◌≡◌, ◌<◌, true, false, None, IfOk, OnOk};
ghost use Rattle.std.specs.VecDeque.{deque_items, deque_len, deque_capacity};
ghost use Rattle.futures.specs.Task.{Keeps};
ghost use Rattle.engine_ports.specs.Clock.{ClockView};
ghost use Rattle.polled_ports.specs.PollDoor.{untimed};
ghost use Rattle.session_poll.specs.Standing.{IsNew};
ghost use Rattle.engine_loop.specs.Standing.{CanServe, DoorWaits, GoesOn, MayTake, StandStill, TakesOne, one_less};

use crate::connection::{Connection, Halves};
use crate::serving::Serving;
use door_model::worse_of;
use engine_text::NoMemory;
use futures::task::{Context, Poll};
use polled_ports::{Accepted, PollDoor, PollSink, PollSource};
use session_model::Worst;
use session_poll::Session;
use std::alloc::Global;
use std::snapshot::Snapshot;

impl<S: PollSource + Drop, K: PollSink + Drop> Serving<S, K> {
    /// A session for the next connection, and room for it.
    fn prepare(&mut self, alloc: Global) -> Result<Session, NoMemory>
        ensures ok { IfOk result (IsNew self.old.coming.next) }
        ensures room { OnOk result (deque_len self.new.connections < deque_capacity self.new.connections) }
        ensures connections { deque_items self.new.connections ≡ deque_items self.old.connections }
        ensures same { self.new ≡ record self.old { connections = self.new.connections } }
    {
        let session = Session::new(alloc, self.coming.next)?;
        self.connections.reserve(1)?;
        Ok(session)
    }

    /// Takes a connection in that came; or leaves it to the door unread, for want of memory.
    fn take_in<D: PollDoor<From = S, Into = K>>(
        &mut self,
        alloc: Global,
        door: &mut D,
        source: S,
        sink: K,
    )
        requires may { MayTake self.old.coming }
        requires owed { 0 < (D.opens door.old).door.owed }
        ensures takes { TakesOne S.gives K.takes self.old self.new
            (untimed (S.gives source) (K.takes sink)) (D.opens door.old) (D.opens door.new) }
        ensures stood { StandStill S.gives K.takes self.old self.new }
        ensures coming { self.new.coming ≡ one_less self.old.coming }
        ensures stop { self.new.stop ≡ self.old.stop }
        ensures registered { (D.opens door.new).registered ≡ (D.opens door.old).registered }
    {
        let number = self.coming.next;
        let prepared = self.prepare(alloc);
        self.coming.next = number + 1;
        self.coming.left -= 1;
        match prepared {
            Ok(session) => {
                let conn = Halves::new(source, sink);
                let came = Snapshot::of(&conn);
                self.connections.push_back_reserved(Connection {
                    number,
                    conn,
                    came,
                    session,
                });
            }
            Err(NoMemory) => {
                self.worst = worse_of(self.worst, Worst::NoMemory);
                door.leave(number, source, sink);
            }
        }
    }

    /// Takes in the next one, if it is there; whether another may be.
    fn accept_one<D: PollDoor<From = S, Into = K>>(
        &mut self,
        alloc: Global,
        door: &mut D,
        cx: &mut Context<'_>,
    ) -> bool
        requires may { MayTake self.old.coming }
        ensures goes { (t : ClockView) → GoesOn S.gives K.takes self.old self.new
            (D.opens door.old) (D.opens door.new) t t }
        ensures stood { StandStill S.gives K.takes self.old self.new }
        ensures came { result ≡ true → (self.new.coming ≡ one_less self.old.coming)
            × ((D.opens door.new).registered ≡ (D.opens door.old).registered) }
        ensures waits { result ≡ false → DoorWaits S.gives K.takes self.new cx.new
            (D.opens door.old) (D.opens door.new) }
        ensures stop { self.new.stop ≡ self.old.stop }
        ensures kept { Keeps cx.old cx.new }
    {
        match door.poll_accept(cx) {
            Poll::Ready(Accepted::Conn(source, sink)) => {
                self.take_in(alloc, door, source, sink);
                return true;
            }
            Poll::Ready(Accepted::Shut) => self.coming.end = Some(Worst::Closed),
            Poll::Ready(Accepted::Failed) => self.coming.end = Some(Worst::Fault),
            Poll::Pending => {}
        }
        false
    }

    /// Takes in all that are there, where one more may come.
    pub(crate) fn accept_all<D: PollDoor<From = S, Into = K>>(
        &mut self,
        alloc: Global,
        door: &mut D,
        cx: &mut Context<'_>,
    )
        requires stands { (t : ClockView) × CanServe S.gives K.takes self.old (D.opens door.old) t }
        ensures goes { (t : ClockView) → GoesOn S.gives K.takes self.old self.new
            (D.opens door.old) (D.opens door.new) t t }
        ensures stood { StandStill S.gives K.takes self.old self.new }
        ensures waits { DoorWaits S.gives K.takes self.new cx.new
            (D.opens door.old) (D.opens door.new) }
        ensures stop { self.new.stop ≡ self.old.stop }
        ensures kept { Keeps cx.old cx.new }
    {
        if self.stop || self.coming.end.is_some() {
            return;
        }
        for _ in 0..self.coming.left {
            if !self.accept_one(alloc, door, cx) {
                break;
            }
        }
    }
}
