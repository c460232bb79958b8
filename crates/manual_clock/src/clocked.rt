// A door whose connections go by the shared time.
ghost use Rattle.std.specs.Prelude.{◌≡◌, ◌<◌};
ghost use Rattle.manual_clock.specs.Shared.{manual_clock_over, with_stops, untold};

use crate::sharing::{ManualClock, SharedTime};
use engine_ports::{Arrival, Clock, Door, Failed, Parting, Pause, Sink, Source};
use std::sync::Wait;
use std::time;

/// A connection's clock over the shared time, beside the one that it came with, which isn't asked.
#[derive(Drop)]
pub struct ConnectionClock<'a, R, C> {
    own: ManualClock<'a, R>,
    came_with: C,
}

impl<R: Wait + time::Clock + Sync, C: Clock + Drop> Clock for ConnectionClock<'_, R, C> {
    ghost times = { λ c. manual_clock_over c.own };

    fn now(&mut self) -> u64 {
        self.own.now()
    }

    fn pause(&mut self, ms: u64) -> Pause {
        self.own.pause(ms)
    }

    fn twin(&self) -> Self {
        ConnectionClock {
            own: self.own.twin(),
            came_with: self.came_with.twin(),
        }
    }

    fn rejoin(&mut self, other: Self) {
        let ConnectionClock { own, came_with } = other;
        drop(came_with);
        self.own.rejoin(own);
    }
}

/// What is left of a connection, with the stops of its own clock.
#[derive(Drop)]
pub struct ManualPast<P> {
    past: P,
    stops: u64,
}

impl<'a, R, F: Source, I: Sink, C: Clock, P: Parting<F, I, C>> Parting<
    F,
    I,
    ConnectionClock<'a, R, C>,
> for ManualPast<P>
where
    R: Wait + time::Clock + Sync,
    C: Drop,
{
    ghost tells = { λ p. with_stops p.stops (P.tells p.past) };

    fn part(from: F, into: I, time: ConnectionClock<'a, R, C>) -> Self {
        let ConnectionClock { own, came_with } = time;
        let stops = own.stops();
        ManualPast {
            past: P::part(from, into, came_with),
            stops,
        }
    }
}

/// A door whose connections go by a shared time. It tells no connections.
#[derive(Drop)]
pub struct ManualDoor<'a, R, D> {
    rt: &'a R,
    time: &'a SharedTime,
    door: D,
}

impl<'a, R, D: Door> ManualDoor<'a, R, D> {
    pub fn new(rt: &'a R, time: &'a SharedTime, door: D) -> ManualDoor<'a, R, D>
        ensures { result.door ≡ door }
    {
        ManualDoor { rt, time, door }
    }

    /// The door below.
    pub fn into_door(self) -> D
        ensures { result ≡ self.entry.door }
    {
        let ManualDoor { door, .. } = self;
        door
    }
}

impl<'a, R: Wait + time::Clock + Sync, D: Door> Door for ManualDoor<'a, R, D> {
    type From = D::From;

    type Into = D::Into;

    type Time = ConnectionClock<'a, R, D::Time>;

    type Past = ManualPast<D::Past>;

    ghost opens = { λ d. untold (D.opens d.door) };

    fn bind(&mut self, addr: &str) -> Result<(), Failed> {
        self.door.bind(addr)
    }

    fn accept(&mut self) -> Arrival<D::From, D::Into, ConnectionClock<'a, R, D::Time>> {
        match self.door.accept() {
            Arrival::Conn(from, into, came_with) => Arrival::Conn(
                from,
                into,
                ConnectionClock {
                    own: ManualClock::new(self.rt, self.time),
                    came_with,
                },
            ),
            Arrival::Shut => Arrival::Shut,
            Arrival::Failed => Arrival::Failed,
        }
    }

    fn leave(&mut self, number: u32, past: ManualPast<D::Past>) {
        let ManualPast { past, .. } = past;
        self.door.leave(number, past);
    }
}
