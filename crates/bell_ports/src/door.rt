// A door whose connections share a bell.
use crate::bell::Bell;
use crate::clock::BellClock;
use crate::source::BellSource;
use engine_ports::{Arrival, Clock, Door, Failed, Parting, Sink, Source};
use std::sync::Wait;

/// What is left of a connection: what the door below keeps of it.
#[derive(Drop)]
pub struct BellPast<P> {
    past: P,
}

impl<'b, R, F, I, C, P> Parting<BellSource<'b, F>, I, BellClock<'b, R, C>> for BellPast<P>
where
    R: Wait + Sync,
    F: Source + Drop,
    I: Sink,
    C: Clock + Drop,
    P: Parting<F, I, C>,
{
    ghost tells = { λ p. P.tells p.past };

    /// Ends a connection, and rings: what it has served last is seen at once.
    fn part(from: BellSource<'b, F>, into: I, time: BellClock<'b, R, C>) -> Self {
        BellPast {
            past: P::part(from.into_source(), into, time.into_clock()),
        }
    }
}

/// A door whose connections share a bell. Of its connections it tells what the door below tells.
#[derive(Drop)]
pub struct BellDoor<'b, R, D> {
    rt: &'b R,
    bell: &'b Bell,
    door: D,
}

impl<'b, R, D: Door> BellDoor<'b, R, D> {
    ghost use Rattle.std.specs.Prelude.{◌≡◌};

    pub fn new(rt: &'b R, bell: &'b Bell, door: D) -> BellDoor<'b, R, D>
        ensures { result.door ≡ door }
    {
        BellDoor { rt, bell, door }
    }
}

impl<'b, R: Wait + Sync, D: Door> Door for BellDoor<'b, R, D> {
    type From = BellSource<'b, D::From>;

    type Into = D::Into;

    type Time = BellClock<'b, R, D::Time>;

    type Past = BellPast<D::Past>;

    ghost opens = { λ d. D.opens d.door };

    fn bind(&mut self, addr: &str) -> Result<(), Failed> {
        self.door.bind(addr)
    }

    fn accept(&mut self) -> Arrival<BellSource<'b, D::From>, D::Into, BellClock<'b, R, D::Time>> {
        match self.door.accept() {
            Arrival::Conn(from, into, time) => Arrival::Conn(
                BellSource::new(self.bell, from),
                into,
                BellClock::new(self.rt, self.bell, time),
            ),
            Arrival::Shut => Arrival::Shut,
            Arrival::Failed => Arrival::Failed,
        }
    }

    fn leave(&mut self, number: u32, past: BellPast<D::Past>) {
        let BellPast { past } = past;
        self.door.leave(number, past);
    }
}
