// A door whose connections are behind fronts.
ghost use Rattle.std.specs.Prelude.{◌≡◌, IfOk};
ghost use Rattle.front_session.specs.Sharing.{IsUnused};

use crate::parting::{FrontPast, Left};
use crate::reading::FrontSource;
use crate::sharing::SharedSink;
use crate::stepping::FrontState;
use engine_ports::{Arrival, Door, Failed, NoMemory};
use std::alloc::Global;
use std::sync::Wait;
use std::thread;
use std::time::{self, Duration};

/// How long until memory for a front is asked for again, in milliseconds.
const BREATH: u64 = 10;

/// A door whose connections are behind fronts. It tells no connections.
#[derive(Drop)]
pub struct FrontDoor<'a, R, D> {
    rt: &'a R,
    alloc: Global,
    door: D,
}

impl<'a, R, D> FrontDoor<'a, R, D> {
    pub fn new(rt: &'a R, alloc: Global, door: D) -> FrontDoor<'a, R, D>
        ensures { result.door ≡ door }
    {
        FrontDoor { rt, alloc, door }
    }

    /// The door below.
    pub fn into_door(self) -> D
        ensures { result ≡ self.entry.door }
    {
        let FrontDoor { door, .. } = self;
        door
    }
}

/// The memory of a front and of a sink that is shared.
#[derive(Drop)]
struct Place<'a, R, K> {
    front: FrontState,
    ours: SharedSink<'a, R, K>,
    theirs: SharedSink<'a, R, K>,
}

fn make_place<'a, R: Wait, K: Drop>(rt: &'a R, alloc: Global) -> Result<Place<'a, R, K>, NoMemory>
    ensures { IfOk result IsUnused }
{
    let (ours, theirs) = SharedSink::pair(rt, alloc)?;
    Ok(Place {
        front: FrontState::new(alloc)?,
        ours,
        theirs,
    })
}

/// The same, once there is memory. It may wait.
fn await_place<'a, R: Wait + time::Clock, K: Drop>(rt: &'a R, alloc: Global) -> Place<'a, R, K>
    ensures { IsUnused result }
{
    for _ in rt.forever() {
        if let Ok(place) = make_place(rt, alloc) {
            return place;
        }
        thread::sleep(rt, Duration::from_millis(BREATH));
    }
    unreachable!()
}

impl<'a, R: Wait + time::Clock + Sync, D: Door> Door for FrontDoor<'a, R, D> {
    ghost use Rattle.engine_ports.specs.Door.{outside, AcceptSays};
    ghost use Rattle.front_session.specs.Views.{source_over};
    ghost use Rattle.front_session.specs.Sharing.{sink_over, untold, BeginsNew};

    type From = FrontSource<'a, R, D::From, SharedSink<'a, R, D::Into>>;

    type Into = SharedSink<'a, R, D::Into>;

    type Time = D::Time;

    type Past = FrontPast<D::Past, D::Time>;

    ghost opens = { λ d. untold (D.opens d.door) };

    fn bind(&mut self, addr: &str) -> Result<(), Failed> {
        self.door.bind(addr)
    }

    // The memory is taken before a connection comes, so that none is lost. It may wait.
    fn accept(
        &mut self,
    ) -> Arrival<
        FrontSource<'a, R, D::From, SharedSink<'a, R, D::Into>>,
        SharedSink<'a, R, D::Into>,
        D::Time,
    >
        ensures says { AcceptSays (λ s k c. outside (source_over s) (sink_over k) (D.Time.times c))
            result (untold (D.opens self.old.door)) (untold (D.opens self.new.door)) }
        ensures begins { BeginsNew result }
    {
        let Place {
            front,
            ours,
            theirs,
        } = await_place(self.rt, self.alloc);
        match self.door.accept() {
            Arrival::Conn(from, into, time) => {
                theirs.put(into);
                let source = FrontSource::new(self.rt, front, from, ours);
                Arrival::Conn(source, theirs, time)
            }
            Arrival::Shut => Arrival::Shut,
            Arrival::Failed => Arrival::Failed,
        }
    }

    fn leave(&mut self, number: u32, past: FrontPast<D::Past, D::Time>) {
        let FrontPast { left, .. } = past;
        match left {
            Left::Parted(past) => self.door.leave(number, past),
            Left::Clock(time) => drop(time),
        }
    }
}
