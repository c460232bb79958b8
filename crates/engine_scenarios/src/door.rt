// A door through which the connections of a talk come, each at its first slot.
use crate::course::Course;
use crate::ports::{TalkClock, TalkPast, TalkSink, TalkSource};
use engine_ports::{Arrival, Door, Failed, NoDoor};
use std::alloc::Global;
use std::sync::Wait;

/// A door to a talk. It tells no connections.
#[derive(Drop)]
pub struct TalkDoor<'a, R> {
    rt: &'a R,
    course: &'a Course,
    next: u32,
    bound: NoDoor,
}

impl<'a, R> TalkDoor<'a, R> {
    /// A door that isn't bound yet.
    pub fn new(rt: &'a R, alloc: Global, course: &'a Course) -> TalkDoor<'a, R> {
        TalkDoor {
            rt,
            course,
            next: 0,
            bound: NoDoor::new(alloc),
        }
    }
}

impl<'a, R: Wait + Sync> Door for TalkDoor<'a, R> {
    ghost use Rattle.std.specs.Prelude.{None};

    type From = TalkSource<'a, R>;

    type Into = TalkSink<'a, R>;

    type Time = TalkClock<'a, R>;

    type Past = TalkPast;

    ghost opens = { λ d. record (⟦<NoDoor as Door>⟧.opens d.bound) { coming = None } };

    fn bind(&mut self, addr: &str) -> Result<(), Failed> {
        self.bound.bind(addr)
    }

    fn accept(&mut self) -> Arrival<TalkSource<'a, R>, TalkSink<'a, R>, TalkClock<'a, R>> {
        let who = self.next;
        let rt = self.rt;
        let course = self.course;
        if !course.comes(rt, who) {
            return Arrival::Shut;
        }
        self.next = who.saturating_add(1);
        let source = TalkSource::new(rt, course, who);
        let sink = TalkSink {
            rt,
            course,
            who,
            faults: 0,
        };
        let clock = TalkClock {
            rt,
            course,
            who,
            stops: 0,
        };
        Arrival::Conn(source, sink, clock)
    }

    fn leave(&mut self, _: u32, _: TalkPast) {}
}
