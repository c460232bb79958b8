// The ports of a connection of a talk. They tell their counts alone.
use crate::course::Course;
use crate::talk::Act;
use engine_ports::{Clock, Failed, Got, Parting, Pause, Sink, Source};
use std::io::Read;
use std::sync::Wait;

/// What a connection sends in its slots.
#[derive(Drop)]
pub struct TalkSource<'a, R> {
    rt: &'a R,
    course: &'a Course,
    who: u32,
    /// The number of the first slot of which nothing was given yet.
    from: usize,
    /// What is left of the last one.
    left: &'a [u8],
    ends: u64,
}

impl<'a, R> TalkSource<'a, R> {
    ghost use Rattle.std.specs.Prelude.{◌≡◌};

    /// A connection that hasn't sent anything.
    pub fn new(rt: &'a R, course: &'a Course, who: u32) -> TalkSource<'a, R>
        ensures { result.ends ≡ 0 }
    {
        TalkSource {
            rt,
            course,
            who,
            from: 0,
            left: b"",
            ends: 0,
        }
    }
}

impl<'a, R: Wait> TalkSource<'a, R> {
    ghost use Rattle.std.specs.Prelude.{◌≡◌};

    /// What is left of the last slot, or what it sends in its next one; nothing where its input ends.
    fn ahead(&mut self) -> &'a [u8]
        ensures { self.new.ends ≡ self.old.ends }
    {
        if !self.left.is_empty() {
            return self.left;
        }
        match self.course.next_sent(self.rt, self.who, self.from) {
            Some((number, slot)) => {
                self.from = number.saturating_add(1);
                slot.bytes.as_slice()
            }
            None => b"",
        }
    }
}

impl<'a, R: Wait + Sync> Source for TalkSource<'a, R> {
    ghost use Rattle.std.specs.Prelude.{None};

    ghost gives = { λ s. record { left = None; faults = 0; ends = s.ends } };

    fn read(&mut self, into: &mut [u8]) -> Got {
        let mut ahead = self.ahead();
        match ahead.read(into) {
            Ok(count) if count > 0 => {
                self.left = ahead;
                Got::Bytes(count)
            }
            _ => {
                self.ends = self.ends.saturating_add(1);
                Got::End
            }
        }
    }
}

/// Where a connection's answers go: to what is told.
#[derive(Drop)]
pub struct TalkSink<'a, R> {
    pub rt: &'a R,
    pub course: &'a Course,
    pub who: u32,
    pub faults: u64,
}

impl<'a, R: Wait + Sync> Sink for TalkSink<'a, R> {
    ghost use Rattle.std.specs.Prelude.{None};

    ghost takes = { λ s. record { wrote = None; faults = s.faults } };

    fn write(&mut self, piece: &[u8]) -> Result<(), Failed> {
        match self.course.tell(self.rt, self.who, piece) {
            Ok(()) => Ok(()),
            Err(Failed) => {
                self.faults = self.faults.saturating_add(1);
                Err(Failed)
            }
        }
    }

    fn probe(&mut self) -> Result<(), Failed> {
        Ok(())
    }

    fn finish(&mut self) -> Result<(), Failed> {
        Ok(())
    }
}

/// A connection's clock: it tells the moments of the slots, and a pause lasts until the connection's
/// next one.
#[derive(Drop)]
pub struct TalkClock<'a, R> {
    pub rt: &'a R,
    pub course: &'a Course,
    pub who: u32,
    pub stops: u64,
}

impl<'a, R: Wait + Sync> Clock for TalkClock<'a, R> {
    ghost use Rattle.std.specs.Prelude.{None};

    ghost times = { λ c. record { moments = None; stops = c.stops } };

    fn now(&mut self) -> u64 {
        self.course.moment(self.rt)
    }

    // Where no slot is left it is stopped.
    fn pause(&mut self, _: u64) -> Pause {
        let goes = match self.course.next_behind(self.rt, self.who) {
            Some(slot) => slot.act != Act::Stops,
            None => false,
        };
        if goes {
            return Pause::Go;
        }
        self.stops = self.stops.saturating_add(1);
        Pause::Stop
    }

    fn twin(&self) -> Self {
        TalkClock {
            rt: self.rt,
            course: self.course,
            who: self.who,
            stops: self.stops,
        }
    }

    fn rejoin(&mut self, other: Self) {
        self.stops = self.stops.max(other.stops);
    }
}

/// What is left of a connection: its counts.
#[derive(Drop)]
pub struct TalkPast {
    ends: u64,
    faults: u64,
    stops: u64,
}

impl<'a, R: Wait + Sync> Parting<TalkSource<'a, R>, TalkSink<'a, R>, TalkClock<'a, R>>
    for TalkPast {
    ghost use Rattle.std.specs.Prelude.{None};
    ghost use Rattle.engine_ports.specs.Door.{outside};

    ghost tells = { λ p. outside
        (record { left = None; faults = 0; ends = p.ends })
        (record { wrote = None; faults = p.faults })
        (record { moments = None; stops = p.stops }) };

    fn part(from: TalkSource<'a, R>, into: TalkSink<'a, R>, time: TalkClock<'a, R>) -> Self {
        from.course.leave(from.rt, from.who);
        TalkPast {
            ends: from.ends,
            faults: into.faults,
            stops: time.stops,
        }
    }
}
