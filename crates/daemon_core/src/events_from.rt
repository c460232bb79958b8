// A part of a stream of events.
ghost use Rattle.std.specs.Prelude.{◌≡◌, ◌+◌, ◌<◌, ◌≤◌, ◌^◌, ◌&&◌, length};
ghost use Rattle.machine_model.specs.History.{events_of};
ghost use Rattle.daemon_core.specs.Keeping.{history_of};
ghost use Rattle.daemon_core.specs.EventTurns.{EventsSay, EventTurn, IsPartFrom, comes_to, is_past};
ghost use Rattle.daemon_core.specs.Passing.{charter, whole_pass};

use crate::daemon::Daemon;
use crate::lines::append_lines;
use engine_text::{Filter, NoMemory};
use event_ring::{FromRing, PreparedEvent, RingPart};
use session_model::{Part, Turned};
use std::alloc::Global;

// Whether the handed moment is at or after the end, where there is one.
fn comes_to(until: Option<u64>, handed: u64) -> bool
    ensures { result ≡ comes_to until handed }
{
    match until {
        None => false,
        Some(until) => until <= handed,
    }
}

// Whether an event lies after the end, where there is one.
fn is_past(until: Option<u64>, event: &PreparedEvent) -> bool
    ensures { result ≡ is_past until event.now }
{
    match until {
        None => false,
        Some(until) => until < event.moment(),
    }
}

// Whether the stream is whole where that event comes next.
fn is_over(until: Option<u64>, handed: u64, event: &PreparedEvent) -> bool
    ensures { result ≡ comes_to until handed && is_past until event.now }
{
    comes_to(until, handed) && is_past(until, event)
}

// The number behind so many events.
fn further(number: u64, passed: usize) -> u64
    requires { number + passed < 2 ^ 64 }
    ensures { result ≡ number + passed }
{
    number + passed as u64
}

impl Daemon {
    // What the events from that one on tell now.
    fn read_part(
        &self,
        handed: u64,
        number: u64,
        out: &mut Vec<u8>,
        filter: &Filter,
        until: Option<u64>,
        part: RingPart<'_>,
    ) -> Part
        requires { IsPartFrom (charter self.now) (history_of self.now.stored.journal) number part }
        ensures { EventsSay (charter self.now) (history_of self.now.stored.journal) handed
            filter.now until number result
            out.old.items out.new.items }
    {
        let mut part = part;
        let Some(first) = part.next() else {
            unreachable!()
        };
        if is_over(until, handed, first) {
            return Part::Whole;
        }
        match append_lines(out, filter, until, first, part) {
            Ok(passed) => Part::More {
                next: further(number, passed),
            },
            Err(NoMemory) => Part::NoMemory,
        }
    }

    // What the events tell now.
    fn read_events(
        &self,
        handed: u64,
        number: u64,
        out: &mut Vec<u8>,
        filter: &Filter,
        until: Option<u64>,
    ) -> Part
        requires { number ≤ length
            (events_of (charter self.now) (history_of self.now.stored.journal)) }
        ensures { EventsSay (charter self.now) (history_of self.now.stored.journal) handed
            filter.now until number result
            out.old.items out.new.items }
    {
        match self.stored.ring.from(number) {
            FromRing::Slice(part) => self.read_part(handed, number, out, filter, until, part),
            FromRing::UpToDate => if comes_to(until, handed) {
                Part::Whole
            } else {
                Part::UpToDate
            },
            FromRing::Lagged { next, first } => Part::Gone { next, first },
        }
    }

    /// A part of the stream of events from a number on, behind all that is due by the moment that counts
    /// of the handed one: the lines of those that the filter lets pass, at or before the moment `until`,
    /// are appended. At every other answer `out` is as before.
    pub fn events_from(
        &mut self,
        alloc: Global,
        conn: u32,
        handed: u64,
        number: u64,
        out: &mut Vec<u8>,
        filter: &Filter,
        until: Option<u64>,
    ) -> Part
        requires { number ≤ length
            (events_of (charter self.old) (history_of self.old.stored.journal)) }
        ensures { EventTurn conn handed filter.now until number result out.old.items out.new.items
            (whole_pass self.old) (whole_pass self.new) }
    {
        match self.turn(alloc, conn, handed, None) {
            Turned::Nothing => self.read_events(handed, number, out, filter, until),
            Turned::NoMemory => Part::NoMemory,
            Turned::Replied(_) | Turned::Begun { .. } | Turned::NotYet | Turned::JournalFull => {
                unreachable!()
            }
        }
    }
}
