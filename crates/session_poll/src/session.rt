// One session, polled.
ghost use Rattle.std.specs.Prelude.{◌≡◌, IfOk, IsTrue};
ghost use Rattle.futures.specs.Task.{Keeps};
ghost use Rattle.session_model.specs.Pass.{IsConnection, IsNumber};
ghost use Rattle.polled_model.specs.Polls.{Polls};
ghost use Rattle.session_poll.specs.Going.{IsArmedBy, IsWokenBy, Steps, TellsBy, ports_of, told_of};
ghost use Rattle.session_poll.specs.Left.{LeavesLess};
ghost use Rattle.session_poll.specs.Standing.{CanPoll, IsAt, IsNew, IsWoken};

mod asking;
mod opening;
mod reading;
mod sending;
mod streaming;
mod waiting;

use crate::budget::Budget;
use crate::state::{State, Step};
use crate::told::Told;
use api_routes::Routes;
use daemon_core::Turns;
use engine_text::NoMemory;
use futures::task::Context;
use polled_model::Polled;
use polled_ports::{PollSink, PollSource};
use request_pieces::PieceReader;
use std::alloc::Global;

/// How many bytes are read at once.
const PIECE: usize = 4_096;

/// A session that is polled.
#[derive(Drop)]
pub struct Session {
    conn: u32,
    reader: PieceReader,
    piece: Vec<u8>,
    /// The bytes of the piece that the reader hasn't taken.
    from: usize,
    to: usize,
    /// The input has ended.
    ended: bool,
    state: State,
}

impl Session {
    /// A session of this connection, which has read nothing.
    pub fn new(alloc: Global, conn: u32) -> Result<Session, NoMemory>
        ensures { IfOk result (IsNew conn) }
    {
        let Ok(reader) = PieceReader::new(alloc) else {
            return Err(NoMemory);
        };
        let mut piece = Vec::new(alloc);
        piece.resize(PIECE, 0)?;
        Ok(Session {
            conn,
            reader,
            piece,
            from: 0,
            to: 0,
            ended: false,
            state: State::Reads,
        })
    }

    /// Goes on as far as it can, at the moment `handed`, in milliseconds.
    pub fn poll<T: Turns, S: PollSource, K: PollSink>(
        &mut self,
        alloc: Global,
        routes: &Routes,
        turns: &mut T,
        handed: u64,
        stop: bool,
        source: &mut S,
        sink: &mut K,
        cx: &mut Context<'_>,
    ) -> Polled
        requires connection { IsConnection self.old.conn }
        requires number { IsNumber (T.pass turns.old).number self.old.conn }
        requires pair { IsTrue (T.pass turns.old).pair }
        requires stands { CanPoll (T.pass turns.old).charter self.old.conn self.old
            (T.pass turns.old).seen (ports_of (S.gives source.old) (K.takes sink.old)) }
        ensures polls { Polls self.old.conn (record { handed = handed; stop = stop }) result
            (IsAt (T.pass turns.old).charter self.old.conn self.old)
            (IsAt (T.pass turns.old).charter self.old.conn self.new) (IsWoken cx.new)
            (T.pass turns.old) (T.pass turns.new)
            (ports_of (S.gives source.old) (K.takes sink.old))
            (ports_of (S.gives source.new) (K.takes sink.new)) }
        ensures conn { self.new.conn ≡ self.old.conn }
        ensures armed { IsArmedBy result cx.new }
        ensures kept { Keeps cx.old cx.new }
    {
        let told = Told {
            alloc,
            handed,
            stop,
        };
        let mut budget = Budget::new();
        'more: loop {
            match self.step(&told, routes, turns, source, sink, cx, &mut budget) {
                Step::On => {}
                Step::Pauses(cause) => return Polled::Pending(cause),
                Step::Ends(ending) => return Polled::Done(ending),
            }
        }
    }

    /// One step.
    fn step<T: Turns, S: PollSource, K: PollSink>(
        &mut self,
        told: &Told,
        routes: &Routes,
        turns: &mut T,
        source: &mut S,
        sink: &mut K,
        cx: &mut Context<'_>,
        budget: &mut Budget,
    ) -> Step
        requires number { IsNumber (T.pass turns.old).number self.old.conn }
        requires pair { IsTrue (T.pass turns.old).pair }
        requires stands { CanPoll (T.pass turns.old).charter self.old.conn self.old
            (T.pass turns.old).seen (ports_of (S.gives source.old) (K.takes sink.old)) }
        ensures steps { Steps (T.pass turns.old).charter self.old.conn (told_of told.now) result
            self.old self.new (T.pass turns.old) (T.pass turns.new)
            (ports_of (S.gives source.old) (K.takes sink.old))
            (ports_of (S.gives source.new) (K.takes sink.new)) budget.old budget.new }
        ensures tells { TellsBy self.old.state self.new.state budget.old budget.new }
        ensures less { LeavesLess result self.old self.new budget.old budget.new }
        ensures conn { self.new.conn ≡ self.old.conn }
        ensures woken { IsWokenBy result cx.new }
        ensures kept { Keeps cx.old cx.new }
    {
        match &self.state {
            State::Reads => self.read_on(told.alloc, routes, source, cx, budget),
            State::Asks { .. } => self.ask_on(told, turns, cx, budget),
            State::Waits { ticket, terms } => {
                let (ticket, terms) = (*ticket, *terms);
                self.wait_on(ticket, terms, told, turns, sink, cx, budget)
            }
            State::WaitsEarly { ticket, terms, .. } => {
                let (ticket, terms) = (*ticket, *terms);
                self.wait_early_on(ticket, terms, told, turns, sink, cx, budget)
            }
            State::Opens { .. } => self.open_on(told, turns, cx, budget),
            State::Streams { .. } => self.stream_on(told, turns, sink, cx, budget),
            State::Sends(_) => self.send_on(sink, cx, budget),
            State::Refuses { .. } => self.refuse_on(sink, cx, budget),
        }
    }
}
