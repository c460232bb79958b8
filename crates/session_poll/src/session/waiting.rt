// A session whose call gave a ticket.
ghost use Rattle.std.specs.Prelude.{◌≡◌, IsTrue};
ghost use Rattle.futures.specs.Task.{Keeps};
ghost use Rattle.session_model.specs.Pass.{IsNumber};
ghost use Rattle.session_model.specs.Turning.{HasBegun};
ghost use Rattle.session_poll.specs.Going.{IsWokenBy, StepsByTurnAndSink, TellsBy, told_of};
ghost use Rattle.session_poll.specs.Left.{LeavesLess};
ghost use Rattle.session_poll.specs.Waiting.{HasOpened, IsOpening, IsWaiting};

use crate::budget::Budget;
use crate::pausing::{pauses, yields};
use crate::session::Session;
use crate::state::{State, Step};
use crate::told::Told;
use crate::waiting::{Over, Waited, answered, calls_of, wait_once};
use crate::writing::{Wrote, write_on};
use daemon_core::Turns;
use futures::task::Context;
use polled_model::Cause;
use polled_ports::PollSink;
use polled_steps::{drop_ticket, replied_early};
use session_model::{Ending, Terms};

impl Session {
    /// Asks for the ticket's end.
    pub(super) fn wait_on<T: Turns, K: PollSink>(
        &mut self,
        ticket: u64,
        terms: Terms,
        told: &Told,
        turns: &mut T,
        sink: &mut K,
        cx: &mut Context<'_>,
        budget: &mut Budget,
    ) -> Step
        requires number { IsNumber (T.pass turns.old).number self.old.conn }
        requires pair { IsTrue (T.pass turns.old).pair }
        requires begun { HasBegun (T.pass turns.old).charter self.old.conn ticket
            (T.pass turns.old).seen }
        requires waits { IsWaiting ticket terms self.old.state }
        ensures steps { StepsByTurnAndSink self.old.conn (told_of told.now) result self.old self.new
            (T.pass turns.old) (T.pass turns.new) (K.takes sink.old) (K.takes sink.new)
            budget.old budget.new }
        ensures tells { TellsBy self.old.state self.new.state budget.old budget.new }
        ensures less { LeavesLess result self.old self.new budget.old budget.new }
        ensures conn { self.new.conn ≡ self.old.conn }
        ensures woken { IsWokenBy result cx.new }
        ensures kept { Keeps cx.old cx.new }
    {
        if budget.turns == 0 {
            return yields(cx);
        }
        match wait_once(turns, sink, told, self.conn, ticket) {
            Waited::NotYet => pauses(cx),
            Waited::Gone => Step::Ends(Ending::WriteFault),
            Waited::Over(over) => {
                budget.turns -= calls_of(&over);
                self.state = State::Sends(answered(over, terms));
                Step::On
            }
        }
    }

    /// Writes on a head that came early, and asks for the ticket's end behind it.
    pub(super) fn wait_early_on<T: Turns, K: PollSink>(
        &mut self,
        ticket: u64,
        terms: Terms,
        told: &Told,
        turns: &mut T,
        sink: &mut K,
        cx: &mut Context<'_>,
        budget: &mut Budget,
    ) -> Step
        requires number { IsNumber (T.pass turns.old).number self.old.conn }
        requires pair { IsTrue (T.pass turns.old).pair }
        requires begun { HasBegun (T.pass turns.old).charter self.old.conn ticket
            (T.pass turns.old).seen }
        requires waits { IsOpening ticket terms self.old.state }
        ensures steps { StepsByTurnAndSink self.old.conn (told_of told.now) result self.old self.new
            (T.pass turns.old) (T.pass turns.new) (K.takes sink.old) (K.takes sink.new)
            budget.old budget.new }
        ensures tells { TellsBy self.old.state self.new.state budget.old budget.new }
        ensures less { LeavesLess result self.old self.new budget.old budget.new }
        ensures conn { self.new.conn ≡ self.old.conn }
        ensures woken { IsWokenBy result cx.new }
        ensures kept { Keeps cx.old cx.new }
    {
        let State::WaitsEarly { out, .. } = &mut self.state else {
            unreachable!()
        };
        match write_on(sink, cx, out, budget) {
            Wrote::All => self.wait_behind(ticket, terms, told, turns, sink, cx, budget),
            Wrote::Some => Step::On,
            Wrote::Waits => Step::Pauses(Cause::Sink),
            Wrote::Tired => Step::Pauses(Cause::Yield),
            Wrote::Fault => {
                drop_ticket(turns, told.alloc, self.conn, ticket);
                Step::Ends(Ending::WriteFault)
            }
        }
    }

    /// Asks for the ticket's end, behind a head that is written.
    fn wait_behind<T: Turns, K: PollSink>(
        &mut self,
        ticket: u64,
        terms: Terms,
        told: &Told,
        turns: &mut T,
        sink: &mut K,
        cx: &mut Context<'_>,
        budget: &mut Budget,
    ) -> Step
        requires number { IsNumber (T.pass turns.old).number self.old.conn }
        requires pair { IsTrue (T.pass turns.old).pair }
        requires begun { HasBegun (T.pass turns.old).charter self.old.conn ticket
            (T.pass turns.old).seen }
        requires waits { HasOpened ticket terms self.old.state }
        ensures steps { StepsByTurnAndSink self.old.conn (told_of told.now) result self.old self.new
            (T.pass turns.old) (T.pass turns.new) (K.takes sink.old) (K.takes sink.new)
            budget.old budget.new }
        ensures tells { TellsBy self.old.state self.new.state budget.old budget.new }
        ensures less { LeavesLess result self.old self.new budget.old budget.new }
        ensures conn { self.new.conn ≡ self.old.conn }
        ensures woken { IsWokenBy result cx.new }
        ensures kept { Keeps cx.old cx.new }
    {
        if budget.turns == 0 {
            return yields(cx);
        }
        match wait_once(turns, sink, told, self.conn, ticket) {
            Waited::NotYet => pauses(cx),
            Waited::Gone => Step::Ends(Ending::WriteFault),
            Waited::Over(Over::NoMemory) => Step::Ends(Ending::NoMemory),
            Waited::Over(Over::Stopped) => Step::Ends(Ending::Stopped),
            Waited::Over(Over::Replied(reply)) => {
                budget.turns -= 1;
                self.state = State::Sends(replied_early(terms, reply));
                Step::On
            }
        }
    }
}
