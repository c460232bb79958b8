// A session between two requests, or inside one that isn't whole.
ghost use Rattle.std.specs.Prelude.{◌≡◌, ◌<◌, ◌⊎◌, ℕ, List, false, IsTrue, length};
ghost use Rattle.futures.specs.Task.{Keeps};
ghost use Rattle.session_poll.specs.Going.{IsWokenBy, StepsBySource, TellsBy};
ghost use Rattle.session_poll.specs.Left.{LeavesLess};
ghost use Rattle.session_poll.specs.Reading.{LeavesLessAlone, NeverPauses, StepsAlone, TellsAlone};
ghost use Rattle.session_poll.specs.Standing.{HasPiece, HasRead};
ghost use Rattle.session_poll.specs.declared.state.State.{State as Stands};

use crate::asking::begin;
use crate::budget::Budget;
use crate::pausing::yields;
use crate::session::Session;
use crate::state::{State, Step, stand};
use api_routes::Routes;
use engine_ports::Got;
use futures::task::{Context, Poll};
use polled_model::Cause;
use polled_ports::PollSource;
use polled_steps::refusal;
use request_pieces::Pushed;
use session_model::Ending;
use std::alloc::Global;

impl Session {
    /// Takes more of the piece, or reads the next one.
    pub(super) fn read_on<S: PollSource>(
        &mut self,
        alloc: Global,
        routes: &Routes,
        source: &mut S,
        cx: &mut Context<'_>,
        budget: &mut Budget,
    ) -> Step
        requires reads { self.old.state ≡ Stands.Reads }
        requires taken { (bytes : List ℕ) × HasRead self.old bytes }
        requires piece { HasPiece self.old.from self.old.to (length self.old.piece.items) }
        ensures steps { StepsBySource self.old.conn result self.old self.new
            (S.gives source.old) (S.gives source.new) budget.old budget.new }
        ensures tells { TellsBy self.old.state self.new.state budget.old budget.new }
        ensures less { LeavesLess result self.old self.new budget.old budget.new }
        ensures conn { self.new.conn ≡ self.old.conn }
        ensures woken { IsWokenBy result cx.new }
        ensures kept { Keeps cx.old cx.new }
    {
        if self.from < self.to || self.ended {
            self.take(alloc, routes)
        } else {
            self.read(source, cx, budget)
        }
    }

    /// Takes of the piece what belongs to the next request.
    fn take(&mut self, alloc: Global, routes: &Routes) -> Step
        requires reads { self.old.state ≡ Stands.Reads }
        requires taken { (bytes : List ℕ) × HasRead self.old bytes }
        requires piece { HasPiece self.old.from self.old.to (length self.old.piece.items) }
        requires some { (self.old.from < self.old.to) ⊎ IsTrue self.old.ended }
        ensures steps { StepsAlone self.old.conn result self.old self.new }
        ensures tells { TellsAlone self.old.state self.new.state }
        ensures less { LeavesLessAlone result self.old self.new }
        ensures conn { self.new.conn ≡ self.old.conn }
        ensures never { NeverPauses result }
    {
        match self
            .reader
            .push(&self.piece[self.from..self.to], self.ended)
        {
            Pushed::More => {
                self.from = self.to;
                Step::On
            }
            Pushed::End => Step::Ends(Ending::Closed),
            Pushed::CutShort => Step::Ends(Ending::CutShort),
            Pushed::Bad { status, .. } => {
                let out = refusal(status);
                stand(&mut self.state, State::Refuses { out, status });
                Step::On
            }
            Pushed::Request(used) => {
                self.from += used;
                self.state = begin(alloc, routes, &self.reader.request());
                Step::On
            }
        }
    }

    /// Reads the next piece.
    fn read<S: PollSource>(
        &mut self,
        source: &mut S,
        cx: &mut Context<'_>,
        budget: &mut Budget,
    ) -> Step
        requires reads { self.old.state ≡ Stands.Reads }
        requires piece { HasPiece self.old.from self.old.to (length self.old.piece.items) }
        requires none { self.old.from ≡ self.old.to }
        requires goes_on { self.old.ended ≡ false }
        ensures steps { StepsBySource self.old.conn result self.old self.new
            (S.gives source.old) (S.gives source.new) budget.old budget.new }
        ensures tells { TellsBy self.old.state self.new.state budget.old budget.new }
        ensures less { LeavesLess result self.old self.new budget.old budget.new }
        ensures conn { self.new.conn ≡ self.old.conn }
        ensures woken { IsWokenBy result cx.new }
        ensures kept { Keeps cx.old cx.new }
    {
        if budget.reads == 0 {
            return yields(cx);
        }
        match source.poll_read(cx, &mut self.piece) {
            Poll::Ready(Got::Bytes(count)) => {
                budget.reads -= 1;
                self.from = 0;
                self.to = count;
                Step::On
            }
            Poll::Ready(Got::End) => {
                self.ended = true;
                Step::On
            }
            Poll::Ready(Got::Failed) => Step::Ends(Ending::ReadFault),
            Poll::Pending => Step::Pauses(Cause::Source),
        }
    }
}
