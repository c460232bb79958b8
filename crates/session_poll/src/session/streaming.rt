// A session that tells a stream.
ghost use Rattle.std.specs.Prelude.{◌≡◌, IsTrue};
ghost use Rattle.futures.specs.Task.{Keeps};
ghost use Rattle.session_model.specs.Pass.{IsNumber};
ghost use Rattle.session_poll.specs.Going.{IsWokenBy, StepsByTurnAndSink, TellsBy, told_of};
ghost use Rattle.session_poll.specs.Left.{LeavesLess};
ghost use Rattle.session_poll.specs.Streaming.{IsWritten, MayTell};

use crate::budget::Budget;
use crate::pausing::{pauses, yields};
use crate::session::Session;
use crate::state::{State, Step};
use crate::streaming::{Telling, tell_next};
use crate::told::Told;
use crate::writing::{Wrote, write_on};
use daemon_core::Turns;
use futures::task::Context;
use polled_model::Cause;
use polled_ports::PollSink;
use polled_steps::{chunk, last};
use session_model::Ending;

impl Session {
    /// Writes on what of a stream is told, and tells more of it behind that.
    pub(super) fn stream_on<T: Turns, K: PollSink>(
        &mut self,
        told: &Told,
        turns: &mut T,
        sink: &mut K,
        cx: &mut Context<'_>,
        budget: &mut Budget,
    ) -> Step
        requires number { IsNumber (T.pass turns.old).number self.old.conn }
        requires pair { IsTrue (T.pass turns.old).pair }
        requires may { MayTell (T.pass turns.old).charter (T.pass turns.old).seen self.old.state }
        ensures steps { StepsByTurnAndSink self.old.conn (told_of told.now) result self.old self.new
            (T.pass turns.old) (T.pass turns.new) (K.takes sink.old) (K.takes sink.new)
            budget.old budget.new }
        ensures tells { TellsBy self.old.state self.new.state budget.old budget.new }
        ensures less { LeavesLess result self.old self.new budget.old budget.new }
        ensures conn { self.new.conn ≡ self.old.conn }
        ensures woken { IsWokenBy result cx.new }
        ensures kept { Keeps cx.old cx.new }
    {
        let State::Streams { out, .. } = &mut self.state else {
            unreachable!()
        };
        match write_on(sink, cx, out, budget) {
            Wrote::All => self.tell_on(told, turns, sink, cx, budget),
            Wrote::Some => Step::On,
            Wrote::Waits => Step::Pauses(Cause::Sink),
            Wrote::Tired => Step::Pauses(Cause::Yield),
            Wrote::Fault => Step::Ends(Ending::WriteFault),
        }
    }

    /// Tells more of a stream, of which all that is told is written.
    fn tell_on<T: Turns, K: PollSink>(
        &mut self,
        told: &Told,
        turns: &mut T,
        sink: &mut K,
        cx: &mut Context<'_>,
        budget: &mut Budget,
    ) -> Step
        requires number { IsNumber (T.pass turns.old).number self.old.conn }
        requires pair { IsTrue (T.pass turns.old).pair }
        requires may { MayTell (T.pass turns.old).charter (T.pass turns.old).seen self.old.state }
        requires written { IsWritten self.old.state }
        ensures steps { StepsByTurnAndSink self.old.conn (told_of told.now) result self.old self.new
            (T.pass turns.old) (T.pass turns.new) (K.takes sink.old) (K.takes sink.new)
            budget.old budget.new }
        ensures tells { TellsBy self.old.state self.new.state budget.old budget.new }
        ensures less { LeavesLess result self.old self.new budget.old budget.new }
        ensures conn { self.new.conn ≡ self.old.conn }
        ensures woken { IsWokenBy result cx.new }
        ensures kept { Keeps cx.old cx.new }
    {
        if budget.parts == 0 {
            return yields(cx);
        }
        let State::Streams {
            reply,
            terms,
            place,
            out,
        } = &mut self.state
        else {
            unreachable!()
        };
        match tell_next(turns, sink, told, self.conn, reply, *place) {
            Telling::More { next, bytes } => {
                budget.parts -= 1;
                *place = next;
                *out = chunk(bytes);
                Step::On
            }
            Telling::Whole(bytes) => {
                let terms = *terms;
                self.state = State::Sends(last(terms, bytes));
                Step::On
            }
            Telling::UpToDate => pauses(cx),
            Telling::Ends(ending) => Step::Ends(ending),
        }
    }
}
