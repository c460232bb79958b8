// A session that writes: an answer, a refusal, or a head that comes early.
ghost use Rattle.std.specs.Prelude.{◌≡◌};
ghost use Rattle.futures.specs.Task.{Keeps};
ghost use Rattle.session_poll.specs.Going.{IsWokenBy, StepsBySink, TellsBy};
ghost use Rattle.session_poll.specs.Left.{LeavesLess};
ghost use Rattle.session_poll.specs.Sending.{IsRefusing, IsSending};

use crate::budget::Budget;
use crate::session::Session;
use crate::state::{State, Step};
use crate::writing::{Wrote, write_answer, write_on};
use futures::task::Context;
use polled_model::Cause;
use polled_ports::PollSink;
use polled_steps::Behind;
use session_model::Ending;

impl Session {
    /// Writes on an answer, behind which the next request is read or the session ends.
    pub(super) fn send_on<K: PollSink>(
        &mut self,
        sink: &mut K,
        cx: &mut Context<'_>,
        budget: &mut Budget,
    ) -> Step
        requires { IsSending self.old.state }
        ensures steps { StepsBySink self.old.conn result self.old self.new
            (K.takes sink.old) (K.takes sink.new) budget.old budget.new }
        ensures tells { TellsBy self.old.state self.new.state budget.old budget.new }
        ensures less { LeavesLess result self.old self.new budget.old budget.new }
        ensures conn { self.new.conn ≡ self.old.conn }
        ensures woken { IsWokenBy result cx.new }
        ensures kept { Keeps cx.old cx.new }
    {
        let State::Sends(answer) = &mut self.state else {
            unreachable!()
        };
        match write_answer(sink, cx, answer, budget) {
            Wrote::Some => Step::On,
            Wrote::Waits => Step::Pauses(Cause::Sink),
            Wrote::Tired => Step::Pauses(Cause::Yield),
            Wrote::Fault => Step::Ends(Ending::WriteFault),
            Wrote::All => match answer.next {
                Behind::Ends(ending) => Step::Ends(ending),
                Behind::Reads => {
                    self.state = State::Reads;
                    Step::On
                }
            },
        }
    }

    /// Writes on a refusal, behind which the session ends.
    pub(super) fn refuse_on<K: PollSink>(
        &mut self,
        sink: &mut K,
        cx: &mut Context<'_>,
        budget: &mut Budget,
    ) -> Step
        requires { IsRefusing self.old.state }
        ensures steps { StepsBySink self.old.conn result self.old self.new
            (K.takes sink.old) (K.takes sink.new) budget.old budget.new }
        ensures tells { TellsBy self.old.state self.new.state budget.old budget.new }
        ensures less { LeavesLess result self.old self.new budget.old budget.new }
        ensures conn { self.new.conn ≡ self.old.conn }
        ensures woken { IsWokenBy result cx.new }
        ensures kept { Keeps cx.old cx.new }
    {
        let State::Refuses { out, status } = &mut self.state else {
            unreachable!()
        };
        match write_on(sink, cx, out, budget) {
            Wrote::Some => Step::On,
            Wrote::Waits => Step::Pauses(Cause::Sink),
            Wrote::Tired => Step::Pauses(Cause::Yield),
            Wrote::Fault => Step::Ends(Ending::WriteFault),
            Wrote::All => Step::Ends(Ending::Refused(*status)),
        }
    }
}
