// A session whose request for a stream is whole: its call is made.
ghost use Rattle.std.specs.Prelude.{◌≡◌, IsTrue};
ghost use Rattle.futures.specs.Task.{Keeps};
ghost use Rattle.session_model.specs.Pass.{IsNumber};
ghost use Rattle.session_poll.specs.Going.{IsWokenBy, StepsByTurn, TellsBy, told_of};
ghost use Rattle.session_poll.specs.Left.{LeavesLess};
ghost use Rattle.session_poll.specs.Streaming.{IsOpening};

use crate::budget::Budget;
use crate::pausing::yields;
use crate::session::Session;
use crate::state::{State, Step};
use crate::streaming::{left_behind, open_by};
use crate::told::Told;
use daemon_core::Turns;
use futures::task::Context;
use polled_steps::open_once;

impl Session {
    /// Makes the call of a request for a stream. As many parts of it may be told as calls could be made.
    pub(super) fn open_on<T: Turns>(
        &mut self,
        told: &Told,
        turns: &mut T,
        cx: &mut Context<'_>,
        budget: &mut Budget,
    ) -> Step
        requires number { IsNumber (T.pass turns.old).number self.old.conn }
        requires pair { IsTrue (T.pass turns.old).pair }
        requires opens { IsOpening self.old.state }
        ensures steps { StepsByTurn self.old.conn (told_of told.now) result self.old self.new
            (T.pass turns.old) (T.pass turns.new) budget.old budget.new }
        ensures tells { TellsBy self.old.state self.new.state budget.old budget.new }
        ensures less { LeavesLess result self.old self.new budget.old budget.new }
        ensures conn { self.new.conn ≡ self.old.conn }
        ensures woken { IsWokenBy result cx.new }
        ensures kept { Keeps cx.old cx.new }
    {
        if budget.turns == 0 {
            return yields(cx);
        }
        let State::Opens { call, terms } = &self.state else {
            unreachable!()
        };
        let opened = open_once(turns, told.alloc, self.conn, told.handed, call);
        *budget = left_behind(*budget, &opened);
        self.state = open_by(opened, *terms);
        Step::On
    }
}
