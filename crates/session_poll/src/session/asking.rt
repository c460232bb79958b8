// A session whose request is whole: its call is made.
ghost use Rattle.std.specs.Prelude.{◌≡◌, IsTrue};
ghost use Rattle.futures.specs.Task.{Keeps};
ghost use Rattle.session_model.specs.Pass.{IsNumber};
ghost use Rattle.session_poll.specs.Asking.{IsAsking};
ghost use Rattle.session_poll.specs.Going.{IsWokenBy, StepsByTurn, TellsBy, told_of};
ghost use Rattle.session_poll.specs.Left.{LeavesLess};

use crate::asking::{calls_of, go_by};
use crate::budget::Budget;
use crate::pausing::yields;
use crate::session::Session;
use crate::state::{State, Step};
use crate::told::Told;
use daemon_core::Turns;
use futures::task::Context;
use polled_steps::ask_once;

impl Session {
    /// Makes the call of a request.
    pub(super) fn ask_on<T: Turns>(
        &mut self,
        told: &Told,
        turns: &mut T,
        cx: &mut Context<'_>,
        budget: &mut Budget,
    ) -> Step
        requires number { IsNumber (T.pass turns.old).number self.old.conn }
        requires pair { IsTrue (T.pass turns.old).pair }
        requires asks { IsAsking self.old.state }
        ensures steps { StepsByTurn self.old.conn (told_of told.now) result self.old self.new
            (T.pass turns.old) (T.pass turns.new) budget.old budget.new }
        ensures tells { TellsBy self.old.state self.new.state budget.old budget.new }
        ensures less { LeavesLess result self.old self.new budget.old budget.new }
        ensures conn { self.new.conn ≡ self.old.conn }
        ensures woken { IsWokenBy result cx.new }
        ensures kept { Keeps cx.old cx.new }
    {
        if budget.turns == 0 {
            return yields(cx);
        }
        let State::Asks { call, terms, early } = &self.state else {
            unreachable!()
        };
        let asked = ask_once(turns, told.alloc, self.conn, told.handed, call);
        budget.turns -= calls_of(&asked);
        self.state = go_by(asked, *terms, *early);
        Step::On
    }
}
