// What a value and a job tell of themselves.
ghost use Rattle.std.specs.Prelude.{◌≡◌, ℕ, ◌^◌, ◌<◌, List, length, Option};
ghost use Rattle.turnstile.specs.Steps.{ByOne};

/// A value that has a history.
pub trait Chronicle: Drop {
    type Step;

    type Charter;

    /// The number of the connection that a step is of; a step of the system has none.
    ghost author: { Self.Step → Option ℕ };

    /// Which histories are legal under a charter.
    ghost legal: { Self.Charter → List Self.Step → Type 0 };

    /// The history that the value tells.
    ghost history: { Self → List Self.Step };

    /// What no job changes.
    ghost charter: { Self → Self.Charter };

    /// How many steps its history has.
    fn steps(&self) -> u64
        requires { legal (charter self.now) (history self.now) }
        ensures { result ≡ length (history self.now) };

    /// A legal history can be counted.
    ghost short: { (c : Self.Charter) (h : List Self.Step) → legal c h → length h < 2 ^ 64 };
}

/// What is done to the value in one turn.
pub trait Job<V: Chronicle> {
    type Answer;

    /// Whose it is.
    ghost number: { Self → ℕ };

    /// Which histories it may meet.
    ghost may_meet: { Self → V.Charter → List V.Step → Type 0 };

    /// Of the job before, the charter, the history met, the history after, the answer, and the job
    /// after: which may be so.
    ghost may_answer: { Self → V.Charter → List V.Step → List V.Step → Self.Answer → Self
        → Type 0 };

    /// Does it: the value's history grows by steps of its number and by steps of none.
    fn run(&mut self, value: &mut V) -> Self::Answer
        requires legal { V.legal (V.charter value.old) (V.history value.old) }
        requires meets { may_meet self.old (V.charter value.old) (V.history value.old) }
        ensures charter { V.charter value.new ≡ V.charter value.old }
        ensures legal { V.legal (V.charter value.new) (V.history value.new) }
        ensures own { ByOne V.author (number self.old) (V.history value.old) (V.history value.new) }
        ensures answer { may_answer self.old (V.charter value.old)
            (V.history value.old) (V.history value.new) result self.new };
}

/// What came of one try.
#[derive(Drop)]
pub enum Tried<A> {
    /// The job was run, and answered so.
    Done(A),
    /// The door was held.
    Busy,
}
