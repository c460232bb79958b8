// How many vectors came out as they should.
ghost use Rattle.std.specs.Prelude.{ℕ, ◌≡◌, ◌+◌, ◌-◌, ◌<◌, ◌^◌, List, [], ◌∷◌, ◌++◌};
ghost use Rattle.engine_conformance.specs.Reports.{Reports};

/// How many vectors came out as they should, how many didn't, and the least of these.
#[derive(Clone, Copy, Debug, PartialEq, Eq, Drop)]
pub struct Report {
    pub passed: u32,
    pub failed: u32,
    pub first: Option<u32>,
}

impl Report {
    /// Of no vector.
    pub fn new() -> Report
        ensures { Reports [] result }
    {
        Report {
            passed: 0,
            failed: 0,
            first: None,
        }
    }

    /// With one vector more, whose number is greater than those before it.
    pub fn with(self, number: u32, passes: bool) -> Report
        requires { self.passed + self.failed < 2 ^ 32 - 1 }
        ensures { (numbers : List ℕ) → Reports numbers self → Reports (numbers ++ number ∷ []) result }
    {
        if passes {
            return Report {
                passed: self.passed + 1,
                ..self
            };
        }
        Report {
            failed: self.failed + 1,
            first: self.first.or(Some(number)),
            ..self
        }
    }
}
