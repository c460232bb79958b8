// What is due in one moment, in order.
ghost use Rattle.std.specs.Prelude.{◌≡◌};
ghost use Rattle.container_table.specs.Ranks.{number_of, rank_numbered};

/// What is due, in the order in which it comes where moments are equal.
#[derive(Clone, Copy, PartialEq, Eq, Debug, Drop)]
pub enum Rank {
    Op,
    StopDeadline,
    RemovalDeadline,
    RestartTimer,
}

impl Rank {
    /// Its number in a due action.
    pub fn number(self) -> u8
        ensures { result ≡ number_of self }
    {
        match self {
            Rank::Op => 0,
            Rank::StopDeadline => 1,
            Rank::RemovalDeadline => 2,
            Rank::RestartTimer => 3,
        }
    }

    /// The rank of that number, the last one for any above.
    pub fn numbered(number: u8) -> Rank
        ensures { result ≡ rank_numbered number }
    {
        if number == 0 {
            return Rank::Op;
        }
        if number == 1 {
            return Rank::StopDeadline;
        }
        if number == 2 {
            return Rank::RemovalDeadline;
        }
        Rank::RestartTimer
    }
}
