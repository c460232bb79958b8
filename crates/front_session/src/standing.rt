// Where a front stands.
ghost use Rattle.std.specs.Prelude.{◌≡◌};
ghost use Rattle.front_session.specs.Steps.{stage_behind};

/// Where a front stands between two reads.
#[derive(Clone, Copy, Debug, PartialEq, Eq)]
pub enum Stage {
    /// So many bytes are handed on as they come, and then the next request is looked at.
    Within(usize),
    /// All is handed on.
    Open,
    /// Nothing more comes, behind an answer that closed the connection.
    Closed,
    /// The source ended inside a request: what is ahead is handed on.
    Ended,
    /// An answer couldn't be written whole.
    Lost,
}

impl Stage {
    /// Where it stands behind so many bytes that were handed on as they came.
    pub(crate) fn behind(self, count: usize) -> Stage
        ensures { result ≡ stage_behind count self }
    {
        match self {
            Stage::Within(left) => Stage::Within(left.saturating_sub(count)),
            Stage::Open => Stage::Open,
            Stage::Closed => Stage::Closed,
            Stage::Ended => Stage::Ended,
            Stage::Lost => Stage::Lost,
        }
    }
}
