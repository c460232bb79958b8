// Which connections may still come.
ghost use Rattle.std.specs.Prelude.{◌≡◌, ◌<◌, ◌+◌, IsTrue, None};
ghost use Rattle.door_model.specs.Connections.{most_from};
ghost use Rattle.engine_loop.specs.Standing.{is_open, why_of};

use door_model::most_from;
use session_model::Worst;

/// The number of the next connection, how many may still come, and why none comes any more, where the door
/// told it.
#[derive(Clone, Copy, Drop)]
pub(crate) struct Coming {
    pub(crate) next: u32,
    pub(crate) left: u32,
    pub(crate) end: Option<Worst>,
}

impl Coming {
    pub(crate) fn new(first: u32, limit: Option<u32>) -> Coming
        ensures { result ≡ record { next = first; left = most_from first limit; end = None } }
    {
        Coming {
            next: first,
            left: most_from(first, limit),
            end: None,
        }
    }

    /// Why none comes any more.
    pub(crate) fn why(&self) -> Worst
        ensures { result ≡ why_of self.now.end }
    {
        match self.end {
            Some(why) => why,
            None => Worst::Closed,
        }
    }

    /// Whether one more may come, where the daemon doesn't stop.
    pub(crate) fn is_open(&self) -> bool
        ensures { result ≡ is_open self.now }
    {
        self.end.is_none() && self.left > 0
    }
}
