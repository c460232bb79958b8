// What pieces of a body come to.
ghost use Rattle.client_exchange.specs.Laws.{Ends, Frames, Pieces};

/// However a body is cut, its pieces show together what the body shows.
pub fn law_pieces()
    ensures { Pieces }
{}

/// Whether a body may end, and whether it can't be taken, is told by what stands behind its pieces.
pub fn law_ends()
    ensures { Ends }
{}

/// A stream of whole frames shows the payloads of its frames, each by its stream, and may end behind them.
pub fn law_frames()
    ensures { Frames }
{}
