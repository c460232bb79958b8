// What holds of every list of pieces.
ghost use Rattle.request_pieces.specs.Laws.{PiecesTellRequests, PiecesAreNext, PiecesEnd};

/// Pieces tell the requests of their bytes, however these are cut.
pub fn law_pieces_tell_requests()
    ensures { PiecesTellRequests }
{}

/// These are all the requests that any reading of the bytes gives.
pub fn law_pieces_are_next()
    ensures { PiecesAreNext }
{}

/// What the last piece tells is what the bytes behind all requests are.
pub fn law_pieces_end()
    ensures { PiecesEnd }
{}
