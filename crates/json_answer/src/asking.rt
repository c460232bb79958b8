// What a request asks of its answer.
use http_edge::RequestView;

/// What a request asks of its answer.
#[derive(Clone, Copy, Debug, PartialEq, Eq)]
pub struct Terms {
    /// The connection closes behind it.
    pub close: bool,
    /// Its body isn't sent.
    pub bare: bool,
}

impl Terms {
    ghost use Rattle.std.specs.Prelude.{◌≡◌};
    ghost use Rattle.http_edge.specs.Reader.{request_of};
    ghost use Rattle.json_answer.specs.Answer.{terms_of};

    pub fn of(request: &RequestView<'_>) -> Terms
        ensures { result ≡ terms_of (request_of request.now) }
    {
        Terms {
            close: request.closes(),
            bare: request.is_head(),
        }
    }
}
