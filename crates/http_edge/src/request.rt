// One request, from the bytes that were read ahead and those that the source gives.
ghost use Rattle.std.specs.Prelude.{◌≤◌, length};
ghost use Rattle.httparse.specs.Spans.{IsRequestWithin, IsRequestOf};
ghost use Rattle.http_edge.specs.Limits.{head_limit};
ghost use Rattle.http_edge.specs.Outcome.{Facts};

use crate::ahead::Ahead;
use crate::body::BodyRead;
use crate::front::HeadRead;
use crate::stored::Buffers;
use engine_ports::Source;
use httparse::spans::RequestSpans;

/// What the front of the input is.
#[derive(Clone, Copy)]
pub(crate) enum Outcome {
    /// A request, with the parts of its head, and how many bytes spell it.
    Whole(RequestSpans, usize),
    End,
    Bad(u16),
    CutShort,
    Failed,
}

/// Reads one request.
pub(crate) fn read_request<S: Source>(
    source: &mut S,
    ahead: &mut Ahead,
    buffers: &mut Buffers,
) -> Outcome
    ensures { Facts result ahead.old ahead.new buffers.new.head buffers.new.spans
        buffers.new.body (S.gives source.old) (S.gives source.new) }
{
    match buffers.read_head(source, ahead) {
        HeadRead::Head(found) => read_framed(source, ahead, buffers, found),
        HeadRead::Malformed => Outcome::Bad(400),
        HeadRead::TooLong => Outcome::Bad(431),
        HeadRead::End => Outcome::End,
        HeadRead::CutShort => Outcome::CutShort,
        HeadRead::Failed => Outcome::Failed,
    }
}

/// Keeps the head that the bytes ahead begin with, and reads the body behind it.
fn read_framed<S: Source>(
    source: &mut S,
    ahead: &mut Ahead,
    buffers: &mut Buffers,
    found: RequestSpans,
) -> Outcome
    requires small { length ahead.old ≤ head_limit }
    requires within { IsRequestWithin ahead.old buffers.old.spans found }
    requires of { IsRequestOf ahead.old buffers.old.spans found }
    ensures { Facts result ahead.old ahead.new buffers.new.head buffers.new.spans
        buffers.new.body (S.gives source.old) (S.gives source.new) }
{
    let framing = buffers.take_head(ahead, found);
    match buffers.read_body(source, ahead, framing) {
        BodyRead::Whole(count) => Outcome::Whole(found, count),
        BodyRead::Refused(status) => Outcome::Bad(status),
        BodyRead::CutShort => Outcome::CutShort,
        BodyRead::Failed => Outcome::Failed,
    }
}
