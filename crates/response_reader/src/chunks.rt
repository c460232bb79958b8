// What stands between the pieces of a body by chunks.
ghost use Rattle.std.specs.Prelude.{◌≡◌, ◌≤◌};
ghost use Rattle.http_edge.specs.Limits.{line_limit};
ghost use Rattle.response_reader.specs.Steps.{LineSays, AfterLine};

use engine_ports::Source;
use http_edge::{Ahead, Part, PartRead, read_part};

/// What comes behind whole chunks.
#[derive(Clone, Copy)]
pub(crate) enum LineRead {
    /// A chunk with a piece of so many bytes, whose line has so many.
    Piece(u64, usize),
    /// The end of the body, which so many bytes spell.
    Last(usize),
    Refused,
    CutShort,
    Failed,
}

/// Reads the line of a chunk, or the end of the body.
pub(crate) fn read_line<S: Source>(source: &mut S, ahead: &mut Ahead) -> LineRead
    ensures { LineSays result ahead.old ahead.new (S.gives source.old) (S.gives source.new) }
{
    match read_part(source, ahead, Part::Line) {
        PartRead::Whole(size, count) => read_behind(source, ahead, size, count),
        PartRead::Refused => LineRead::Refused,
        PartRead::CutShort => LineRead::CutShort,
        PartRead::Failed => LineRead::Failed,
    }
}

/// Reads the trailers behind a line that tells no bytes. The line tells this size, and has so many bytes.
fn read_behind<S: Source>(source: &mut S, ahead: &mut Ahead, size: u64, count: usize) -> LineRead
    requires { count ≤ line_limit }
    ensures { AfterLine result size count ahead.old ahead.new
        (S.gives source.old) (S.gives source.new) }
{
    if size > 0 {
        return LineRead::Piece(size, count);
    }
    match read_part(source, ahead, Part::Trailers) {
        PartRead::Whole(_, more) => LineRead::Last(count + more),
        PartRead::Refused => LineRead::Refused,
        PartRead::CutShort => LineRead::CutShort,
        PartRead::Failed => LineRead::Failed,
    }
}
