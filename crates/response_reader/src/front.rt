// The head at the front of the input.
ghost use Rattle.response_reader.specs.Steps.{FrontReadSays};

use crate::heads::{Front, front_of};
use engine_ports::{Got, Source};
use http_edge::{Ahead, Head};

/// What the front of the input is.
#[derive(Clone, Copy)]
pub(crate) enum FrontRead {
    /// A head, of so many bytes of those ahead.
    Head(Head, usize),
    Never,
    CutShort,
    Failed,
}

/// Reads until the bytes ahead begin with a head.
pub(crate) fn read_front<S: Source>(source: &mut S, ahead: &mut Ahead) -> FrontRead
    ensures { FrontReadSays result ahead.old ahead.new (S.gives source.old) (S.gives source.new) }
{
    'more: loop {
        match front_of(ahead.as_slice()) {
            Front::Head(head, len) => return FrontRead::Head(head, len),
            Front::Never => return FrontRead::Never,
            Front::Part => {}
        }
        match ahead.read(source) {
            Got::Bytes(_) => {}
            Got::End => return FrontRead::CutShort,
            Got::Failed => return FrontRead::Failed,
        }
    }
}
