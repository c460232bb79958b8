// An answer is written as it is shown.
ghost use Rattle.engine_ports.specs.Sink.{WriteSays};
ghost use Rattle.lab_shown.specs.Asked as spec;

use crate::asking::Asked;
use crate::listing::{write_list, write_listed};
use crate::refusing::{write_done, write_removed};
use crate::taking::Taking;
use crate::writing::write_read;
use engine_ports::Failed;

/// Writes the piece behind a request that asks so, as it is shown: of a list the item with this text. It takes no
/// memory.
pub fn write_shown<W: Taking>(
    sink: &mut W,
    asked: Asked,
    text: &[u8],
    piece: &[u8],
) -> Result<(), Failed>
    ensures { WriteSays result (spec.shown_to asked text.now piece.now)
        (W.takes sink.old) (W.takes sink.new) }
{
    match asked {
        Asked::Read => write_read(sink, piece),
        Asked::Done => write_done(sink, piece),
        Asked::Removed => write_removed(sink, piece),
        Asked::Listed => write_listed(sink, text, piece),
        Asked::Behind(close) => write_list(sink, text, close, piece),
    }
}
