// A body, read and shown as it comes.
ghost use Rattle.std.specs.Prelude.{◌≡◌, ◌<◌, [], length};
ghost use Rattle.engine_ports.specs.Source.{SourceView};
ghost use Rattle.http_edge.specs.declared.head.Head.{Head};
ghost use Rattle.response_reader.specs.Reader.{IsInBody};
ghost use Rattle.client_exchange.specs.Outputs.{outputs};
ghost use Rattle.client_exchange.specs.Taking.{taken};
ghost use Rattle.client_exchange.specs.Telling.{Stands, FollowSays};

use crate::taker::Taker;
use client_model::Fault;
use engine_ports::{Sink, Source};
use response_reader::{BodyGot, ResponseReader};
use std::sync::Wait;

/// Reads a body to its end, or to where so much shows that it can't be taken, through this place, and shows each piece as it
/// comes; tells whether all of it came.
pub(crate) fn follow<W: Wait, S: Source, K: Sink, E: Sink>(
    rt: &W,
    reader: &mut ResponseReader,
    source: &mut S,
    place: &mut [u8],
    taker: &mut Taker,
    out: &mut K,
    errors: &mut E,
) -> Result<bool, Fault>
    requires stage { IsInBody reader.old.stage }
    requires place { 0 < length place.old }
    requires fresh { taker.old ≡ taken taker.old.showing [] }
    ensures { (came : SourceView) (h : Head) → came.ends ≡ 0
        → Stands came h [] reader.old (S.gives source.old)
        → FollowSays result came h taker.old.showing taker.new (S.gives source.new)
        (outputs (K.takes out.old) (E.takes errors.old))
        (outputs (K.takes out.new) (E.takes errors.new)) }
{
    for _ in rt.forever() {
        match reader.body(source, place) {
            BodyGot::Bytes(count) => match taker.take(&place[..count], out, errors) {
                Ok(()) => {
                    if taker.is_unfit() {
                        return Ok(false);
                    }
                }
                Err(fault) => return Err(fault),
            },
            BodyGot::End => return Ok(true),
            BodyGot::BadChunk { .. } => return Ok(false),
            BodyGot::CutShort => return Ok(false),
            BodyGot::ReadFault => return Err(Fault::Connection),
        }
    }
    unreachable!()
}
