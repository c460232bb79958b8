// One request over a connection of its own.
ghost use Rattle.std.specs.Prelude.{◌≡◌, ◌<◌, [], length, IfOk};
ghost use Rattle.engine_ports.specs.Link.{but_for};
ghost use Rattle.client_exchange.specs.Outputs.{outputs};
ghost use Rattle.client_exchange.specs.Taking.{taken};
ghost use Rattle.client_exchange.specs.Telling.{unread_answer};
ghost use Rattle.client_exchange.specs.Exchanges.{ConverseSays, ExchangeSays, reach};

use crate::answer::read_answer;
use crate::failure::Failure;
use crate::got::Got;
use crate::taker::Taker;
use client_model::Fault;
use engine_ports::{Link, NoMemory, Sink, Source};
use response_reader::ResponseReader;
use std::alloc::Global;
use std::sync::Wait;

/// How many bytes of a body are taken at once at most.
const PIECE: usize = 4_096;

/// A place for pieces of a body.
pub(crate) fn place(alloc: Global) -> Result<Vec<u8>, NoMemory>
    ensures { IfOk result (λ v. 0 < length v.items) }
{
    let mut bytes = Vec::new(alloc);
    bytes.resize(PIECE, 0)?;
    Ok(bytes)
}

/// Sends a request on a new connection, and reads its answer to its end.
fn converse<W: Wait, S: Source, I: Sink, K: Sink, E: Sink>(
    rt: &W,
    alloc: Global,
    reader: &mut ResponseReader,
    from: &mut S,
    into: &mut I,
    request: &[u8],
    place: &mut [u8],
    taker: &mut Taker,
    out: &mut K,
    errors: &mut E,
) -> Result<Got, Failure>
    requires new { (S.gives from.old).ends ≡ 0 }
    requires unread { reader.old ≡ unread_answer }
    requires place { 0 < length place.old }
    requires fresh { taker.old ≡ taken taker.old.showing [] }
    ensures { ConverseSays request.now ⊥ result taker.old.showing taker.new
        (S.gives from.old) (S.gives from.new) (I.takes into.old) (I.takes into.new)
        (outputs (K.takes out.old) (E.takes errors.old))
        (outputs (K.takes out.new) (E.takes errors.new)) }
{
    match into.write(request) {
        Ok(()) => read_answer(rt, alloc, reader, from, place, taker, out, errors),
        Err(_) => Err(Failure {
            fault: Fault::Connection,
            status: None,
        }),
    }
}

/// Sends a request over a connection of its own, reads its answer to its end, and shows the body as it comes. The connection is
/// given back in any case. What it needs of memory, but for what is kept of a body, it takes before it connects.
pub(crate) fn exchange<W: Wait, L: Link, K: Sink, E: Sink>(
    rt: &W,
    alloc: Global,
    link: &mut L,
    address: &str,
    request: &[u8],
    taker: &mut Taker,
    out: &mut K,
    errors: &mut E,
) -> Result<Got, Failure>
    requires { taker.old ≡ taken taker.old.showing [] }
    ensures { ExchangeSays request.now result taker.old.showing taker.new
        (reach (but_for address.now (L.links link.old)) (K.takes out.old) (E.takes errors.old))
        (reach (but_for address.now (L.links link.new)) (K.takes out.new) (E.takes errors.new)) }
{
    let Ok(mut reader) = ResponseReader::new(alloc) else {
        return Err(Failure {
            fault: Fault::NoMemory,
            status: None,
        });
    };
    let Ok(mut place) = place(alloc) else {
        return Err(Failure {
            fault: Fault::NoMemory,
            status: None,
        });
    };
    let Ok((mut from, mut into)) = link.connect(address) else {
        return Err(Failure {
            fault: Fault::Link,
            status: None,
        });
    };
    let got = converse(
        rt,
        alloc,
        &mut reader,
        &mut from,
        &mut into,
        request,
        &mut place,
        taker,
        out,
        errors,
    );
    link.leave(from, into);
    got
}
