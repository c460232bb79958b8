// A request and its input over a connection of its own.
ghost use Rattle.std.specs.Prelude.{◌≡◌, ◌<◌, [], length};
ghost use Rattle.engine_ports.specs.Link.{but_for};
ghost use Rattle.client_exchange.specs.Outputs.{outputs};
ghost use Rattle.client_exchange.specs.Taking.{taken};
ghost use Rattle.client_exchange.specs.Telling.{unread_answer};
ghost use Rattle.client_exchange.specs.Exchanges.{reach};
ghost use Rattle.client_exchange.specs.Feeding.{TalkSays, FedSays};

use crate::answer::read_answer;
use crate::connection::place;
use crate::failure::Failure;
use crate::got::Got;
use crate::sending::send_with_input;
use crate::taker::Taker;
use client_model::Fault;
use engine_ports::{Link, Sink, Source};
use response_reader::ResponseReader;
use std::alloc::Global;
use std::sync::Wait;

/// Sends a request and its input on a new connection, and reads its answer to its end.
fn talk<W: Wait, N: Source, S: Source, I: Sink, K: Sink, E: Sink>(
    rt: &W,
    alloc: Global,
    reader: &mut ResponseReader,
    from: &mut S,
    into: &mut I,
    request: &[u8],
    input: &mut N,
    place: &mut [u8],
    taker: &mut Taker,
    out: &mut K,
    errors: &mut E,
) -> Result<Got, Failure>
    requires new { (S.gives from.old).ends ≡ 0 }
    requires unread { reader.old ≡ unread_answer }
    requires place { 0 < length place.old }
    requires fresh { taker.old ≡ taken taker.old.showing [] }
    ensures { TalkSays request.now result taker.old.showing taker.new
        (N.gives input.old) (N.gives input.new)
        (S.gives from.old) (S.gives from.new) (I.takes into.old) (I.takes into.new)
        (outputs (K.takes out.old) (E.takes errors.old))
        (outputs (K.takes out.new) (E.takes errors.new)) }
{
    match send_with_input(rt, request, input, into, place) {
        Ok(()) => read_answer(rt, alloc, reader, from, place, taker, out, errors),
        Err(fault) => Err(Failure {
            fault,
            status: None,
        }),
    }
}

/// Sends a request over a connection of its own, and behind it standard input to its end; then reads its answer to its end, and
/// shows the body as it comes. The connection is given back in any case.
pub(crate) fn exchange_with_input<W: Wait, L: Link, N: Source, K: Sink, E: Sink>(
    rt: &W,
    alloc: Global,
    link: &mut L,
    address: &str,
    request: &[u8],
    input: &mut N,
    taker: &mut Taker,
    out: &mut K,
    errors: &mut E,
) -> Result<Got, Failure>
    requires { taker.old ≡ taken taker.old.showing [] }
    ensures { FedSays request.now result taker.old.showing taker.new
        (N.gives input.old) (N.gives input.new)
        (reach (but_for address.now (L.links link.old)) (K.takes out.old) (E.takes errors.old))
        (reach (but_for address.now (L.links link.new)) (K.takes out.new) (E.takes errors.new)) }
{
    let Ok(mut reader) = ResponseReader::new(alloc) else {
        return Err(Failure {
            fault: Fault::NoMemory,
            status: None,
        });
    };
    let Ok(mut place) = place(alloc) else {
        return Err(Failure {
            fault: Fault::NoMemory,
            status: None,
        });
    };
    let Ok((mut from, mut into)) = link.connect(address) else {
        return Err(Failure {
            fault: Fault::Link,
            status: None,
        });
    };
    let got = talk(
        rt,
        alloc,
        &mut reader,
        &mut from,
        &mut into,
        request,
        input,
        &mut place,
        taker,
        out,
        errors,
    );
    link.leave(from, into);
    got
}
