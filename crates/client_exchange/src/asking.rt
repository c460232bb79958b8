// One request, and what is handed on of its answer.
ghost use Rattle.std.specs.Prelude.{◌≡◌, ◌&&◌, []};
ghost use Rattle.engine_ports.specs.Link.{but_for};
ghost use Rattle.http_edge.specs.Message.{Request};
ghost use Rattle.client_model.specs.Requests.{request_bytes};
ghost use Rattle.client_exchange.specs.Taking.{ends_by, taken};
ghost use Rattle.client_exchange.specs.Asking.{AskDoes, asked_as};
ghost use Rattle.client_exchange.specs.Exchanges.{reach};
ghost use Rattle.client_exchange.specs.Feeding.{SaysAs};

use crate::body::Body;
use crate::connection::exchange;
use crate::failure::Failure;
use crate::feeding::exchange_with_input;
use crate::got::Got;
use crate::made::fresh_taker;
use crate::naming::{fault_to, first_line};
use crate::outside::Outside;
use crate::request::Ask;
use crate::taker::Taker;
use client_model::Fault;
use engine_ports::{Link, Sink, Source};
use engine_text::Bytes;
use std::alloc::Global;
use std::sync::Wait;

/// Sends a request, and maybe standard input behind it; then shows the body of its answer through this taker.
fn exchange_as<W: Wait, L: Link, N: Source, K: Sink, E: Sink>(
    rt: &W,
    alloc: Global,
    outside: &mut Outside<L, N, K, E>,
    address: &str,
    request: &[u8],
    fed: bool,
    taker: &mut Taker,
) -> Result<Got, Failure>
    requires { taker.old ≡ taken taker.old.showing [] }
    ensures { SaysAs fed request.now result taker.old.showing taker.new
        (N.gives outside.old.input) (N.gives outside.new.input)
        (reach (but_for address.now (L.links outside.old.link)) (K.takes outside.old.out)
        (E.takes outside.old.errors))
        (reach (but_for address.now (L.links outside.new.link)) (K.takes outside.new.out)
        (E.takes outside.new.errors)) }
{
    if fed {
        exchange_with_input(
            rt,
            alloc,
            &mut outside.link,
            address,
            request,
            &mut outside.input,
            taker,
            &mut outside.out,
            &mut outside.errors,
        )
    } else {
        exchange(
            rt,
            alloc,
            &mut outside.link,
            address,
            request,
            taker,
            &mut outside.out,
            &mut outside.errors,
        )
    }
}

/// Whether all of a body came, and it ends where it may.
fn is_whole(got: Got, taker: &Taker) -> bool
    ensures { result ≡ got.whole && ends_by taker.now }
{
    if got.whole { taker.may_end() } else { false }
}

/// What is handed on of an answer whose body this taker took, and of its request's first line.
fn body_of(line: Bytes, got: Got, taker: Taker) -> Body
    ensures line { result.line ≡ line }
    ensures status { result.status ≡ got.status }
    ensures first { result.first ≡ got.first }
    ensures bytes { result.bytes.items ≡ taker.kept }
    ensures whole { result.whole ≡ got.whole && ends_by taker }
{
    let whole = is_whole(got, &taker);
    Body {
        line,
        status: got.status,
        first: got.first,
        bytes: taker.into_kept(),
        whole,
    }
}

/// Asks over a connection of its own, and shows the body of the answer as it comes; hands on what is told of it. The
/// connection is given back in any case. What it needs of memory, but for what is kept of a body, it takes before it connects.
pub fn ask<W: Wait, L: Link, N: Source, K: Sink, E: Sink>(
    rt: &W,
    alloc: Global,
    outside: &mut Outside<L, N, K, E>,
    address: &str,
    ask: &Ask,
) -> Result<Body, Fault>
    ensures { (r : Request) → ask.now.request.items ≡ request_bytes r
        → AskDoes (asked_as r ask.now.input ask.now.showing) result
        (N.gives outside.old.input) (N.gives outside.new.input)
        (reach (but_for address.now (L.links outside.old.link)) (K.takes outside.old.out)
        (E.takes outside.old.errors))
        (reach (but_for address.now (L.links outside.new.link)) (K.takes outside.new.out)
        (E.takes outside.new.errors)) }
{
    let Ok(line) = first_line(alloc, &ask.request) else {
        return Err(Fault::NoMemory);
    };
    let mut taker = fresh_taker(alloc, ask.showing);
    match exchange_as(
        rt,
        alloc,
        outside,
        address,
        &ask.request,
        ask.input,
        &mut taker,
    ) {
        Ok(got) => Ok(body_of(line, got, taker)),
        Err(failure) => Err(fault_to(line, failure.status, failure.fault)),
    }
}
