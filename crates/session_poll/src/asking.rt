// A request that is whole, and what its call came to.
ghost use Rattle.std.specs.Prelude.{◌≡◌};
ghost use Rattle.http_edge.specs.Reader.{request_of};
ghost use Rattle.session_model.specs.Exchange.{is_early};
ghost use Rattle.polled_steps.specs.Turning.{IsAskedWhole};
ghost use Rattle.session_poll.specs.Asking.{BeginsBy, GoesBy, HoldsBy, calls_of};

use crate::state::State;
use api_routes::{Class, Routes, Takeover};
use engine_text::Call;
use http_edge::RequestView;
use polled_steps::{Asked, direct, early, journal_full, out_of_memory, replied};
use session_model::Terms;
use std::alloc::Global;

/// Where a session stands behind a request that is whole.
pub(crate) fn begin(alloc: Global, routes: &Routes, request: &RequestView<'_>) -> State
    ensures { BeginsBy (request_of request.now) result }
{
    let terms = Terms::of(request);
    match routes.classify(alloc, request) {
        Ok(Class::Direct(answer)) => State::Sends(direct(alloc, terms, answer)),
        Ok(Class::Ask(call)) => {
            let early = is_early(request, &call);
            State::Asks { call, terms, early }
        }
        Ok(Class::Stream(call, Takeover::None)) => State::Opens { call, terms },
        Ok(Class::Stream(_, _)) => State::Sends(out_of_memory(terms)),
        Err(_) => State::Sends(out_of_memory(terms)),
    }
}

/// Whether the head of the call's answer comes before its ticket is taken.
fn is_early(request: &RequestView<'_>, call: &Call) -> bool
    ensures { result ≡ is_early (request_of request.now) call.now }
{
    match call {
        Call::Wait { .. } => request.asks_early(),
        _ => false,
    }
}

/// Where a session stands behind the call.
pub(crate) fn go_by(asked: Asked, terms: Terms, early: bool) -> State
    requires { IsAskedWhole asked }
    ensures { GoesBy asked terms early result }
{
    match asked {
        Asked::Replied(reply) => State::Sends(replied(terms, reply)),
        Asked::Begun(ticket) => hold(ticket, terms, early),
        Asked::JournalFull => State::Sends(journal_full(terms)),
        Asked::NoMemory => State::Sends(out_of_memory(terms)),
    }
}

/// Where it stands behind a call that gave a ticket.
fn hold(ticket: u64, terms: Terms, is_early: bool) -> State
    ensures { HoldsBy ticket terms is_early result }
{
    if is_early {
        State::WaitsEarly {
            ticket,
            terms,
            out: early(terms),
        }
    } else {
        State::Waits { ticket, terms }
    }
}

/// How many calls were made.
pub(crate) fn calls_of(asked: &Asked) -> u32
    ensures { result ≡ calls_of asked.now }
{
    match asked {
        Asked::Replied(_) | Asked::Begun(_) => 1,
        Asked::JournalFull | Asked::NoMemory => 0,
    }
}
