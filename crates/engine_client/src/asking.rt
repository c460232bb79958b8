// Steps that ask.
ghost use Rattle.std.specs.Prelude.{◌≡◌, false, true, IfOk, if◌then◌else◌};
ghost use Rattle.http_edge.specs.Message.{Request};
ghost use Rattle.client_model.specs.Requests.{request_bytes};
ghost use Rattle.client_model.specs.Plans.{asks_and_prints};
ghost use Rattle.client_exchange.specs.Asking.{asked_as, asks_then};
ghost use Rattle.engine_client.specs.Places.{GoesOn, feeds_at, plan_at};

use crate::onward::Then;
use crate::step::Step;
use client_exchange::Ask;
use client_model::{Fault, Showing};
use engine_text::{NoMemory, Text};
use std::alloc::Global;

/// It asks, where memory for the request was had, and goes on behind the answer.
pub(crate) fn asks(
    request: Result<Vec<u8>, NoMemory>,
    input: bool,
    showing: Showing,
    place: Then,
) -> Result<Step, Fault>
    ensures { (r : Request) → IfOk request (λ v. v.items ≡ request_bytes r)
        → (input ≡ true → feeds_at place ≡ false)
        → GoesOn result (if input then true else feeds_at place)
        (asks_then (asked_as r input showing) (plan_at place)) }
{
    let Ok(request) = request else {
        return Err(Fault::NoMemory);
    };
    Ok(Step::Asks {
        ask: Ask {
            request,
            input,
            showing,
        },
        place,
    })
}

/// It asks, and prints a line.
pub(crate) fn asks_and_prints(
    alloc: Global,
    request: Result<Vec<u8>, NoMemory>,
    line: &Text,
) -> Result<Step, Fault>
    ensures { (r : Request) → IfOk request (λ v. v.items ≡ request_bytes r)
        → GoesOn result false (asks_and_prints r line.now) }
{
    let Ok(line) = line.copy(alloc) else {
        return Err(Fault::NoMemory);
    };
    asks(request, false, Showing::Kept, Then::Prints { line })
}
