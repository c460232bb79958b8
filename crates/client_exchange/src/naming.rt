// How the fault of an answer is told.
ghost use Rattle.std.specs.Prelude.{◌≡◌, ◌==◌, IfOk};
ghost use Rattle.std.specs.List.{position};
ghost use Rattle.client_model.specs.Plans as spec;

use client_model::Fault;
use engine_text::{Bytes, NoMemory};
use std::alloc::Global;

/// Where the first line ends.
fn end_place(request: &[u8]) -> Option<usize>
    ensures { result ≡ position (λ b. b == 13) request.now }
{
    request.iter().position(|byte| *byte == b'\r')
}

/// What stands before that.
fn before_end(request: &[u8]) -> &[u8]
    ensures { result.now ≡ spec.first_line request.now }
{
    match end_place(request) {
        Some(place) => &request[..place],
        None => request,
    }
}

/// The first line of a request, without its end.
pub(crate) fn first_line(alloc: Global, request: &[u8]) -> Result<Bytes, NoMemory>
    ensures { IfOk result (λ line. line ≡ spec.first_line request.now) }
{
    Bytes::of(alloc, before_end(request))
}

/// A fault of an answer, told by this line of its request and by its status; another as it is.
#[tactic(auto, using(crate::proofs::AskingLemmas::as_it_is))]
pub fn fault_to(line: Bytes, status: Option<u16>, fault: Fault) -> Fault
    ensures { result ≡ spec.fault_to line status fault }
{
    match fault {
        Fault::Answer => Fault::AnswerTo {
            request: line,
            status,
        },
        other => other,
    }
}
