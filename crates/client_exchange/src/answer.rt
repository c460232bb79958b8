// An answer, read to its end.
ghost use Rattle.std.specs.Prelude.{◌≡◌, ◌<◌, [], true, false, length, nat_lt, Some};
ghost use Rattle.engine_ports.specs.Source.{SourceView};
ghost use Rattle.http_edge.specs.declared.head.Head.{Head};
ghost use Rattle.response_reader.specs.Heads.{first_in};
ghost use Rattle.response_reader.specs.Reader.{IsInBody};
ghost use Rattle.client_exchange.specs.Outputs.{outputs};
ghost use Rattle.client_exchange.specs.Taking.{taken};
ghost use Rattle.client_model.specs.declared.showing.Showing.TheVariants.{Kept};
ghost use Rattle.client_exchange.specs.Telling.{Stands, unread_answer, FaultSays, RefusalSays, AnswerSays};

use crate::failure::Failure;
use crate::following::follow;
use crate::got::Got;
use crate::limit::cut_fault;
use crate::made::fresh_taker;
use crate::taker::Taker;
use client_model::{Fault, Showing};
use client_parts::{Unread, message_in};
use engine_ports::{Sink, Source};
use response_reader::{Answered, ResponseReader};
use std::alloc::Global;
use std::sync::Wait;

/// The fault that a refusal tells, by its body and whether that came whole.
fn fault_in(alloc: Global, whole: bool, body: &[u8]) -> Fault
    ensures { FaultSays result whole body.now }
{
    if !whole {
        return cut_fault(body);
    }
    match message_in(alloc, body) {
        Ok(message) => Fault::Refused { message },
        Err(Unread::NoForm) => Fault::Answer,
        Err(Unread::NoMemory) => Fault::NoMemory,
    }
}

/// Reads the body of a refusal to its end, and keeps it: what it comes to.
fn refusal_kept<W: Wait, S: Source, K: Sink, E: Sink>(
    rt: &W,
    alloc: Global,
    reader: &mut ResponseReader,
    source: &mut S,
    place: &mut [u8],
    taker: &mut Taker,
    out: &mut K,
    errors: &mut E,
) -> Fault
    requires stage { IsInBody reader.old.stage }
    requires place { 0 < length place.old }
    requires fresh { taker.old ≡ taken taker.old.showing [] }
    requires kept { taker.old.showing ≡ Kept }
    ensures { (came : SourceView) (h : Head) → came.ends ≡ 0
        → Stands came h [] reader.old (S.gives source.old)
        → nat_lt h.status 400 ≡ false → RefusalSays result (Some h.status) came (S.gives source.new)
        (outputs (K.takes out.old) (E.takes errors.old))
        (outputs (K.takes out.new) (E.takes errors.new)) }
{
    match follow(rt, reader, source, place, taker, out, errors) {
        Ok(whole) => fault_in(alloc, whole, taker.kept()),
        Err(fault) => fault,
    }
}

/// Reads the body of a refusal to its end: what it comes to.
fn refusal<W: Wait, S: Source, K: Sink, E: Sink>(
    rt: &W,
    alloc: Global,
    reader: &mut ResponseReader,
    source: &mut S,
    place: &mut [u8],
    out: &mut K,
    errors: &mut E,
) -> Fault
    requires stage { IsInBody reader.old.stage }
    requires place { 0 < length place.old }
    ensures { (came : SourceView) (h : Head) → came.ends ≡ 0
        → Stands came h [] reader.old (S.gives source.old)
        → nat_lt h.status 400 ≡ false → RefusalSays result (Some h.status) came (S.gives source.new)
        (outputs (K.takes out.old) (E.takes errors.old))
        (outputs (K.takes out.new) (E.takes errors.new)) }
{
    let mut taker = fresh_taker(alloc, Showing::Kept);
    refusal_kept(rt, alloc, reader, source, place, &mut taker, out, errors)
}

/// Reads the body of an answer that doesn't refuse.
fn go_on<W: Wait, S: Source, K: Sink, E: Sink>(
    rt: &W,
    reader: &mut ResponseReader,
    source: &mut S,
    place: &mut [u8],
    status: u16,
    first: Option<u64>,
    taker: &mut Taker,
    out: &mut K,
    errors: &mut E,
) -> Result<Got, Failure>
    requires stage { IsInBody reader.old.stage }
    requires place { 0 < length place.old }
    requires fresh { taker.old ≡ taken taker.old.showing [] }
    ensures { (came : SourceView) (h : Head) → came.ends ≡ 0
        → Stands came h [] reader.old (S.gives source.old)
        → nat_lt h.status 400 ≡ true → status ≡ h.status → first ≡ first_in h.form
        → AnswerSays result taker.old.showing taker.new came (S.gives source.new)
        (outputs (K.takes out.old) (E.takes errors.old))
        (outputs (K.takes out.new) (E.takes errors.new)) }
{
    match follow(rt, reader, source, place, taker, out, errors) {
        Ok(whole) => Ok(Got {
            status,
            first,
            whole,
        }),
        Err(fault) => Err(Failure {
            fault,
            status: Some(status),
        }),
    }
}

/// Reads an answer to its end, and shows its body as it comes.
pub(crate) fn read_answer<W: Wait, S: Source, K: Sink, E: Sink>(
    rt: &W,
    alloc: Global,
    reader: &mut ResponseReader,
    source: &mut S,
    place: &mut [u8],
    taker: &mut Taker,
    out: &mut K,
    errors: &mut E,
) -> Result<Got, Failure>
    requires new { (S.gives source.old).ends ≡ 0 }
    requires unread { reader.old ≡ unread_answer }
    requires place { 0 < length place.old }
    requires fresh { taker.old ≡ taken taker.old.showing [] }
    ensures { AnswerSays result taker.old.showing taker.new
        (S.gives source.old) (S.gives source.new)
        (outputs (K.takes out.old) (E.takes errors.old))
        (outputs (K.takes out.new) (E.takes errors.new)) }
{
    match reader.head(source) {
        Answered::Head { status, first } => {
            if status < 400 {
                go_on(rt, reader, source, place, status, first, taker, out, errors)
            } else {
                Err(Failure {
                    fault: refusal(rt, alloc, reader, source, place, out, errors),
                    status: Some(status),
                })
            }
        }
        Answered::BadHead { .. } => Err(Failure {
            fault: Fault::Answer,
            status: None,
        }),
        Answered::CutShort => Err(Failure {
            fault: Fault::Answer,
            status: None,
        }),
        Answered::ReadFault => Err(Failure {
            fault: Fault::Connection,
            status: None,
        }),
    }
}
