// Answers, as they are put on their way.
ghost use Rattle.std.specs.Prelude.{◌≡◌, ◌++◌, length};
ghost use Rattle.http_edge.specs.Chunks.{last_chunk};
ghost use Rattle.http_edge.specs.Response.{refusal_bytes};
ghost use Rattle.http_edge.specs.declared.head.Form as form;
ghost use Rattle.session_model.specs.declared.followed.Followed.TheVariants as followed;
ghost use Rattle.session_model.specs.Exchange.{flow_of};
ghost use Rattle.session_model.specs.Responses.{early_head, journal_full_response, json_bytes, message_bytes, out_of_memory_response, stopping_response, whole_bytes};
ghost use Rattle.daemon_core.specs.Whole.{IsAnswer};
ghost use Rattle.exchange_laws.specs.Answers.{broken_flow};
ghost use Rattle.exchange_laws.specs.Fixed.{fixed_status, fixed_text};
ghost use Rattle.polled_steps.specs.Bytes.{body_bytes, rest_of};
ghost use Rattle.polled_steps.specs.Answers.{AnswersChunk, AnswersDirect, AnswersReply, GoesBehind, HasStatus, IsAnswer as Gives, IsBroken};

use crate::outgoing::{Body, Outgoing, Tail, answer_body};
use crate::texts::{chunk_front, head_front, last_front, refusal_front};
use api_routes::{DirectAnswer, DirectKind};
use engine_text::{NoMemory, Reply};
use exchange_laws::{Fixed, form_of, message};
use http_edge::{Form, Head};
use session_model::{Ending, Terms};
use std::alloc::Global;

/// How a session goes on behind an answer that is written.
#[derive(Clone, Copy, Debug, PartialEq, Eq, Drop)]
pub enum Behind {
    /// With the next request.
    Reads,
    Ends(Ending),
}

/// What is written of an answer, and how the session goes on behind it.
#[derive(Drop)]
pub struct Answer {
    pub out: Outgoing,
    pub next: Behind,
}

/// How a session goes on behind a whole answer.
fn behind_whole(terms: Terms) -> Behind
    ensures { GoesBehind result (flow_of terms) }
{
    if terms.close {
        Behind::Ends(Ending::Closed)
    } else {
        Behind::Reads
    }
}

/// An answer, to be written whole.
fn whole(terms: Terms, status: u16, form: Form, body: Body) -> Outgoing
    ensures { rest_of result ≡ whole_bytes terms status form (body_bytes body) }
{
    let head = Head {
        status,
        form,
        close: terms.close,
    };
    let front = head_front(&head);
    if terms.bare {
        return Outgoing::new(front, Body::None, Tail::None);
    }
    Outgoing::new(front, body, Tail::None)
}

/// An answer with a JSON text.
fn json(terms: Terms, status: u16, body: Body) -> Outgoing
    ensures { rest_of result ≡ json_bytes terms status (body_bytes body) }
{
    let form = Form::Json(body.as_slice().len() as u64);
    whole(terms, status, form, body)
}

/// An answer whose message is always the same.
fn fixed(terms: Terms, fixed: Fixed) -> Outgoing
    ensures { rest_of result ≡ message_bytes terms (fixed_status fixed) (fixed_text fixed) }
{
    json(terms, fixed.status(), Body::Fixed(fixed))
}

/// That memory was refused.
pub fn out_of_memory(terms: Terms) -> Answer
    ensures { Gives result (flow_of terms) (out_of_memory_response terms) }
{
    sends(terms, fixed(terms, Fixed::OutOfMemory))
}

/// That the journal has no room.
pub fn journal_full(terms: Terms) -> Answer
    ensures { Gives result (flow_of terms) (journal_full_response terms) }
{
    sends(terms, fixed(terms, Fixed::JournalFull))
}

/// That a wait was stopped, behind which the session ends.
pub fn stopping(terms: Terms) -> Answer
    ensures { Gives result (broken_flow followed.Stopped) (stopping_response terms) }
{
    Answer {
        out: fixed(terms, Fixed::Stopping),
        next: Behind::Ends(Ending::Stopped),
    }
}

/// That a request is refused with this status.
pub fn refusal(status: u16) -> Outgoing
    ensures { rest_of result ≡ refusal_bytes status }
{
    Outgoing::new(refusal_front(status), Body::None, Tail::None)
}

/// An answer that the request's bytes decide, or that memory was refused for it.
pub fn direct(alloc: Global, terms: Terms, answer: DirectAnswer) -> Answer
    ensures { AnswersDirect terms answer result }
{
    let DirectAnswer { status, text, kind } = answer;
    match kind {
        DirectKind::Message => match message(alloc, &text) {
            Ok(body) => sends(terms, json(terms, status, Body::Text(body))),
            Err(NoMemory) => out_of_memory(terms),
        },
        DirectKind::Json => sends(terms, json(terms, status, Body::Text(text))),
        DirectKind::Plain => {
            let form = Form::Plain(text.as_slice().len() as u64);
            sends(terms, whole(terms, status, form, Body::Text(text)))
        }
    }
}

/// An answer, behind which the session goes on as its request asks.
pub(crate) fn sends(terms: Terms, out: Outgoing) -> Answer
    ensures { Gives result (flow_of terms) (rest_of out) }
{
    let next = behind_whole(terms);
    Answer { out, next }
}

/// The status of a reply that is an answer.
fn status_of(reply: &Reply) -> u16
    requires { IsAnswer reply.now }
    ensures { HasStatus reply.now result }
{
    match reply {
        Reply::Answer { status, .. } => *status,
        _ => unreachable!(),
    }
}

/// The answer of a reply.
pub fn replied(terms: Terms, reply: Reply) -> Answer
    requires { IsAnswer reply }
    ensures { AnswersReply terms reply result }
{
    let status = status_of(&reply);
    let form = form_of(status, answer_body(&reply));
    sends(terms, whole(terms, status, form, Body::Reply(reply)))
}

/// The head of a body whose length isn't known yet.
pub fn early(terms: Terms) -> Outgoing
    ensures { rest_of result ≡ early_head terms }
{
    let head = Head {
        status: 200,
        form: Form::ChunkedJson { first: None },
        close: terms.close,
    };
    Outgoing::new(head_front(&head), Body::None, Tail::None)
}

/// The body of a reply as one chunk, or as none where it is empty, and the last chunk.
pub fn replied_early(terms: Terms, reply: Reply) -> Answer
    requires { IsAnswer reply }
    ensures { AnswersChunk terms reply result }
{
    let len = answer_body(&reply).len();
    if len == 0 {
        return sends(terms, Outgoing::new(last_front(), Body::None, Tail::None));
    }
    let out = Outgoing::new(chunk_front(len as u64), Body::Reply(reply), Tail::Chunk);
    sends(terms, out)
}

/// A wait whose head came early was broken off: nothing more is written.
pub fn broken(ending: Ending) -> Answer
    ensures { IsBroken result ending }
{
    Answer {
        out: Outgoing::none(),
        next: Behind::Ends(ending),
    }
}
