// A stream, as it is put on its way: its head, its parts by chunks, and its last chunk.
ghost use Rattle.std.specs.Prelude.{◌≡◌, ◌++◌, unwrap_or};
ghost use Rattle.http_edge.specs.Chunks.{last_chunk};
ghost use Rattle.http_edge.specs.declared.head.Form.TheVariants as form;
ghost use Rattle.api_routes.specs.declared.class.Takeover.{Takeover};
ghost use Rattle.session_model.specs.Exchange.{flow_of};
ghost use Rattle.session_model.specs.Responses.{chunked_form, head_of_stream};
ghost use Rattle.exchange_laws.specs.Answers.{one_chunk};
ghost use Rattle.polled_steps.specs.Answers.{IsAnswer};
ghost use Rattle.polled_steps.specs.Bytes.{rest_of};

use crate::answers::{Answer, sends};
use crate::outgoing::{Body, Outgoing, Tail};
use crate::texts::{chunk_front, head_front, last_front};
use engine_text::Reply;
use http_edge::{Form, Head};
use session_model::Terms;

/// The form of the stream that a reply gives.
fn form_of(reply: &Reply) -> Form
    ensures { result ≡ unwrap_or (chunked_form reply.now) form.Empty }
{
    match reply {
        Reply::LogStream { .. } => Form::ChunkedFrames,
        Reply::EventStream { first, .. } => Form::ChunkedJson {
            first: Some(*first),
        },
        Reply::JournalStream { .. } => Form::ChunkedPlain,
        Reply::Answer { .. } | Reply::Begun { .. } | Reply::Fed { .. } | Reply::Dropped => {
            Form::Empty
        }
    }
}

/// The head of the stream that a reply gives.
pub fn stream_head(terms: Terms, reply: &Reply) -> Outgoing
    ensures { rest_of result ≡ head_of_stream terms Takeover.None reply.now }
{
    let head = Head {
        status: 200,
        form: form_of(reply),
        close: terms.close,
    };
    Outgoing::new(head_front(&head), Body::None, Tail::None)
}

/// A part of a stream as a chunk, or nothing where it is empty.
pub fn chunk(bytes: Vec<u8>) -> Outgoing
    ensures { rest_of result ≡ one_chunk bytes.items }
{
    let len = bytes.len();
    if len == 0 {
        return Outgoing::none();
    }
    Outgoing::new(chunk_front(len as u64), Body::Part(bytes), Tail::Line)
}

/// The last part of a stream as a chunk, or as none where it is empty, and the last chunk.
pub fn last(terms: Terms, bytes: Vec<u8>) -> Answer
    ensures { IsAnswer result (flow_of terms) (one_chunk bytes.items ++ last_chunk) }
{
    let len = bytes.len();
    if len == 0 {
        return sends(terms, Outgoing::new(last_front(), Body::None, Tail::None));
    }
    let out = Outgoing::new(chunk_front(len as u64), Body::Part(bytes), Tail::Chunk);
    sends(terms, out)
}
