// A JSON text as an answer.
ghost use Rattle.engine_ports.specs.Sink.{WriteSays};
ghost use Rattle.json_answer.specs.Answer.{json_answer};

use crate::asking::Terms;
use engine_ports::{Failed, Sink};
use http_edge::{Form, Head, write_answer, write_head};

/// Writes a JSON text as an answer. It takes no memory.
pub fn write_json<K: Sink>(
    sink: &mut K,
    terms: Terms,
    status: u16,
    body: &[u8],
) -> Result<(), Failed>
    ensures { WriteSays result (json_answer terms status body.now)
        (K.takes sink.old) (K.takes sink.new) }
{
    let head = Head {
        status,
        form: Form::Json(body.len() as u64),
        close: terms.close,
    };
    if terms.bare {
        return write_head(sink, &head);
    }
    write_answer(sink, &head, body)
}
