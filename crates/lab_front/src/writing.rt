// A row's answer.
ghost use Rattle.engine_ports.specs.Sink.{WriteSays};
ghost use Rattle.json_answer.specs.Answer.{json_answer};
ghost use Rattle.lab_front.specs.Texts as spec;

use crate::table::Row;
use crate::texts::{status_of, text_of};
use engine_ports::{Failed, Sink};
use json_answer::{Terms, write_json};

/// Writes the answer of a row. It takes no memory.
pub fn write_row<K: Sink>(sink: &mut K, terms: Terms, row: Row) -> Result<(), Failed>
    ensures { WriteSays result (json_answer terms (spec.status_of row) (spec.text_of row))
        (K.takes sink.old) (K.takes sink.new) }
{
    write_json(sink, terms, status_of(row), text_of(row).as_bytes())
}
