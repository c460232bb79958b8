// The description of what control answers.
ghost use Rattle.std.specs.Prelude.{◌≡◌};
ghost use Rattle.engine_ports.specs.Sink.{WriteSays};
ghost use Rattle.lab_control.specs.Describing as spec;

use engine_ports::{Failed, Sink};
use http_edge::{Form, Head, write_answer};
use json_answer::Terms;

/// What control answers, as OpenAPI has it.
#[tactic(auto, unfolding(crate::specs::Describing::description))]
fn description() -> &'static str
    ensures { result.now ≡ spec.description }
{
    "openapi: 3.0.3\n\
     info: {title: enginelab control, version: 1.0.0}\n\
     paths:\n\
     \x20 /clock:\n\
     \x20   get:\n\
     \x20     summary: the moment, in milliseconds since 1970\n\
     \x20     responses:\n\
     \x20       '200': {description: the moment, content: {application/json: {schema: {$ref: '#/components/schemas/Moment'}}}}\n\
     \x20   post:\n\
     \x20     summary: moves the clock, to a moment or by so many milliseconds\n\
     \x20     parameters:\n\
     \x20       - {name: to, in: query, schema: {type: integer}}\n\
     \x20       - {name: by, in: query, schema: {type: integer}}\n\
     \x20     responses:\n\
     \x20       '200': {description: the moment then, content: {application/json: {schema: {$ref: '#/components/schemas/Moment'}}}}\n\
     \x20       '400': {description: the move is refused, and nothing changed}\n\
     \x20 /journal:\n\
     \x20   get:\n\
     \x20     summary: the daemon's journal, in lines of JSON\n\
     \x20     responses:\n\
     \x20       '200': {description: the journal}\n\
     \x20 /openapi.yaml:\n\
     \x20   get:\n\
     \x20     summary: this text\n\
     \x20     responses:\n\
     \x20       '200': {description: this text}\n\
     \x20 /stop:\n\
     \x20   post:\n\
     \x20     summary: ends the program\n\
     \x20     responses:\n\
     \x20       '200': {description: the program ends}\n\
     components:\n\
     \x20 schemas:\n\
     \x20   Moment: {type: object, required: [moment], properties: {moment: {type: integer}}}\n"
}

/// Writes the description, as the answer to a request whose method isn't HEAD. It takes no memory.
pub fn write_description<K: Sink>(sink: &mut K, terms: Terms) -> Result<(), Failed>
    ensures { WriteSays result (spec.description_answer terms)
        (K.takes sink.old) (K.takes sink.new) }
{
    let text = description().as_bytes();
    let head = Head {
        status: 200,
        form: Form::Plain(text.len() as u64),
        close: terms.close,
    };
    write_answer(sink, &head, text)
}
