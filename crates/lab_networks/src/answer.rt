// What a request to networks is answered.
ghost use Rattle.std.specs.Prelude.{◌≡◌, IfOk};
ghost use Rattle.lab_networks.specs.Steps as spec;

use engine_text::{NoMemory, Text};
use std::alloc::Global;

/// A status, and the text of a body.
#[derive(Drop)]
pub struct Answer {
    pub status: u16,
    pub text: Text,
}

/// An answer of this text.
pub(crate) fn answer_of(alloc: Global, status: u16, text: &str) -> Result<Answer, NoMemory>
    ensures { IfOk result (λ a. a ≡ spec.answer status text.now) }
{
    let text = Text::of(alloc, text)?;
    Ok(Answer { status, text })
}

/// The answer of a network that doesn't stand.
pub(crate) fn missing(alloc: Global) -> Result<Answer, NoMemory>
    ensures { IfOk result (λ a. a ≡ spec.answer 404 spec.missing_text) }
{
    answer_of(alloc, 404, "{\"message\":\"network not found\"}")
}
