// How lines are written, told where words are none.
ghost use Rattle.std.specs.Prelude.{◌≡◌};
ghost use Rattle.client_model.specs.Lines as lines;
ghost use Rattle.client_model.specs.Usage as spec;

use crate::words::{ANY, usage_of};
use engine_text::Text;

/// What stands behind ADDR of the command that the second word names.
pub(crate) fn usage_for(words: &[Text]) -> &'static str
    ensures { result.now ≡ spec.usage_for words.now }
{
    match words {
        [] | [_] => ANY,
        [_, name, ..] => usage_of(name.as_str()),
    }
}

/// The daemon's address: the first word.
pub(crate) fn address_in(words: &[Text]) -> &str
    ensures { result.now ≡ lines.address_in words.now }
{
    match words {
        [] => "",
        [address, ..] => address.as_str(),
    }
}
