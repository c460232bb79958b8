// Pieces of bodies: texts, words and names.
ghost use Rattle.std.specs.Prelude.{◌≡◌, ◌++◌, IfOk, string_bytes, drop, codes};
ghost use Rattle.engine_text.specs.Moment.{moment_text as text_of_moment, IsMoment};
ghost use Rattle.api_json.specs.Values as spec;

use engine_text::{Text, moment_text};
use std::alloc::{AllocError, Global};

/// The name of the one image.
pub const IMAGE_NAME: &str = "engine/tools:latest";

/// The text of a moment, or of none.
pub fn moment_string(alloc: Global, moment: Option<u64>) -> Result<String, AllocError>
    requires { IsMoment moment }
    ensures { IfOk result (λ s. string_bytes s ≡ text_of_moment moment) }
{
    let (bytes, len) = moment_text(moment);
    let Ok(text) = str::from_utf8(&bytes[..len]) else {
        return Err(AllocError);
    };
    String::from_str(alloc, text)
}

/// The first word, or the empty text.
pub fn first_word(words: &[Text]) -> &str
    ensures { result.now ≡ spec.first_word words.now }
{
    match words {
        [] => "",
        [first, ..] => first.as_str(),
    }
}

/// The words after the first.
pub fn later_words(words: &[Text]) -> &[Text]
    ensures { result.now ≡ drop 1 words.now }
{
    match words {
        [] => words,
        [_, later @ ..] => later,
    }
}

/// A name with a slash before it.
pub fn slash_name(alloc: Global, name: &str) -> Result<String, AllocError>
    ensures { IfOk result (λ s. string_bytes s ≡ codes "/" ++ name.now) }
{
    format!(in alloc; "/{name}")
}
