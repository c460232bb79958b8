// Parts of texts (own), found in time near linear.
ghost use Rattle.std.specs.Prelude.{◌≡◌};
ghost use Rattle.engine_text.specs.Texts.{has_part};

use memchr::memmem;

/// Whether the part stands somewhere in the text.
pub fn has_part(text: &[u8], part: &[u8]) -> bool
    ensures { result ≡ has_part text.now part.now }
{
    memmem::find(text, part).is_some()
}
