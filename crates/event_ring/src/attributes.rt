// The attributes of events (Docker Engine API v1.43, definition EventActor).
ghost use Rattle.std.specs.Prelude.{◌≡◌, find};
ghost use Rattle.std.specs.Option.{option_copied};
ghost use Rattle.engine_text.specs.Texts.{same_bytes};
ghost use Rattle.event_ring.specs.Filter as spec;

use engine_text::{Event, Pair};

fn pair_of<'a>(pairs: &'a [Pair], key: &str) -> Option<&'a Pair>
    ensures { option_copied result ≡ find (λ p. same_bytes p.key key.now) pairs.now }
{
    pairs.iter().find(|p| p.key.is(key))
}

/// The value of an event's attribute, empty where it has none.
pub fn attribute<'a>(event: &'a Event, key: &str) -> &'a str
    ensures { result.now ≡ spec.attribute key.now event.now }
{
    match pair_of(event.attributes.as_slice(), key) {
        None => "",
        Some(pair) => pair.value.as_str(),
    }
}
