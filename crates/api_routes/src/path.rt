// The parts of a target: its path, its query, and a segment's text.
ghost use Rattle.std.specs.Prelude.{◌≡◌, ◌<◌, ◌==◌, ◌&&◌, ◌∷◌, [], MatchOption, option_map};
ghost use Rattle.std.specs.Char.{is_digit};
ghost use Rattle.std.specs.List.{before_first, after_first};
ghost use Rattle.route_laws.specs.Segments.{segments, pieces};
ghost use Rattle.api_routes.specs.Path as spec;
ghost use Rattle.api_routes.specs.Reading.{Reads};

use crate::Fault;
use crate::refused::Refused;
use engine_text::Text;
use percent_encoding::DecodeError;
use std::alloc::Global;

/// What stands before the first such character, and behind it.
pub(crate) fn cut_at(text: &str, mark: char) -> (&str, &str)
    requires { mark < 128 }
    ensures front { result.0.now ≡ before_first (λ b. b == mark) text.now }
    ensures back { result.1.now ≡ after_first (λ b. b == mark) text.now }
{
    match text.split_once(mark) {
        Some(parts) => parts,
        None => (text, ""),
    }
}

// What follows the slash that a path begins with.
fn after_slash(path: &str) -> Option<&str>
    ensures { MatchOption result (segments path.now ≡ [])
        (λ rest. segments path.now ≡ pieces rest.now) }
{
    path.strip_prefix('/')
}

// The first piece of a text, and what follows the slash behind it.
fn first_piece(text: &str) -> (&str, Option<&str>)
    ensures { MatchOption result.1 (pieces text.now ≡ result.0.now ∷ [])
        (λ rest. pieces text.now ≡ result.0.now ∷ pieces rest.now) }
{
    match text.split_once('/') {
        Some((piece, rest)) => (piece, Some(rest)),
        None => (text, None),
    }
}

/// The first segment of a path, and the path that follows it.
pub(crate) fn cut_segment(path: &str) -> Option<(&str, &str)>
    ensures { MatchOption result (segments path.now ≡ [])
        (λ x. segments path.now ≡ x.0.now ∷ segments x.1.now) }
{
    let text = after_slash(path)?;
    match text.find('/') {
        Some(i) => Some((&text[..i], &text[i..])),
        None => Some((text, "")),
    }
}

// The second segment of a path.
fn second_segment(path: &str) -> Option<&str>
    ensures { option_map (λ s. s.now) result ≡ spec.second (segments path.now) }
{
    let text = after_slash(path)?;
    let (_, rest) = first_piece(text);
    let (second, _) = first_piece(rest?);
    Some(second)
}

// Whether two bytes are hexadecimal digits.
fn are_digits(high: u8, low: u8) -> bool
    ensures { result ≡ (is_digit high 16 && is_digit low 16) }
{
    high.is_ascii_hexdigit() && low.is_ascii_hexdigit()
}

// Whether every percent sign of a segment begins an escape.
#[tactic(auto, unfolding(crate::specs::Path::escapes_well))]
fn escapes_well(segment: &[u8]) -> bool
    ensures { result ≡ spec.escapes_well segment.now }
{
    let mut left = segment;
    loop {
        match left {
            [] => return true,
            [b'%', high, low, rest @ ..] if are_digits(*high, *low) => left = rest,
            [b'%', ..] => return false,
            [_, rest @ ..] => left = rest,
        }
    }
}

// The text of a path's segment.
fn segment_text(alloc: Global, segment: &str) -> Result<Text, Refused>
    ensures { Reads result (spec.segment_text segment.now) }
{
    if !escapes_well(segment.as_bytes()) {
        return Err(Refused::Fault(Fault::BadPath));
    }
    match percent_encoding::percent_decode(segment.as_bytes()).decode_utf8(alloc) {
        Ok(text) => Ok(Text::of(alloc, text.as_str())?),
        Err(DecodeError::OutOfMemory) => Err(Refused::NoMemory),
        Err(DecodeError::Utf8(_)) => Err(Refused::Fault(Fault::BadPath)),
    }
}

/// The text of a path's parameter; empty where the path has no second segment.
pub(crate) fn parameter(alloc: Global, path: &str) -> Result<Text, Refused>
    ensures { Reads result (spec.parameter_of (segments path.now)) }
{
    match second_segment(path) {
        Some(segment) => segment_text(alloc, segment),
        None => Ok(Text::new(alloc)),
    }
}
