// The version that a path may begin with.
ghost use Rattle.std.specs.Prelude.{◌≡◌, ◌≢◌, ◌∷◌, ℕ, List, MatchOption, option_map};
ghost use Rattle.route_laws.specs.Segments.{segments};
ghost use Rattle.api_routes.specs.Reading.{ReadsAs};
ghost use Rattle.api_routes.specs.Version as spec;

use crate::Fault;
use crate::numeral::number_of;
use crate::path::{cut_at, cut_segment};
use crate::refused::Refused;
use engine_text::Text;
use std::alloc::Global;

/// The lowest and the highest minor number that are served, both of version 1.
const LOWEST_MINOR: u64 = 24;

const HIGHEST_MINOR: u64 = 43;

/// A numeral of a version has at most so many digits.
const NUMERAL_DIGITS: usize = 4;

/// A version: the digits and the dot as given, and their numbers.
#[derive(Clone, Copy)]
struct Version<'p> {
    text: &'p str,
    major: u64,
    minor: u64,
}

// What follows the `v`.
fn after_v(segment: &str) -> Option<&str>
    ensures { MatchOption result ((rest : List ℕ) → segment.now ≢ spec.letter_v ∷ rest)
        (λ x. segment.now ≡ spec.letter_v ∷ x.now) }
{
    segment.strip_prefix('v')
}

// The version that two numerals name.
fn version_in<'p>(text: &'p str, before: &str, behind: &str) -> Option<Version<'p>>
    ensures { option_map spec.seen result ≡ spec.version_in text.now before.now behind.now }
{
    match (
        number_of(before, NUMERAL_DIGITS),
        number_of(behind, NUMERAL_DIGITS),
    ) {
        (Some(major), Some(minor)) => Some(Version { text, major, minor }),
        _ => None,
    }
}

// The version that a segment names.
fn version_of(segment: &str) -> Option<Version<'_>>
    ensures { option_map spec.seen result ≡ spec.version_of segment.now }
{
    let Some(text) = after_v(segment) else {
        return None;
    };
    let (before, behind) = cut_at(text, '.');
    version_in(text, before, behind)
}

// Whether a version is below 1.`minor`.
fn is_below(version: &Version, minor: u64) -> bool
    ensures { result ≡ spec.is_below minor (spec.seen version.now) }
{
    version.major < 1 || version.major == 1 && version.minor < minor
}

// What is behind the version, if it is served.
fn if_served<'p>(alloc: Global, version: Version, rest: &'p str) -> Result<&'p str, Refused>
    ensures { ReadsAs (λ p. segments p.now) result
        (spec.if_served (spec.seen version.entry) (segments rest.now)) }
{
    if is_below(&version, LOWEST_MINOR) {
        return Err(Refused::Fault(Fault::VersionTooOld(Text::of(alloc, version.text)?)));
    }
    if is_below(&version, HIGHEST_MINOR + 1) {
        return Ok(rest);
    }
    Err(Refused::Fault(Fault::VersionTooNew(Text::of(alloc, version.text)?)))
}

/// The path behind its version; without one the current version is meant.
pub(crate) fn behind_version<'p>(alloc: Global, path: &'p str) -> Result<&'p str, Refused>
    ensures { ReadsAs (λ p. segments p.now) result (spec.behind_version (segments path.now)) }
{
    let Some((segment, rest)) = cut_segment(path) else {
        return Ok(path);
    };
    match version_of(segment) {
        Some(version) => if_served(alloc, version, rest),
        None => Ok(path),
    }
}
