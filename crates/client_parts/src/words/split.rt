// The options that words begin with, and the words behind them.
ghost use Rattle.std.specs.Prelude.{◌≡◌, ◌++◌, ◌∷◌, [], ◌<◌, length, map, count_by, IfOk, IfErr, IfSome, IfNone, OnOk};
ghost use Rattle.std.specs.List.{list_all};
ghost use Rattle.engine_text.specs.Texts.{same_bytes};
ghost use Rattle.client_model.specs.Words as spec;
ghost use Rattle.client_parts.specs.Options.{options_of};
ghost use Rattle.client_parts.specs.Reading.{Reads};

use super::few::copied;
use crate::Unread;
use client_model::{Kind, Split};
use engine_text::{NoMemory, Pair, Pairs, Text};
use std::alloc::Global;

/// The kind of a word that is an option.
fn kind_of(options: &[(&str, Kind)], word: &str) -> Option<Kind>
    ensures { result ≡ spec.kind_of (options_of options.now) word.now }
{
    match options.iter().find(|(name, _)| *name == word) {
        Some((_, kind)) => Some(*kind),
        None => None,
    }
}

/// One option more.
fn put(alloc: Global, given: &mut Pairs, name: &str, value: &str) -> Result<(), NoMemory>
    ensures ok { OnOk result
        (given.new ≡ given.old ++ record { key = name.now; value = value.now } ∷ []) }
{
    let key = Text::of(alloc, name)?;
    let value = Text::of(alloc, value)?;
    given.push(alloc, Pair { key, value })
}

/// The option that the words begin with, its value, and the words behind it.
fn next_option<'a>(
    options: &[(&str, Kind)],
    words: &'a [Text],
) -> Result<Option<(&'a str, &'a str, &'a [Text])>, Unread>
    ensures option { IfOk result
        (λ o. IfSome o (λ n. spec.split_behind (options_of options.now) None words.now
        ≡ spec.with_option n.0.now n.1.now
        (spec.split_behind (options_of options.now) None n.2.now))) }
    ensures shorter { IfOk result (λ o. IfSome o (λ n. length n.2.now < length words.now)) }
    ensures words { IfOk result
        (λ o. IfNone o (spec.split_behind (options_of options.now) None words.now
        ≡ Some (record { given = []; words = words.now }))) }
    ensures lacks { IfErr result (λ e. e ≡ Unread.NoForm
        × (spec.split_behind (options_of options.now) None words.now ≡ None)) }
{
    let [name, behind @ ..] = words else {
        return Ok(None);
    };
    match kind_of(options, name.as_str()) {
        None => Ok(None),
        Some(Kind::Flag) => Ok(Some((name.as_str(), "", behind))),
        Some(_) => match behind {
            [] => Err(Unread::NoForm),
            [value, behind @ ..] => Ok(Some((name.as_str(), value.as_str(), behind))),
        },
    }
}

/// The options that the words begin with, and the words behind them.
fn split_behind(alloc: Global, options: &[(&str, Kind)], words: &[Text]) -> Result<Split, Unread>
    ensures { Reads result (spec.split_behind (options_of options.now) None words.now) }
{
    let mut given = Pairs::new(alloc);
    let mut rest = words;
    'words: while let Some((name, value, behind)) = next_option(options, rest)? {
        put(alloc, &mut given, name, value)?;
        rest = behind;
    }
    let words = copied(alloc, rest)?;
    Ok(Split { given, words })
}

/// How often an option stands there.
fn count_of(given: &[Pair], name: &str) -> usize
    ensures { result ≡ count_by (λ pair. same_bytes pair.key name.now) given.now }
{
    given.iter().filter(|pair| pair.key.is(name)).count()
}

/// An option that may not be repeated stands there at most once.
fn is_sound_option(given: &[Pair], name: &str, kind: Kind) -> bool
    ensures { result ≡ spec.is_sound_option given.now (name.now, kind) }
{
    match kind {
        Kind::Repeated => true,
        _ => count_of(given, name) <= 1,
    }
}

/// Each option is sound.
fn is_sound(options: &[(&str, Kind)], given: &[Pair]) -> bool
    ensures { result ≡ list_all (spec.is_sound_option given.now) (options_of options.now) }
{
    options
        .iter()
        .all(|(name, kind)| is_sound_option(given, name, *kind))
}

/// The options that the words begin with, none doubled, and the words behind them.
pub(crate) fn split_options(
    alloc: Global,
    options: &[(&str, Kind)],
    words: &[Text],
) -> Result<Split, Unread>
    ensures { Reads result (spec.split_options (options_of options.now) words.now) }
{
    let split = split_behind(alloc, options, words)?;
    if is_sound(options, split.given.as_slice()) {
        Ok(split)
    } else {
        Err(Unread::NoForm)
    }
}
