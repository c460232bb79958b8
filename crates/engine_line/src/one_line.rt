// The line of `engineone`, read from its words in their order.
ghost use Rattle.std.specs.Prelude.{◌≡◌, []};
ghost use Rattle.std.specs.Option.{option_map};
ghost use Rattle.engine_line.specs.OneLine as spec;

use crate::line::{Beginning, OneLine};
use crate::values::{clock_of, connections_of, entries_of, port_in, seed_of};
use engine_text::Text;

/// The value of an option, where it stands next, and the words behind it.
fn option_next<'a>(words: &'a [Text], name: &str) -> (Option<&'a str>, &'a [Text])
    ensures value { option_map (λ w. w.now) result.0
        ≡ (spec.option_next name.now words.entry.now).0 }
    ensures rest { result.1.now ≡ (spec.option_next name.now words.entry.now).1 }
{
    match words {
        [word, value, rest @ ..] if word.as_str() == name => (Some(value.as_str()), rest),
        _ => (None, words),
    }
}

/// Whether a flag stands next, and the words behind it.
fn flag_next<'a>(words: &'a [Text], name: &str) -> (bool, &'a [Text])
    ensures flag { result.0 ≡ (spec.flag_next name.now words.entry.now).0 }
    ensures rest { result.1.now ≡ (spec.flag_next name.now words.entry.now).1 }
{
    match words {
        [word, rest @ ..] if word.as_str() == name => (true, rest),
        _ => (false, words),
    }
}

/// How the daemon begins: a seed isn't set beside a reboot.
fn beginning_of(seed: Option<&str>, reboot: bool) -> Option<Beginning>
    ensures { result ≡ spec.beginning_of (option_map (λ w. w.now) seed.entry) reboot }
{
    if !reboot {
        let seed = seed_of(seed)?;
        return Some(Beginning::New { seed });
    }
    match seed {
        None => Some(Beginning::Reboot),
        Some(_) => None,
    }
}

/// What the values ask for, where each has its form.
fn line_with(
    addr: &str,
    seed: Option<&str>,
    clock: Option<&str>,
    connections: Option<&str>,
    journal: Option<&str>,
    reboot: bool,
) -> Option<OneLine>
    ensures { result ≡ spec.line_with addr.now (option_map (λ w. w.now) seed.entry)
        (option_map (λ w. w.now) clock.entry) (option_map (λ w. w.now) connections.entry)
        (option_map (λ w. w.now) journal.entry) reboot [] }
{
    let port = port_in(addr)?;
    let beginning = beginning_of(seed, reboot)?;
    let clock = clock_of(clock)?;
    let connections = connections_of(connections)?;
    let entries = entries_of(journal)?;
    Some(OneLine {
        port,
        beginning,
        clock,
        connections,
        entries,
    })
}

/// What the words after the program's name ask for, where they are a line: an address that is listened on, and the
/// options that are set, in their order.
pub fn read_one_line(words: &[Text]) -> Option<OneLine>
    ensures { result ≡ spec.one_line_of words.now }
{
    let [addr, words @ ..] = words else {
        return None;
    };
    let (seed, words) = option_next(words, "--seed");
    let (clock, words) = option_next(words, "--clock");
    let (connections, words) = option_next(words, "--connections");
    let (journal, words) = option_next(words, "--journal");
    let (reboot, words) = flag_next(words, "--reboot");
    if !words.is_empty() {
        return None;
    }
    line_with(addr.as_str(), seed, clock, connections, journal, reboot)
}
