// A line, read from its words.
ghost use Rattle.std.specs.Prelude.{◌≡◌, ◌⊎◌, [], codes, map, IfOk, IfErr, MatchResult};
ghost use Rattle.std.specs.Option.{option_map};
ghost use Rattle.clap.specs.Walk.{rows_of};
ghost use Rattle.clap.specs.Matches.{found_of};
ghost use Rattle.clap.specs.Values.{kind_of};
ghost use Rattle.clap.specs.Kinds.{FailsBy};
ghost use Rattle.engine_line.specs.Options.{fault_in, rows_in, value_in};
ghost use Rattle.engine_line.specs.Lines as spec;

use crate::command::line_command;
use crate::line::Line;
use crate::values::{clock_of, connections_of, entries_of, seed_of, work_of};
use clap::error::ErrorKind;
use clap::{ArgMatches, Error};
use engine_text::{NoMemory, Text};
use std::alloc::Global;

/// What the words say, by option.
fn matches_in<'a>(alloc: Global, words: &'a [&'a str]) -> Result<ArgMatches<'a>, Error>
    ensures fails { FailsBy (fault_in (map (λ w. w.now) words.entry.now)) result }
    ensures matches { IfOk result
        (λ m. rows_of (found_of m) ≡ rows_in (map (λ w. w.now) words.entry.now)) }
{
    line_command(alloc)?.try_get_matches_from(words)
}

/// The value of an option.
fn value<'a>(matches: &ArgMatches<'a>, name: &str) -> Option<&'a str>
    ensures { option_map (λ s. s.now) result ≡ value_in (rows_of (found_of matches.now)) name.now }
{
    matches.get_str(name)
}

fn is_stdio(matches: &ArgMatches<'_>) -> bool
    ensures { result ≡ spec.is_stdio (value_in (rows_of (found_of matches.now)) (codes "stdio")) }
{
    match value(matches, "stdio") {
        Some(word) => word == "true",
        None => false,
    }
}

/// What the options ask for, where each has its form.
fn line_in(matches: &ArgMatches<'_>) -> Option<Line>
    ensures { result ≡ spec.line_in (rows_of (found_of matches.now)) }
{
    let work = work_of(
        is_stdio(matches),
        value(matches, "listen"),
        value(matches, "drill"),
    )?;
    let seed = seed_of(value(matches, "seed"))?;
    let clock = clock_of(value(matches, "clock"))?;
    let connections = connections_of(value(matches, "connections"))?;
    let entries = entries_of(value(matches, "journal"))?;
    Some(Line {
        work,
        seed,
        clock,
        connections,
        entries,
    })
}

/// What the parse of words comes to: what they ask for where they are a line.
fn line_by(alloc: Global, words: &[&str]) -> Result<Option<Line>, NoMemory>
    ensures { IfOk result (λ line. line ≡ spec.line_of (map (λ w. w.now) words.entry.now)) }
{
    match matches_in(alloc, words) {
        Ok(matches) => Ok(line_in(&matches)),
        Err(error) => if error.kind() == ErrorKind::OutOfMemory {
            Err(NoMemory)
        } else {
            Ok(None)
        },
    }
}

/// The texts, lent.
fn lent<'a>(alloc: Global, words: &'a [Text]) -> Result<Vec<&'a str>, NoMemory>
    ensures { IfOk result (λ v. map (λ w. w.now) v.items ≡ words.entry.now) }
{
    let mut lent = Vec::new(alloc);
    for word in words {
        if lent.push(word.as_str()).is_err() {
            return Err(NoMemory);
        }
    }
    Ok(lent)
}

/// What the words after the program's name ask for, where they are a line.
pub fn read_line(alloc: Global, words: &[Text]) -> Result<Option<Line>, NoMemory>
    ensures { IfOk result (λ line. line ≡ spec.line_of words.now) }
{
    let words = lent(alloc, words)?;
    line_by(alloc, &words)
}
