// A line, read from its words.
ghost use Rattle.std.specs.Prelude.{◌≡◌, map, IfOk};
ghost use Rattle.std.specs.Option.{option_map};
ghost use Rattle.clap.specs.Walk.{rows_of};
ghost use Rattle.clap.specs.Matches.{found_of};
ghost use Rattle.clap.specs.Kinds.{FailsBy};
ghost use Rattle.engine_line.specs.Options.{value_in};
ghost use Rattle.lab_line.specs.Options.{fault_in, rows_in};
ghost use Rattle.lab_line.specs.Lines as spec;

use crate::command::line_command;
use crate::line::{Asked, Lab, Wrong};
use crate::values::{clock_of, entries_of, port_of, seed_in};
use clap::error::ErrorKind;
use clap::{ArgMatches, Error};
use engine_text::{NoMemory, Text};
use std::alloc::Global;

/// What the words say, by option.
fn matches_in<'a>(alloc: Global, words: &'a [&'a str]) -> Result<ArgMatches<'a>, Error>
    ensures fails { FailsBy (fault_in (map (λ w. w.now) words.entry.now)) result }
    ensures matches { IfOk result
        (λ m. rows_of (found_of m) ≡ rows_in (map (λ w. w.now) words.entry.now)) }
{
    line_command(alloc)?.try_get_matches_from(words)
}

/// The value of an option.
fn value<'a>(matches: &ArgMatches<'a>, name: &str) -> Option<&'a str>
    ensures { option_map (λ s. s.now) result ≡ value_in (rows_of (found_of matches.now)) name.now }
{
    matches.get_str(name)
}

/// What the options ask for, where each has its form.
fn line_in(matches: &ArgMatches<'_>) -> Result<Lab, Wrong>
    ensures { result ≡ spec.line_in (rows_of (found_of matches.now)) }
{
    let listen = port_of(Wrong::Listen, value(matches, "listen"))?;
    let control = port_of(Wrong::Control, value(matches, "control"))?;
    let clock = clock_of(value(matches, "clock"))?;
    let seed = seed_in(value(matches, "seed"))?;
    let entries = entries_of(value(matches, "journal"))?;
    Ok(Lab {
        listen,
        control,
        clock,
        seed,
        entries,
    })
}

/// What options come to.
fn asked_in(line: Result<Lab, Wrong>) -> Asked
    ensures { result ≡ spec.asked_in line }
{
    match line {
        Ok(lab) => Asked::Line(lab),
        Err(wrong) => Asked::Wrong(wrong),
    }
}

/// What words come to that are no options.
fn asked_by(kind: ErrorKind) -> Asked
    ensures { result ≡ spec.asked_by kind }
{
    match kind {
        ErrorKind::DisplayHelp => Asked::Help,
        ErrorKind::DisplayVersion => Asked::Version,
        other => Asked::Wrong(Wrong::Words(other)),
    }
}

/// What the parse of words comes to.
fn asked_of(alloc: Global, words: &[&str]) -> Result<Asked, NoMemory>
    ensures { IfOk result (λ asked. spec.WordsAsk (map (λ w. w.now) words.entry.now) asked) }
{
    match matches_in(alloc, words) {
        Ok(matches) => Ok(asked_in(line_in(&matches))),
        Err(error) => if error.kind() == ErrorKind::OutOfMemory {
            Err(NoMemory)
        } else {
            Ok(asked_by(error.kind()))
        },
    }
}

/// The texts, lent.
fn lent<'a>(alloc: Global, words: &'a [Text]) -> Result<Vec<&'a str>, NoMemory>
    ensures { IfOk result (λ v. map (λ w. w.now) v.items ≡ words.entry.now) }
{
    let mut lent = Vec::new(alloc);
    for word in words {
        if lent.push(word.as_str()).is_err() {
            return Err(NoMemory);
        }
    }
    Ok(lent)
}

/// What the words after the program's name ask for.
pub fn read_line(alloc: Global, words: &[Text]) -> Result<Asked, NoMemory>
    ensures { IfOk result (λ asked. spec.WordsAsk words.now asked) }
{
    let words = lent(alloc, words)?;
    asked_of(alloc, &words)
}
