// `replay`.
ghost use Rattle.client_model.specs.Commands.Replay as spec;
ghost use Rattle.client_parts.specs.Reading.{Reads};

use super::options::{has_flag, value_of};
use super::split::split_options;
use crate::Unread;
use client_model::{Command, Kind};
use engine_line::{moment_in, seed_of};
use engine_text::{Pair, Text};
use std::alloc::Global;

/// Its options.
const REPLAY_OPTIONS: [(&str, Kind); 2] = [("--upgrade", Kind::Flag), ("--seed", Kind::Valued)];

/// Of these options and this word.
fn replay_of(alloc: Global, given: &[Pair], word: &str) -> Result<Command, Unread>
    ensures { Reads result (spec.replay_of given.now word.now) }
{
    let upgrade = has_flag("--upgrade", given);
    let seed = value_of(alloc, "--seed", given)?;
    let seed = seed_of(seed.as_ref().map(|seed| seed.as_str())).ok_or(Unread::NoForm)?;
    let moment = moment_in(word).ok_or(Unread::NoForm)?;
    Ok(Command::Replay {
        upgrade,
        seed,
        moment,
    })
}

/// One word behind the options, or none.
fn replay_in(alloc: Global, given: &[Pair], words: &[Text]) -> Result<Command, Unread>
    ensures { Reads result (spec.replay_in given.now words.now) }
{
    match words {
        [] => replay_of(alloc, given, "0"),
        [word] => replay_of(alloc, given, word.as_str()),
        _ => Err(Unread::NoForm),
    }
}

/// `replay [--upgrade] [--seed HEX] [MOMENT]`.
pub(crate) fn read_replay(alloc: Global, words: &[Text]) -> Result<Command, Unread>
    ensures { Reads result (spec.read_replay words.now) }
{
    let split = split_options(alloc, &REPLAY_OPTIONS, words)?;
    replay_in(alloc, split.given.as_slice(), split.words.as_slice())
}
