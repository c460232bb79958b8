// `exec`.
ghost use Rattle.client_model.specs.Commands.Exec as spec;
ghost use Rattle.client_parts.specs.Reading.{Reads};

use super::few::copied;
use super::options::has_flag;
use super::split::split_options;
use crate::Unread;
use client_model::{Command, Kind};
use engine_text::{Pair, Text};
use std::alloc::Global;

/// A reference, and at least one word.
fn exec_in(alloc: Global, given: &[Pair], words: &[Text]) -> Result<Command, Unread>
    ensures { Reads result (spec.exec_in given.now words.now) }
{
    match words {
        [] | [_] => Err(Unread::NoForm),
        [target, words @ ..] => {
            let target = target.copy(alloc)?;
            let words = copied(alloc, words)?;
            let input = has_flag("-i", given);
            Ok(Command::Exec {
                target,
                words,
                input,
            })
        }
    }
}

/// `exec [-i] REF WORD..`.
pub(crate) fn read_exec(alloc: Global, words: &[Text]) -> Result<Command, Unread>
    ensures { Reads result (spec.read_exec words.now) }
{
    let split = split_options(alloc, &[("-i", Kind::Flag)], words)?;
    exec_in(alloc, split.given.as_slice(), split.words.as_slice())
}
