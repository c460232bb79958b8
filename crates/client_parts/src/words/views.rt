// Commands without a word.
ghost use Rattle.client_model.specs.Commands.Journal.{read_journal};
ghost use Rattle.client_model.specs.Commands.List.{read_list};
ghost use Rattle.client_model.specs.Commands.Version.{read_version};
ghost use Rattle.client_parts.specs.Reading.{Reads};

use super::few::no_word;
use super::options::has_flag;
use super::split::split_options;
use crate::Unread;
use client_model::{Command, Kind};
use engine_text::Text;
use std::alloc::Global;

/// `ps [-a]`.
pub(crate) fn read_list(alloc: Global, words: &[Text]) -> Result<Command, Unread>
    ensures { Reads result (read_list words.now) }
{
    let split = split_options(alloc, &[("-a", Kind::Flag)], words)?;
    no_word(split.words.as_slice())?;
    let all = has_flag("-a", split.given.as_slice());
    Ok(Command::List { all })
}

/// `version`.
pub(crate) fn read_version(words: &[Text]) -> Result<Command, Unread>
    ensures { Reads result (read_version words.now) }
{
    no_word(words)?;
    Ok(Command::Version)
}

/// `journal`.
pub(crate) fn read_journal(words: &[Text]) -> Result<Command, Unread>
    ensures { Reads result (read_journal words.now) }
{
    no_word(words)?;
    Ok(Command::Journal)
}
