// Commands of one word behind one option.
ghost use Rattle.client_model.specs.Commands.Kill.{read_kill};
ghost use Rattle.client_model.specs.Commands.Logs.{read_logs};
ghost use Rattle.client_model.specs.Commands.Remove.{read_remove};
ghost use Rattle.client_model.specs.Commands.Restart.{read_restart};
ghost use Rattle.client_model.specs.Commands.Stop.{read_stop};
ghost use Rattle.client_parts.specs.Reading.{Reads};

use super::few::one_word;
use super::options::{has_flag, value_of};
use super::split::split_options;
use crate::Unread;
use client_model::{Command, Kind};
use engine_text::Text;
use std::alloc::Global;

/// `stop [-t N] REF`.
pub(crate) fn read_stop(alloc: Global, words: &[Text]) -> Result<Command, Unread>
    ensures { Reads result (read_stop words.now) }
{
    let split = split_options(alloc, &[("-t", Kind::Valued)], words)?;
    let target = one_word(alloc, split.words.as_slice())?;
    let seconds = value_of(alloc, "-t", split.given.as_slice())?;
    Ok(Command::Stop { target, seconds })
}

/// `restart [-t N] REF`.
pub(crate) fn read_restart(alloc: Global, words: &[Text]) -> Result<Command, Unread>
    ensures { Reads result (read_restart words.now) }
{
    let split = split_options(alloc, &[("-t", Kind::Valued)], words)?;
    let target = one_word(alloc, split.words.as_slice())?;
    let seconds = value_of(alloc, "-t", split.given.as_slice())?;
    Ok(Command::Restart { target, seconds })
}

/// `kill [-s SIG] REF`.
pub(crate) fn read_kill(alloc: Global, words: &[Text]) -> Result<Command, Unread>
    ensures { Reads result (read_kill words.now) }
{
    let split = split_options(alloc, &[("-s", Kind::Valued)], words)?;
    let target = one_word(alloc, split.words.as_slice())?;
    let signal = value_of(alloc, "-s", split.given.as_slice())?;
    Ok(Command::Kill { target, signal })
}

/// `rm [-f] REF`.
pub(crate) fn read_remove(alloc: Global, words: &[Text]) -> Result<Command, Unread>
    ensures { Reads result (read_remove words.now) }
{
    let split = split_options(alloc, &[("-f", Kind::Flag)], words)?;
    let target = one_word(alloc, split.words.as_slice())?;
    let force = has_flag("-f", split.given.as_slice());
    Ok(Command::Remove { target, force })
}

/// `logs [-f] REF`.
pub(crate) fn read_logs(alloc: Global, words: &[Text]) -> Result<Command, Unread>
    ensures { Reads result (read_logs words.now) }
{
    let split = split_options(alloc, &[("-f", Kind::Flag)], words)?;
    let target = one_word(alloc, split.words.as_slice())?;
    let follow = has_flag("-f", split.given.as_slice());
    Ok(Command::Logs { target, follow })
}
