// Commands of one word or two, without options.
ghost use Rattle.client_model.specs.Commands.Attach.{read_attach};
ghost use Rattle.client_model.specs.Commands.Events.{read_events};
ghost use Rattle.client_model.specs.Commands.Health.{read_health};
ghost use Rattle.client_model.specs.Commands.Inspect.{read_inspect};
ghost use Rattle.client_model.specs.Commands.Pause.{read_pause};
ghost use Rattle.client_model.specs.Commands.Rename.{read_rename};
ghost use Rattle.client_model.specs.Commands.Start.{read_start};
ghost use Rattle.client_model.specs.Commands.Unpause.{read_unpause};
ghost use Rattle.client_model.specs.Commands.Wait.{read_wait};
ghost use Rattle.client_model.specs.Commands.Watch.{read_watch};
ghost use Rattle.client_parts.specs.Reading.{Reads};

use super::few::{one_word, two_words};
use super::times::time_of;
use crate::Unread;
use client_model::Command;
use engine_text::Text;
use std::alloc::Global;

/// `start REF`.
pub(crate) fn read_start(alloc: Global, words: &[Text]) -> Result<Command, Unread>
    ensures { Reads result (read_start words.now) }
{
    let target = one_word(alloc, words)?;
    Ok(Command::Start { target })
}

/// `pause REF`.
pub(crate) fn read_pause(alloc: Global, words: &[Text]) -> Result<Command, Unread>
    ensures { Reads result (read_pause words.now) }
{
    let target = one_word(alloc, words)?;
    Ok(Command::Pause { target })
}

/// `unpause REF`.
pub(crate) fn read_unpause(alloc: Global, words: &[Text]) -> Result<Command, Unread>
    ensures { Reads result (read_unpause words.now) }
{
    let target = one_word(alloc, words)?;
    Ok(Command::Unpause { target })
}

/// `rename REF NAME`.
pub(crate) fn read_rename(alloc: Global, words: &[Text]) -> Result<Command, Unread>
    ensures { Reads result (read_rename words.now) }
{
    let (target, name) = two_words(alloc, words)?;
    Ok(Command::Rename { target, name })
}

/// `inspect REF`.
pub(crate) fn read_inspect(alloc: Global, words: &[Text]) -> Result<Command, Unread>
    ensures { Reads result (read_inspect words.now) }
{
    let target = one_word(alloc, words)?;
    Ok(Command::Inspect { target })
}

/// `attach REF`.
pub(crate) fn read_attach(alloc: Global, words: &[Text]) -> Result<Command, Unread>
    ensures { Reads result (read_attach words.now) }
{
    let target = one_word(alloc, words)?;
    Ok(Command::Attach { target })
}

/// `wait REF`.
pub(crate) fn read_wait(alloc: Global, words: &[Text]) -> Result<Command, Unread>
    ensures { Reads result (read_wait words.now) }
{
    let target = one_word(alloc, words)?;
    Ok(Command::Wait { target })
}

/// `events SINCE UNTIL`.
pub(crate) fn read_events(alloc: Global, words: &[Text]) -> Result<Command, Unread>
    ensures { Reads result (read_events words.now) }
{
    let (since, until) = two_words(alloc, words)?;
    Ok(Command::Events { since, until })
}

/// `watch UNTIL`.
pub(crate) fn read_watch(alloc: Global, words: &[Text]) -> Result<Command, Unread>
    ensures { Reads result (read_watch words.now) }
{
    let until = one_word(alloc, words)?;
    Ok(Command::Watch { until })
}

/// `health UNTIL REF`.
pub(crate) fn read_health(alloc: Global, words: &[Text]) -> Result<Command, Unread>
    ensures { Reads result (read_health words.now) }
{
    let [until, target] = words else {
        return Err(Unread::NoForm);
    };
    time_of(until.as_str()).ok_or(Unread::NoForm)?;
    let until = until.copy(alloc)?;
    let target = target.copy(alloc)?;
    Ok(Command::Health { until, target })
}
