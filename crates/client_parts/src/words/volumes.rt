// Commands of volumes.
ghost use Rattle.std.specs.Prelude.{◌∷◌};
ghost use Rattle.client_model.specs.Lines.{read_by, volume_commands};
ghost use Rattle.client_model.specs.Commands.VolumeCreate.{read_volume_create};
ghost use Rattle.client_model.specs.Commands.VolumeInspect.{read_volume_inspect};
ghost use Rattle.client_model.specs.Commands.VolumeList.{read_volume_list};
ghost use Rattle.client_model.specs.Commands.VolumeRemove.{read_volume_remove};
ghost use Rattle.client_parts.specs.Reading.{Reads};

use super::few::{no_word, one_word};
use crate::Unread;
use client_model::Command;
use engine_text::Text;
use std::alloc::Global;

/// `volume create NAME`.
fn read_volume_create(alloc: Global, words: &[Text]) -> Result<Command, Unread>
    ensures { Reads result (read_volume_create words.now) }
{
    let name = one_word(alloc, words)?;
    Ok(Command::VolumeCreate { name })
}

/// `volume inspect NAME`.
fn read_volume_inspect(alloc: Global, words: &[Text]) -> Result<Command, Unread>
    ensures { Reads result (read_volume_inspect words.now) }
{
    let name = one_word(alloc, words)?;
    Ok(Command::VolumeInspect { name })
}

/// `volume rm NAME`.
fn read_volume_remove(alloc: Global, words: &[Text]) -> Result<Command, Unread>
    ensures { Reads result (read_volume_remove words.now) }
{
    let name = one_word(alloc, words)?;
    Ok(Command::VolumeRemove { name })
}

/// `volume ls`.
fn read_volume_list(words: &[Text]) -> Result<Command, Unread>
    ensures { Reads result (read_volume_list words.now) }
{
    no_word(words)?;
    Ok(Command::VolumeList)
}

/// What the words behind the name of a volume's command ask for.
fn read_named(alloc: Global, name: &str, words: &[Text]) -> Result<Command, Unread>
    ensures { Reads result (read_by volume_commands (name.now ∷ words.now)) }
{
    match name {
        "create" => read_volume_create(alloc, words),
        "inspect" => read_volume_inspect(alloc, words),
        "rm" => read_volume_remove(alloc, words),
        "ls" => read_volume_list(words),
        _ => Err(Unread::NoForm),
    }
}

/// `volume COMMAND ..`.
pub(crate) fn read_volume(alloc: Global, words: &[Text]) -> Result<Command, Unread>
    ensures { Reads result (read_by volume_commands words.now) }
{
    match words {
        [] => Err(Unread::NoForm),
        [name, words @ ..] => read_named(alloc, name.as_str(), words),
    }
}
