// One word, two words, none.
ghost use Rattle.std.specs.Prelude.{◌≡◌, ℕ, List, IfOk};
ghost use Rattle.client_model.specs.Words.{no_word, one_word, two_words};
ghost use Rattle.client_model.specs.declared.command.Command.{Command as ACommand};
ghost use Rattle.client_parts.specs.Reading.{Reads, ReadsAs};

use crate::Unread;
use engine_text::{NoMemory, Text, Words};
use std::alloc::Global;

/// The one word.
pub(crate) fn one_word(alloc: Global, words: &[Text]) -> Result<Text, Unread>
    ensures { (command : List ℕ → ACommand) → ReadsAs command result (one_word command words.now) }
{
    match words {
        [word] => Ok(word.copy(alloc)?),
        _ => Err(Unread::NoForm),
    }
}

/// The two words.
pub(crate) fn two_words(alloc: Global, words: &[Text]) -> Result<(Text, Text), Unread>
    ensures { (command : List ℕ → List ℕ → ACommand)
        → ReadsAs (λ ws. command ws.0 ws.1) result (two_words command words.now) }
{
    match words {
        [word, other] => Ok((word.copy(alloc)?, other.copy(alloc)?)),
        _ => Err(Unread::NoForm),
    }
}

/// There are no words.
pub(crate) fn no_word(words: &[Text]) -> Result<(), Unread>
    ensures { (command : ACommand) → ReadsAs (λ _. command) result (no_word command words.now) }
{
    match words {
        [] => Ok(()),
        _ => Err(Unread::NoForm),
    }
}

/// The same words again.
pub(crate) fn copied(alloc: Global, words: &[Text]) -> Result<Words, NoMemory>
    ensures { IfOk result (λ ws. ws ≡ words.now) }
{
    let mut again = Words::new(alloc);
    'words: for word in words {
        again.push(alloc, word.copy(alloc)?)?;
    }
    Ok(again)
}
