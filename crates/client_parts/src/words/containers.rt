// Commands that create a container, or give it another restart policy.
ghost use Rattle.std.specs.Prelude.{◌≡◌, IfOk, option_copied};
ghost use Rattle.client_model.specs.Commands.Container as spec;
ghost use Rattle.client_model.specs.Commands.Create.{read_create};
ghost use Rattle.client_model.specs.Commands.Run.{read_run};
ghost use Rattle.client_model.specs.Commands.Update.{read_update, policy_given};
ghost use Rattle.client_parts.specs.Reading.{Reads};

use super::few::{copied, one_word};
use super::options::{has_flag, value_of, values_of};
use super::split::split_options;
use crate::Unread;
use api_routes::number_of;
use client_model::{Command, Kind, NewContainer, Restart};
use engine_text::{NoMemory, Pair, Text};
use std::alloc::Global;

/// The most digits of MAX.
const DIGITS: usize = 10;

/// `POLICY[:MAX]`.
fn read_policy(alloc: Global, word: &str) -> Result<Restart, Unread>
    ensures { Reads result (spec.read_policy word.now) }
{
    match word.split_once(':') {
        None => Ok(Restart {
            policy: Text::of(alloc, word)?,
            most: 0,
        }),
        Some((policy, most)) => {
            let most = number_of(most, DIGITS).ok_or(Unread::NoForm)?;
            let policy = Text::of(alloc, policy)?;
            Ok(Restart { policy, most })
        }
    }
}

/// The policy, where it is given.
fn restart_in(alloc: Global, word: Option<Text>) -> Result<Option<Restart>, Unread>
    ensures { Reads result (spec.restart_in word) }
{
    match word {
        None => Ok(None),
        Some(word) => Ok(Some(read_policy(alloc, word.as_str())?)),
    }
}

/// The container of these options and words, and its policy.
fn container_with(
    alloc: Global,
    given: &[Pair],
    restart: Option<Restart>,
    image: &Text,
    words: &[Text],
) -> Result<NewContainer, NoMemory>
    ensures { IfOk result (λ c. c ≡ spec.container_with given.now restart image.now words.now) }
{
    let name = value_of(alloc, "--name", given)?;
    let binds = values_of(alloc, "-v", given)?;
    let image = image.copy(alloc)?;
    let words = copied(alloc, words)?;
    Ok(NewContainer {
        name,
        restart,
        input: has_flag("-i", given),
        binds,
        image,
        words,
    })
}

/// Its options, then its image, then its words.
fn container_of(alloc: Global, given: &[Pair], words: &[Text]) -> Result<NewContainer, Unread>
    ensures { Reads result (spec.container_of given.now words.now) }
{
    let [image, words @ ..] = words else {
        return Err(Unread::NoForm);
    };
    let restart = restart_in(alloc, value_of(alloc, "--restart", given)?)?;
    Ok(container_with(alloc, given, restart, image, words)?)
}

/// The options of `create`.
const CREATE_OPTIONS: [(&str, Kind); 4] = [
    ("--name", Kind::Valued),
    ("--restart", Kind::Valued),
    ("-i", Kind::Flag),
    ("-v", Kind::Repeated),
];

/// The options of `run`.
const RUN_OPTIONS: [(&str, Kind); 5] = [
    ("--rm", Kind::Flag),
    ("--name", Kind::Valued),
    ("--restart", Kind::Valued),
    ("-i", Kind::Flag),
    ("-v", Kind::Repeated),
];

/// `create [OPTIONS] IMAGE [WORD..]`.
pub(crate) fn read_create(alloc: Global, words: &[Text]) -> Result<Command, Unread>
    ensures { Reads result (read_create words.now) }
{
    let split = split_options(alloc, &CREATE_OPTIONS, words)?;
    let container = container_of(alloc, split.given.as_slice(), split.words.as_slice())?;
    Ok(Command::Create { container })
}

/// `run [OPTIONS] [--rm] IMAGE [WORD..]`.
pub(crate) fn read_run(alloc: Global, words: &[Text]) -> Result<Command, Unread>
    ensures { Reads result (read_run words.now) }
{
    let split = split_options(alloc, &RUN_OPTIONS, words)?;
    let container = container_of(alloc, split.given.as_slice(), split.words.as_slice())?;
    let remove = has_flag("--rm", split.given.as_slice());
    Ok(Command::Run { container, remove })
}

/// The policy that is given.
fn policy_given(alloc: Global, given: &[Pair]) -> Result<Restart, Unread>
    ensures { Reads result (policy_given given.now) }
{
    match value_of(alloc, "--restart", given)? {
        None => Err(Unread::NoForm),
        Some(word) => read_policy(alloc, word.as_str()),
    }
}

/// `update --restart POLICY[:MAX] REF`.
pub(crate) fn read_update(alloc: Global, words: &[Text]) -> Result<Command, Unread>
    ensures { Reads result (read_update words.now) }
{
    let split = split_options(alloc, &[("--restart", Kind::Valued)], words)?;
    let restart = policy_given(alloc, split.given.as_slice())?;
    let target = one_word(alloc, split.words.as_slice())?;
    Ok(Command::Update { target, restart })
}
