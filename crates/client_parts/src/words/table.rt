// The table of commands: how each is written, and how its words are read.
ghost use Rattle.std.specs.Prelude.{◌≡◌, ◌∷◌};
ghost use Rattle.client_model.specs.Lines as spec;
ghost use Rattle.client_model.specs.Usage.{usage_among, usage_of};
ghost use Rattle.client_parts.specs.Reading.{Reads};

use super::containers::{read_create, read_run, read_update};
use super::execs::read_exec;
use super::optioned::{read_kill, read_logs, read_remove, read_restart, read_stop};
use super::replays::read_replay;
use super::targets::{
    read_attach, read_events, read_health, read_inspect, read_pause, read_rename, read_start,
    read_unpause, read_wait, read_watch,
};
use super::views::{read_journal, read_list, read_version};
use super::volumes::read_volume;
use crate::Unread;
use client_model::{Command, Line};
use engine_line::port_in;
use engine_text::Text;
use std::alloc::Global;

/// What stands behind ADDR of any command.
pub(crate) const ANY: &str =
    "create|run|start|pause|unpause|stop|restart|kill|rm|rename|update|ps|inspect|version|logs|attach|exec|wait|events|watch|health|volume|journal|replay [OPTIONS] [WORD..]";

// What stands behind ADDR of the command of this name that changes no container, or of any.
fn usage_of_others(name: &str) -> &'static str
    ensures { result.now ≡ usage_among spec.usages_of_others name.now }
{
    match name {
        "ps" => "ps [-a]",
        "inspect" => "inspect REF",
        "version" => "version",
        "logs" => "logs [-f] REF",
        "attach" => "attach REF",
        "exec" => "exec [-i] REF WORD..",
        "wait" => "wait REF",
        "events" => "events SINCE UNTIL",
        "watch" => "watch UNTIL",
        "health" => "health UNTIL REF",
        "volume" => "volume create|inspect|rm NAME, or volume ls",
        "journal" => "journal",
        "replay" => "replay [--upgrade] [--seed HEX] [MOMENT]",
        _ => ANY,
    }
}

/// What stands behind ADDR of the command of this name, or of any where none has it.
pub(crate) fn usage_of(name: &str) -> &'static str
    ensures { result.now ≡ usage_of name.now }
{
    match name {
        "create" =>
            "create [--name NAME] [--restart POLICY[:MAX]] [-i] [-v VOLUME:PATH[:ro]].. IMAGE [WORD..]",
        "run" =>
            "run [--rm] [--name NAME] [--restart POLICY[:MAX]] [-i] [-v VOLUME:PATH[:ro]].. IMAGE [WORD..]",
        "start" => "start REF",
        "pause" => "pause REF",
        "unpause" => "unpause REF",
        "stop" => "stop [-t N] REF",
        "restart" => "restart [-t N] REF",
        "kill" => "kill [-s SIG] REF",
        "rm" => "rm [-f] REF",
        "rename" => "rename REF NAME",
        "update" => "update --restart POLICY[:MAX] REF",
        _ => usage_of_others(name),
    }
}

/// What the words behind a command's name ask for.
fn read_named(alloc: Global, name: &str, words: &[Text]) -> Result<Command, Unread>
    ensures { Reads result (spec.read_by spec.commands (name.now ∷ words.now)) }
{
    match name {
        "create" => read_create(alloc, words),
        "run" => read_run(alloc, words),
        "start" => read_start(alloc, words),
        "pause" => read_pause(alloc, words),
        "unpause" => read_unpause(alloc, words),
        "stop" => read_stop(alloc, words),
        "restart" => read_restart(alloc, words),
        "kill" => read_kill(alloc, words),
        "rm" => read_remove(alloc, words),
        "rename" => read_rename(alloc, words),
        "update" => read_update(alloc, words),
        "ps" => read_list(alloc, words),
        "inspect" => read_inspect(alloc, words),
        "version" => read_version(words),
        "logs" => read_logs(alloc, words),
        "attach" => read_attach(alloc, words),
        "exec" => read_exec(alloc, words),
        "wait" => read_wait(alloc, words),
        "events" => read_events(alloc, words),
        "watch" => read_watch(alloc, words),
        "health" => read_health(alloc, words),
        "volume" => read_volume(alloc, words),
        "journal" => read_journal(words),
        "replay" => read_replay(alloc, words),
        _ => Err(Unread::NoForm),
    }
}

/// What a command's words ask for.
fn read_command(alloc: Global, words: &[Text]) -> Result<Command, Unread>
    ensures { Reads result (spec.read_by spec.commands words.now) }
{
    match words {
        [] => Err(Unread::NoForm),
        [name, words @ ..] => read_named(alloc, name.as_str(), words),
    }
}

/// What the words behind the program's name ask for: the daemon's address, and a command with its words.
pub fn read_line(alloc: Global, words: &[Text]) -> Result<Line, Unread>
    ensures { Reads result (spec.line_of words.now) }
{
    let [address, words @ ..] = words else {
        return Err(Unread::NoForm);
    };
    port_in(address.as_str()).ok_or(Unread::NoForm)?;
    let command = read_command(alloc, words)?;
    let address = address.copy(alloc)?;
    Ok(Line { address, command })
}
