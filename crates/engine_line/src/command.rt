// The command that reads a line.
ghost use Rattle.std.specs.Prelude.{◌≡◌, IfOk};
ghost use Rattle.clap.specs.Words.{app_of, with_rule};
ghost use Rattle.engine_line.specs.Options as spec;

use clap::{Arg, ArgAction, Command};
use std::alloc::{AllocError, Global};

/// One more option with a value, at most once.
fn with_option<'a>(
    alloc: Global,
    command: Command<'a>,
    name: &'a str,
) -> Result<Command<'a>, AllocError>
    ensures { IfOk result
        (λ c. app_of c ≡ with_rule (app_of command.entry) (spec.valued name.now)) }
{
    command.arg(Arg::new(alloc, name).long(name).action(ArgAction::Set))
}

/// The bare command with its flag.
fn with_flag<'a>(alloc: Global, name: &'a str) -> Result<Command<'a>, AllocError>
    ensures { IfOk result (λ c. app_of c ≡ with_rule spec.bare (spec.flag name.now)) }
{
    Command::new(alloc, "engined")
        .no_binary_name(true)
        .disable_help_flag(true)
        .arg(Arg::new(alloc, name).long(name).action(ArgAction::SetTrue))
}

/// The command that reads a line.
pub fn line_command<'a>(alloc: Global) -> Result<Command<'a>, AllocError>
    ensures { IfOk result (λ c. app_of c ≡ spec.line_app) }
{
    let command = with_flag(alloc, "stdio")?;
    let command = with_option(alloc, command, "listen")?;
    let command = with_option(alloc, command, "drill")?;
    let command = with_option(alloc, command, "seed")?;
    let command = with_option(alloc, command, "clock")?;
    let command = with_option(alloc, command, "connections")?;
    with_option(alloc, command, "journal")
}
