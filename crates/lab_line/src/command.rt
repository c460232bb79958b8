// The command that reads a line.
ghost use Rattle.std.specs.Prelude.{◌≡◌, IfOk};
ghost use Rattle.clap.specs.Words.{app_of, with_rule};
ghost use Rattle.engine_line.specs.Options.{valued};
ghost use Rattle.lab_line.specs.Options as spec;

use clap::{Arg, ArgAction, Command};
use std::alloc::{AllocError, Global};

/// One more option with a value, at most once.
fn with_option<'a>(
    alloc: Global,
    command: Command<'a>,
    name: &'a str,
) -> Result<Command<'a>, AllocError>
    ensures { IfOk result
        (λ c. app_of c ≡ with_rule (app_of command.entry) (valued name.now)) }
{
    command.arg(Arg::new(alloc, name).long(name).action(ArgAction::Set))
}

/// The bare command, with help and a version.
fn bare_command<'a>(alloc: Global) -> Command<'a>
    ensures { app_of result ≡ spec.bare }
{
    Command::new(alloc, "enginelab")
        .no_binary_name(true)
        .version("1.0.0")
}

/// The command that reads a line.
pub fn line_command<'a>(alloc: Global) -> Result<Command<'a>, AllocError>
    ensures { IfOk result (λ c. app_of c ≡ spec.line_app) }
{
    let command = bare_command(alloc);
    let command = with_option(alloc, command, "listen")?;
    let command = with_option(alloc, command, "control")?;
    let command = with_option(alloc, command, "clock")?;
    let command = with_option(alloc, command, "seed")?;
    with_option(alloc, command, "journal")
}
