// The text of an exec (Docker Engine API v1.43, ExecInspect).
ghost use Rattle.std.specs.Prelude.{◌≡◌, IfOk, codes};
ghost use Rattle.api_json.specs.Exec as spec;
ghost use Rattle.api_json.specs.Views.{exec_shown};
ghost use Rattle.api_json.specs.Written.{Appends, tokens_of, member_tokens};

use super::values::{first_word, later_words};
use super::written::{
    flag_member, null_member, number_member, text_member, words_member, written_text,
};
use engine_text::{NoMemory, Text, Words};
use json::Writer;
use std::alloc::{AllocError, Global};

/// What the text of an exec tells: `container` is the container's id, `live` whether its process
/// lives, `pid` 0 where it doesn't, and `code` none until it has ended.
#[derive(Clone, Copy, Drop)]
pub struct ExecView<'a> {
    pub id: &'a str,
    pub container: &'a str,
    pub words: &'a Words,
    pub stdin: bool,
    pub out: bool,
    pub err: bool,
    pub live: bool,
    pub pid: u64,
    pub code: Option<u8>,
}

// Writes the exit code, null until there is one.
fn code_member(out: &mut Writer, code: Option<u8>) -> Result<(), AllocError>
    ensures { Appends result out.old out.new
        (member_tokens (codes "ExitCode") (spec.code_data code)) }
{
    match code {
        None => null_member(out, "ExitCode"),
        Some(code) => number_member(out, "ExitCode", u64::from(code)),
    }
}

// Writes the words of an exec.
fn process_member(out: &mut Writer, words: &[Text]) -> Result<(), AllocError>
    ensures { Appends result out.old out.new
        (member_tokens (codes "ProcessConfig") (spec.process_data words.now)) }
{
    out.key("ProcessConfig")?;
    out.begin_object()?;
    words_member(out, "arguments", later_words(words))?;
    text_member(out, "entrypoint", first_word(words))?;
    flag_member(out, "privileged", false)?;
    flag_member(out, "tty", false)?;
    out.end_object()
}

// Writes an exec.
fn write_exec(out: &mut Writer, exec: &ExecView<'_>) -> Result<(), AllocError>
    ensures { Appends result out.old out.new (tokens_of (spec.exec_data (exec_shown exec.now))) }
{
    out.begin_object()?;
    flag_member(out, "CanRemove", false)?;
    text_member(out, "ContainerID", exec.container)?;
    text_member(out, "DetachKeys", "")?;
    code_member(out, exec.code)?;
    text_member(out, "ID", exec.id)?;
    flag_member(out, "OpenStderr", exec.err)?;
    flag_member(out, "OpenStdin", exec.stdin)?;
    flag_member(out, "OpenStdout", exec.out)?;
    number_member(out, "Pid", exec.pid)?;
    process_member(out, exec.words.as_slice())?;
    flag_member(out, "Running", exec.live)?;
    out.end_object()
}

/// The text of an exec.
pub fn exec_body(alloc: Global, exec: &ExecView<'_>) -> Result<Text, NoMemory>
    ensures { IfOk result (λ text. text ≡ spec.exec_text (exec_shown exec.now)) }
{
    let mut out = Writer::new(Vec::new(alloc));
    write_exec(&mut out, exec)?;
    Ok(written_text(out))
}
