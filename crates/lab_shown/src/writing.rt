// An answer is written as it is shown.
ghost use Rattle.std.specs.Prelude.{◌≡◌, ◌≤◌, ◌+◌, ◌++◌, ◌^◌, length};
ghost use Rattle.engine_ports.specs.Sink.{WriteSays};
ghost use Rattle.http_edge.specs.Response.{head_text};
ghost use Rattle.lab_shown.specs.Shown as spec;
ghost use Rattle.lab_shown.specs.Texts.{own_members, host_key, host_members};

use crate::parting::{head_of, parts_of};
use crate::taking::Taking;
use crate::texts::{host_key, host_members, own_members};
use engine_ports::Failed;
use http_edge::{Head, head_line};

/// How many bytes the body has.
fn size_of(before: &[u8], behind: &[u8]) -> u64
    requires { length before.now + length behind.now ≤ 2 ^ 63 }
    ensures { result ≡ length (spec.more before.now behind.now) }
{
    own_members().len() as u64
        + before.len() as u64
        + host_key().len() as u64
        + host_members().len() as u64
        + behind.len() as u64
}

pub(crate) fn write_two<W: Taking>(sink: &mut W, first: &[u8], second: &[u8]) -> Result<(), Failed>
    ensures { WriteSays result (first.now ++ second.now) (W.takes sink.old) (W.takes sink.new) }
{
    sink.take(first)?;
    sink.take(second)
}

fn write_host<W: Taking>(sink: &mut W, behind: &[u8]) -> Result<(), Failed>
    ensures { WriteSays result (host_key ++ (host_members ++ behind.now))
        (W.takes sink.old) (W.takes sink.new) }
{
    sink.take(host_key())?;
    write_two(sink, host_members(), behind)
}

fn write_rest<W: Taking>(sink: &mut W, before: &[u8], behind: &[u8]) -> Result<(), Failed>
    ensures { WriteSays result (before.now ++ (host_key ++ (host_members ++ behind.now)))
        (W.takes sink.old) (W.takes sink.new) }
{
    sink.take(before)?;
    write_host(sink, behind)
}

fn write_body<W: Taking>(sink: &mut W, before: &[u8], behind: &[u8]) -> Result<(), Failed>
    ensures { WriteSays result (spec.more before.now behind.now)
        (W.takes sink.old) (W.takes sink.new) }
{
    sink.take(own_members())?;
    write_rest(sink, before, behind)
}

fn write_behind<W: Taking>(
    sink: &mut W,
    head: &Head,
    before: &[u8],
    behind: &[u8],
) -> Result<(), Failed>
    ensures { WriteSays result (head_text head.now ++ spec.more before.now behind.now)
        (W.takes sink.old) (W.takes sink.new) }
{
    let line = head_line(head);
    sink.take(line.as_slice())?;
    write_body(sink, before, behind)
}

fn write_parts<W: Taking>(
    sink: &mut W,
    close: bool,
    before: &[u8],
    behind: &[u8],
) -> Result<(), Failed>
    requires { length before.now + length behind.now ≤ 2 ^ 63 }
    ensures { WriteSays result (spec.answer_of 200 close (spec.more before.now behind.now))
        (W.takes sink.old) (W.takes sink.new) }
{
    let size = size_of(before, behind);
    write_behind(sink, &head_of(200, size, close), before, behind)
}

/// Writes an answer to an inspect with more members, and another piece as it is.
pub(crate) fn write_read<W: Taking>(sink: &mut W, piece: &[u8]) -> Result<(), Failed>
    ensures { WriteSays result (spec.shown piece.now) (W.takes sink.old) (W.takes sink.new) }
{
    match parts_of(piece) {
        Some(parts) => write_parts(sink, parts.close, parts.before, parts.behind),
        None => sink.take(piece),
    }
}
