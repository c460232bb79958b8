// Heads, answers and chunks that are written.
ghost use Rattle.std.specs.Prelude.{◌<◌, length};

use crate::line::{as_text, cut, number, owned};
use crate::short::Short;
use engine_ports::MemSink;
use http_edge::{Form, Head, write_answer, write_chunk, write_head, write_last, write_refusal};
use std::alloc::Global;

// The form of a word, and its number.
fn form_of(word: &str, n: &str) -> Form {
    match word {
        "json" => Form::Json(number(n)),
        "plain" => Form::Plain(number(n)),
        "frames" => Form::ChunkedFrames,
        "json chunks" => Form::ChunkedJson {
            first: n.parse().ok(),
        },
        "plain chunks" => Form::ChunkedPlain,
        "takeover" => Form::Takeover { upgrade: false },
        "upgrade" => Form::Takeover { upgrade: true },
        _ => Form::Empty,
    }
}

// A status.
fn status_of(field: &str) -> u16 {
    field.parse().unwrap_or(0)
}

// The head of `STATUS|close or stay|FORM|NUMBER`.
fn head_of(rest: &str) -> Head {
    let (status, rest) = cut(rest);
    let (close, rest) = cut(rest);
    let (form, n) = cut(rest);
    Head {
        status: status_of(status),
        form: form_of(form, n),
        close: close == "close",
    }
}

// What a sink was written, and whether it was.
fn written(alloc: Global, sink: &MemSink, good: bool) -> Result<String, Short> {
    let text = as_text(sink.bytes());
    let end = if good { "written" } else { "failed" };
    Ok(format!(in alloc; "{text}({end})")?)
}

fn head(alloc: Global, rest: &str) -> Result<String, Short> {
    let mut sink = MemSink::new(alloc, &[])?;
    let good = write_head(&mut sink, &head_of(rest)).is_ok();
    written(alloc, &sink, good)
}

fn refusal(alloc: Global, rest: &str) -> Result<String, Short> {
    let mut sink = MemSink::new(alloc, &[])?;
    let good = write_refusal(&mut sink, status_of(rest)).is_ok();
    written(alloc, &sink, good)
}

const NO_BODY: Head = Head {
    status: 200,
    form: Form::Empty,
    close: false,
};

// So many bytes, all the same.
fn piece_of(alloc: Global, size: u16) -> Result<Vec<u8>, Short> {
    Ok(vec![in alloc; b'x'; usize::from(size)]?)
}

// An answer of so many bytes where the second write fails.
fn answer(alloc: Global, size: u16) -> Result<String, Short> {
    let body = piece_of(alloc, size)?;
    let mut sink = MemSink::new(alloc, &[1])?;
    let good = write_answer(&mut sink, &NO_BODY, &body).is_ok();
    written(alloc, &sink, good)
}

// A chunk of so many bytes; of none it is the last.
fn chunk(alloc: Global, size: u16) -> Result<String, Short> {
    let piece = piece_of(alloc, size)?;
    let mut sink = MemSink::new(alloc, &[])?;
    let good = if piece.is_empty() {
        write_last(&mut sink).is_ok()
    } else {
        write_chunk(&mut sink, &piece).is_ok()
    };
    written(alloc, &sink, good)
}

/// What is written for a line of that kind.
pub fn told(alloc: Global, kind: &str, rest: &str) -> Result<String, Short> {
    match kind {
        "head" => head(alloc, rest),
        "refusal" => refusal(alloc, rest),
        "answer" => answer(alloc, status_of(rest)),
        "chunk" => chunk(alloc, status_of(rest)),
        _ => owned(alloc, "no such kind"),
    }
}
