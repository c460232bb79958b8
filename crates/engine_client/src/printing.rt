// Steps that print, and end.
ghost use Rattle.std.specs.Prelude.{◌≡◌, ◌++◌, false, codes, decimal, IfOk};
ghost use Rattle.client_model.specs.Plans.{prints, prints_all, done};
ghost use Rattle.engine_client.specs.Places.{GoesOn};
ghost use Rattle.engine_client.specs.Printing.{lines_text};

use crate::step::Step;
use client_model::Fault;
use engine_text::{NoMemory, Text};
use itoa::Buffer;
use std::alloc::Global;
use std::mem;

/// Adds a line with its end to a text.
fn add_line(text: &mut Vec<u8>, line: &[u8]) -> Result<(), NoMemory>
    ensures { IfOk result (λ x. text.new.items ≡ text.old.items ++ line.now ++ codes "\n") }
{
    text.extend_from_slice(line)?;
    text.extend_from_slice(b"\n")?;
    Ok(())
}

/// A line with its end.
fn line_text(alloc: Global, line: &[u8]) -> Result<Vec<u8>, NoMemory>
    ensures { IfOk result (λ t. t.items ≡ line.now ++ codes "\n") }
{
    let mut text = Vec::new(alloc);
    add_line(&mut text, line)?;
    Ok(text)
}

/// Lines, each with its end.
pub fn text_of(alloc: Global, lines: &[Text]) -> Result<Vec<u8>, NoMemory>
    ensures { IfOk result (λ t. t.items ≡ lines_text lines.now) }
{
    let mut text = Vec::new(alloc);
    'lines: for line in lines {
        add_line(&mut text, line.as_slice())?;
    }
    Ok(text)
}

/// It prints a line.
pub(crate) fn prints(alloc: Global, line: &[u8]) -> Result<Step, Fault>
    ensures { GoesOn result false (prints line.now done) }
{
    match line_text(alloc, line) {
        Ok(text) => Ok(Step::Writes { text, status: 0 }),
        Err(_) => Err(Fault::NoMemory),
    }
}

/// It prints an exit code.
pub(crate) fn prints_code(alloc: Global, code: u8) -> Result<Step, Fault>
    ensures { GoesOn result false (prints (decimal code) done) }
{
    let mut digits = Buffer::new();
    prints(alloc, digits.format(code).as_bytes())
}

/// It prints lines.
pub(crate) fn prints_all(alloc: Global, lines: &[Text]) -> Result<Step, Fault>
    ensures { GoesOn result false (prints_all lines.now done) }
{
    match text_of(alloc, lines) {
        Ok(text) => Ok(Step::Writes { text, status: 0 }),
        Err(_) => Err(Fault::NoMemory),
    }
}

/// It prints a body, which is taken.
pub(crate) fn prints_body(alloc: Global, body: &mut Vec<u8>) -> Result<Step, Fault>
    ensures { GoesOn result false (prints body.old.items done) }
{
    let mut text = mem::replace(&mut *body, Vec::new(alloc));
    match text.push(b'\n') {
        Ok(()) => Ok(Step::Writes { text, status: 0 }),
        Err(_) => Err(Fault::NoMemory),
    }
}
