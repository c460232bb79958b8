// The program `dockc`.
ghost use Rattle.client_model.specs.Lines.{address_in};
ghost use Rattle.client_model.specs.Client.{plan_for};
ghost use Rattle.client_model.specs.Runs.{Runs};
ghost use Rattle.engine_client.specs.Running.{Ran, Tells, outside_of};

use crate::performing::run_command;
use client_exchange::Outside;
use client_model::Fault;
use client_parts::{Unread, read_line, status_of, write_fault};
use engine_ports::{Link, Sink, Source};
use engine_text::Text;
use std::alloc::Global;
use std::sync::Wait;

/// Runs the command of these words, where they are a line.
fn run_words<W: Wait, L: Link, N: Source, K: Sink, E: Sink>(
    rt: &W,
    alloc: Global,
    words: &[Text],
    outside: &mut Outside<L, N, K, E>,
) -> Result<u8, Fault>
    ensures { Ran (address_in words.now) (plan_for words.now) result
        (outside_of (L.links outside.old.link) (N.gives outside.old.input)
        (K.takes outside.old.out) (E.takes outside.old.errors))
        (outside_of (L.links outside.new.link) (N.gives outside.new.input)
        (K.takes outside.new.out) (E.takes outside.new.errors)) }
{
    match read_line(alloc, words) {
        Ok(line) => run_command(rt, alloc, outside, line.address.as_str(), &line.command),
        Err(Unread::NoForm) => Err(Fault::Words),
        Err(Unread::NoMemory) => Err(Fault::NoMemory),
    }
}

/// Writes the line of a fault, and answers its status. A write that fails isn't told.
fn tell<E: Sink>(errors: &mut E, words: &[Text], fault: &Fault) -> u8
    ensures { Tells words.now fault.now result (E.takes errors.old) (E.takes errors.new) }
{
    let _ = write_fault(errors, words, fault);
    status_of(fault)
}

/// Runs `dockc` with the words after the program's name, and answers its status.
pub fn run_client<W: Wait, L: Link, N: Source, K: Sink, E: Sink>(
    rt: &W,
    alloc: Global,
    words: &[Text],
    outside: &mut Outside<L, N, K, E>,
) -> u8
    ensures { Runs words.now result
        (outside_of (L.links outside.old.link) (N.gives outside.old.input)
        (K.takes outside.old.out) (E.takes outside.old.errors))
        (outside_of (L.links outside.new.link) (N.gives outside.new.input)
        (K.takes outside.new.out) (E.takes outside.new.errors)) }
{
    match run_words(rt, alloc, words, outside) {
        Ok(status) => status,
        Err(fault) => tell(&mut outside.errors, words, &fault),
    }
}
