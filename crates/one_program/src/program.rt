// The program `engineone`.
ghost use Rattle.engine_ports.specs.Door.{outside};
ghost use Rattle.program_parts.specs.Opening.{StartsWithin};
ghost use Rattle.one_program.specs.Program.{BeginsBy, RunsProgram};

use crate::listening::listen_new;
use crate::rebooting::reboot_by;
use engine_line::{Beginning, OneLine, read_one_line};
use engine_ports::{Clock, Sink, Source};
use engine_text::Text;
use polled_ports::{PollDoor, Runner};
use program_parts::{address_of, status_by, tell_usage};
use session_model::Worst;
use std::alloc::Global;

/// What is written where the words aren't a line.
const USAGE: &str =
    "usage: engineone ADDR [--seed HEX] [--clock START:STEP] [--connections N] [--journal N] [--reboot]\n";

/// Serves the connections of an address by a daemon that begins as the line says.
fn begin_by<S: Source, K: Sink, C: Clock, D: PollDoor, R: Runner>(
    alloc: Global,
    line: OneLine,
    addr: &str,
    source: &mut S,
    sink: &mut K,
    clock: &mut C,
    door: &mut D,
    runner: &mut R,
) -> u8
    requires { StartsWithin line.clock }
    ensures { BeginsBy line.beginning addr.now line result
        (outside (S.gives source.old) (K.takes sink.old) (C.times clock.old))
        (outside (S.gives source.new) (K.takes sink.new) (C.times clock.new))
        (D.opens door.old) (D.opens door.new) (R.faults runner.old) (R.faults runner.new) }
{
    match line.beginning {
        Beginning::New { seed } => listen_new(alloc, line, seed, addr, clock, door, runner),
        Beginning::Reboot => { reboot_by(alloc, line, addr, source, sink, clock, door, runner) }
    }
}

/// Runs `engineone` with the words after the program's name, and answers its status. The source is read by a line with
/// `--reboot` alone.
pub fn run_engine_one<S: Source, K: Sink, C: Clock, D: PollDoor, R: Runner>(
    alloc: Global,
    words: &[Text],
    source: &mut S,
    sink: &mut K,
    clock: &mut C,
    door: &mut D,
    runner: &mut R,
) -> u8
    ensures { RunsProgram words.now result
        (outside (S.gives source.old) (K.takes sink.old) (C.times clock.old))
        (outside (S.gives source.new) (K.takes sink.new) (C.times clock.new))
        (D.opens door.old) (D.opens door.new) (R.faults runner.old) (R.faults runner.new) }
{
    match read_one_line(words) {
        None => tell_usage(sink, USAGE),
        Some(line) => match address_of(alloc, line.port) {
            Ok(addr) => begin_by(alloc, line, &addr, source, sink, clock, door, runner),
            Err(_) => status_by(Worst::NoMemory),
        },
    }
}
