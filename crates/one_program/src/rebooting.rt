// A daemon that goes on with the written history that a source gives.
ghost use Rattle.std.specs.Prelude.{◌≡◌};
ghost use Rattle.engine_ports.specs.Door.{outside};
ghost use Rattle.program_parts.specs.Opening.{StartsWithin};
ghost use Rattle.one_program.specs.Rebooting.{Continues, Reboots, Remakes};

use crate::listening::listen_on;
use crate::reading::read_journal;
use crate::refusing::{refuse, tell_unread, tell_verdict};
use engine_line::OneLine;
use engine_ports::{Clock, Sink, Source};
use engine_reboot::{Rebooted, reboot};
use polled_ports::{PollDoor, Runner};
use program_parts::{opening_by, status_by};
use session_model::Worst;
use std::alloc::Global;

/// Makes a written history again, at the moment at which a new daemon would be opened. The text is let go.
fn remake<C: Clock>(alloc: Global, line: OneLine, text: Vec<u8>, clock: &mut C) -> Rebooted
    requires { StartsWithin line.clock }
    ensures { Remakes line text.items result (C.times clock.old) (C.times clock.new) }
{
    let moment = opening_by(line.clock, clock);
    reboot(alloc, &text, u64::from(line.entries), moment)
}

/// Makes a written history again; then binds a door to an address and serves by the daemon that is ready, or tells why there is none.
fn go_on<K: Sink, C: Clock, D: PollDoor, R: Runner>(
    alloc: Global,
    line: OneLine,
    addr: &str,
    text: Vec<u8>,
    sink: &mut K,
    clock: &mut C,
    door: &mut D,
    runner: &mut R,
) -> u8
    requires { StartsWithin line.clock }
    ensures { Continues text.items addr.now line result (K.takes sink.old) (K.takes sink.new)
        (C.times clock.old) (C.times clock.new) (D.opens door.old) (D.opens door.new)
        (R.faults runner.old) (R.faults runner.new) }
{
    match remake(alloc, line, text, clock) {
        Rebooted::Ready { daemon, first } => {
            listen_on(alloc, line, daemon, first, addr, clock, door, runner)
        }
        Rebooted::Old => refuse(sink, "journal of format 1\n"),
        Rebooted::NotLegal(verdict) => tell_verdict(alloc, sink, &verdict),
        Rebooted::Full { entries: _ } => refuse(sink, "journal is full\n"),
        Rebooted::NoMemory => status_by(Worst::NoMemory),
    }
}

/// Reads the journal, makes its history again, and goes on with it.
pub(crate) fn reboot_by<S: Source, K: Sink, C: Clock, D: PollDoor, R: Runner>(
    alloc: Global,
    line: OneLine,
    addr: &str,
    source: &mut S,
    sink: &mut K,
    clock: &mut C,
    door: &mut D,
    runner: &mut R,
) -> u8
    requires { StartsWithin line.clock }
    ensures { Reboots addr.now line result
        (outside (S.gives source.old) (K.takes sink.old) (C.times clock.old))
        (outside (S.gives source.new) (K.takes sink.new) (C.times clock.new))
        (D.opens door.old) (D.opens door.new) (R.faults runner.old) (R.faults runner.new) }
{
    match read_journal(alloc, source) {
        Ok(text) => go_on(alloc, line, addr, text, sink, clock, door, runner),
        Err(why) => tell_unread(sink, why),
    }
}
