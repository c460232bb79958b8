// The daemon's journal, as it is asked for over a connection of control's own.
ghost use Rattle.std.specs.Prelude.{◌<◌};
ghost use Rattle.engine_ports.specs.Sink.{WriteSays};
ghost use Rattle.control_session.specs.Answering.{Writes};

use engine_ports::{Failed, Got, Link, Sink, Source};
use json_answer::Terms;
use lab_control::{Told, write_told};

/// The request for the journal.
const REQUEST: &[u8] =
    b"GET /v1.43/engine/journal HTTP/1.1\r\nHost: enginelab\r\nConnection: close\r\n\r\n";

/// Writes all that a source gives, as it comes.
fn hand_on<S: Source, K: Sink>(from: &mut S, sink: &mut K) -> Result<(), Failed>
    ensures { Writes result (K.takes sink.old) (K.takes sink.new) }
{
    let mut place = [0; 4_096];
    for _ in 0..u64::MAX {
        match from.read(&mut place) {
            Got::Bytes(count) => match sink.write(&place[..count]) {
                Ok(()) => {}
                Err(Failed) => return Err(Failed),
            },
            Got::End | Got::Failed => break,
        }
    }
    Ok(())
}

/// Asks for the journal at an address, and hands on what is answered, byte for byte.
pub(crate) fn write_journal<L: Link, K: Sink>(
    link: &mut L,
    address: &str,
    sink: &mut K,
    terms: Terms,
) -> Result<(), Failed>
    ensures { Writes result (K.takes sink.old) (K.takes sink.new) }
{
    let Ok((mut from, mut into)) = link.connect(address) else {
        return write_told(sink, terms, Told::NoJournal);
    };
    let written = match into.write(REQUEST) {
        Ok(()) => hand_on(&mut from, sink),
        Err(Failed) => write_told(sink, terms, Told::NoJournal),
    };
    link.leave(from, into);
    written
}
