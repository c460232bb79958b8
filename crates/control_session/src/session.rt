// A connection of control.
ghost use Rattle.control_session.specs.Controls.{ControlSays};

use crate::answering::answer;
use crate::way::{Way, terms_by, way_by};
use engine_ports::{Clock, Sink, Source};
use http_edge::{Next, RequestReader, write_refusal};
use json_answer::Terms;
use lab_control::asked_of;
use lab_ports::Linking;
use manual_clock::SharedTime;
use std::alloc::Global;
use std::sync::Wait;

/// Answers the requests of a connection, one after the other, by the shared time or else by the system's clock, and
/// whether one of them ends the program; the daemon at the address is asked for its journal. It may wait.
pub fn serve_control<R: Wait, J: Linking, S: Source, K: Sink, C: Clock>(
    rt: &R,
    time: Option<&SharedTime>,
    links: &J,
    address: &str,
    alloc: Global,
    source: &mut S,
    sink: &mut K,
    clock: &mut C,
) -> bool
    ensures { ControlSays time.entry result (S.gives source.old) (S.gives source.new)
        (K.takes sink.old) (K.takes sink.new) }
{
    let Ok(mut reader) = RequestReader::new(alloc) else {
        return false;
    };
    for _ in rt.forever() {
        match reader.next(source) {
            Next::Request(request) => {
                let asked = asked_of(&request);
                let terms = terms_by(asked, Terms::of(&request));
                let written = answer(rt, time, links, address, asked, terms, sink, clock);
                match way_by(asked, terms, written) {
                    Way::On => {}
                    Way::Closes => return false,
                    Way::Stops => return true,
                }
            }
            Next::Bad { status, .. } => {
                let _ = write_refusal(sink, status);
                return false;
            }
            Next::End | Next::CutShort | Next::ReadFault => return false,
        }
    }
    unreachable!()
}
