// Standard input, read to its end.
ghost use Rattle.std.specs.Prelude.{◌<◌, length};
ghost use Rattle.engine_client.specs.Replaying.{ReadsAll, ReadsInput};

use client_model::Fault;
use engine_ports::{Got, Source};
use std::alloc::Global;
use std::sync::Wait;

/// How many bytes are read at once at most.
const PIECE: usize = 4_096;

/// Adds all that standard input gives to a text, through this place.
fn read_all<W: Wait, N: Source>(
    rt: &W,
    input: &mut N,
    place: &mut [u8],
    text: &mut Vec<u8>,
) -> Result<(), Fault>
    requires { 0 < length place.old }
    ensures { ReadsAll result text.old.items text.new.items
        (N.gives input.old) (N.gives input.new) }
{
    for _ in rt.forever() {
        match input.read(place) {
            Got::Bytes(count) => match text.extend_from_slice(&place[..count]) {
                Ok(()) => {}
                Err(_) => return Err(Fault::NoMemory),
            },
            Got::End => return Ok(()),
            Got::Failed => return Err(Fault::Input),
        }
    }
    unreachable!()
}

/// All that standard input gives.
pub(crate) fn read_input<W: Wait, N: Source>(
    rt: &W,
    alloc: Global,
    input: &mut N,
) -> Result<Vec<u8>, Fault>
    ensures { ReadsInput result (N.gives input.old) (N.gives input.new) }
{
    let mut place = Vec::new(alloc);
    let mut text = Vec::new(alloc);
    match place.resize(PIECE, 0) {
        Ok(()) => {}
        Err(_) => return Err(Fault::NoMemory),
    }
    match read_all(rt, input, &mut place, &mut text) {
        Ok(()) => Ok(text),
        Err(fault) => Err(fault),
    }
}
