// A request and its input, sent.
ghost use Rattle.std.specs.Prelude.{◌<◌, [], length};
ghost use Rattle.client_exchange.specs.Feeding.{SendSays};

use client_model::Fault;
use engine_ports::{Got, Sink, Source};
use std::sync::Wait;

/// Sends standard input to its end, through this place.
fn send_input<W: Wait, S: Source, I: Sink>(
    rt: &W,
    input: &mut S,
    into: &mut I,
    place: &mut [u8],
) -> Result<(), Fault>
    requires { 0 < length place.old }
    ensures { SendSays [] result (S.gives input.old) (S.gives input.new)
        (I.takes into.old) (I.takes into.new) }
{
    for _ in rt.forever() {
        match input.read(place) {
            Got::Bytes(count) => match into.write(&place[..count]) {
                Ok(()) => {}
                Err(_) => return Err(Fault::Connection),
            },
            Got::End => match into.finish() {
                Ok(()) => return Ok(()),
                Err(_) => return Err(Fault::Connection),
            },
            Got::Failed => return Err(Fault::Input),
        }
    }
    unreachable!()
}

/// Sends a request, and behind it standard input to its end, through this place.
pub(crate) fn send_with_input<W: Wait, S: Source, I: Sink>(
    rt: &W,
    request: &[u8],
    input: &mut S,
    into: &mut I,
    place: &mut [u8],
) -> Result<(), Fault>
    requires { 0 < length place.old }
    ensures { SendSays request.now result (S.gives input.old) (S.gives input.new)
        (I.takes into.old) (I.takes into.new) }
{
    match into.write(request) {
        Ok(()) => send_input(rt, input, into, place),
        Err(_) => Err(Fault::Connection),
    }
}
