// Frames of a stream, written as they come (Docker Engine API v1.43, ContainerAttach, "Stream format").
ghost use Rattle.std.specs.Prelude.{◌≡◌, ◌<◌, ◌∷◌, [], length};
ghost use Rattle.stream_frame.specs.Walks.{seen_item};
ghost use Rattle.stream_frame.specs.Steps.{held_after};
ghost use Rattle.client_exchange.specs.Outputs.{outputs, WritesBoth, IfUnwritten};
ghost use Rattle.client_exchange.specs.Writing.{part_written, items_written, piece_written, HaveBytes};

use client_model::Fault;
use engine_ports::Sink;
use engine_text::Stream;
use stream_frame::{Demux, FrameFault};

/// Writes a payload: of stream 1 to standard output, of 2 to standard error.
fn write_part<K: Sink, E: Sink>(
    stream: Stream,
    bytes: &[u8],
    out: &mut K,
    errors: &mut E,
) -> Result<(), Fault>
    ensures written { WritesBoth result (part_written (stream, bytes.now))
        (outputs (K.takes out.old) (E.takes errors.old))
        (outputs (K.takes out.new) (E.takes errors.new)) }
    ensures failing { 0 < length bytes.now
        → IfUnwritten result (part_written (stream, bytes.now)) }
{
    match stream {
        Stream::Stdin => Ok(()),
        Stream::Stdout => match out.write(bytes) {
            Ok(()) => Ok(()),
            Err(_) => Err(Fault::Output),
        },
        Stream::Stderr => match errors.write(bytes) {
            Ok(()) => Ok(()),
            Err(_) => Err(Fault::Errors),
        },
    }
}

/// Writes what an item shows.
fn write_item<K: Sink, E: Sink>(
    item: Result<(Stream, &[u8]), FrameFault>,
    out: &mut K,
    errors: &mut E,
) -> Result<(), Fault>
    ensures written { WritesBoth result (items_written (seen_item item.entry ∷ []))
        (outputs (K.takes out.old) (E.takes errors.old))
        (outputs (K.takes out.new) (E.takes errors.new)) }
    ensures failing { HaveBytes (seen_item item.entry ∷ [])
        → IfUnwritten result (items_written (seen_item item.entry ∷ [])) }
{
    match item {
        Ok((stream, bytes)) => write_part(stream, bytes, out, errors),
        Err(_) => Ok(()),
    }
}

/// Writes the payloads that a piece of a stream shows.
pub(crate) fn write_frames<K: Sink, E: Sink>(
    demux: &mut Demux,
    piece: &[u8],
    out: &mut K,
    errors: &mut E,
) -> Result<(), Fault>
    ensures written { WritesBoth result (piece_written demux.old piece.now)
        (outputs (K.takes out.old) (E.takes errors.old))
        (outputs (K.takes out.new) (E.takes errors.new)) }
    ensures failing { IfUnwritten result (piece_written demux.old piece.now) }
    ensures after { demux.new ≡ held_after demux.old piece.now }
{
    let items = demux.push(piece);
    'items: for item in items {
        match write_item(item, out, errors) {
            Ok(()) => {}
            Err(fault) => return Err(fault),
        }
    }
    Ok(())
}
