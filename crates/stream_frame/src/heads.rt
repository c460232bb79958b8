// The header of a frame (Docker Engine API v1.43, ContainerAttach, "Stream format").
ghost use Rattle.std.specs.Prelude.{◌≡◌};
ghost use Rattle.stream_frame.specs.Frames.{stream_byte, header_of};

use engine_text::Stream;

/// The number of a stream.
fn stream_byte(kind: Stream) -> u8
    ensures { result ≡ stream_byte kind }
{
    match kind {
        Stream::Stdin => 0,
        Stream::Stdout => 1,
        Stream::Stderr => 2,
    }
}

/// The eight bytes before a payload of this stream and of so many bytes.
pub fn header(kind: Stream, size: u32) -> [u8; 8]
    ensures { result ≡ header_of kind size }
{
    let [a, b, c, d] = size.to_be_bytes();
    [stream_byte(kind), 0, 0, 0, a, b, c, d]
}
