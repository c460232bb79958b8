// Reading into a place.
ghost use Rattle.std.specs.Prelude.{◌≡◌, ◌<◌, ◌≤◌, ◌-◌, List, ℕ, length, take, drop};
ghost use Rattle.http_edge.specs.Reading.{Fills, ReadsBehind, FillFacts, FillSays};

use crate::ahead::Ahead;
use engine_ports::{Got, Source};

/// Moves the bytes from `used` to `len` to the front, and answers how many they are.
pub(crate) fn shift(buffer: &mut [u8], used: usize, len: usize) -> usize
    requires used { used ≤ len }
    requires len { len ≤ length buffer.old }
    ensures count { result ≡ len - used }
    ensures moved { take result buffer.new ≡ drop used (take len buffer.old) }
{
    buffer.copy_within(used..len, 0);
    len - used
}

/// Reads on behind the first `len` bytes of the buffer.
pub(crate) fn read_behind<S: Source>(source: &mut S, buffer: &mut [u8], len: usize) -> Got
    requires { len < length buffer.old }
    ensures reads { ReadsBehind result buffer.old buffer.new len
        (S.gives source.old) (S.gives source.new) }
    ensures before { take len buffer.new ≡ take len buffer.old }
{
    source.read(&mut buffer[len..])
}

/// Whether a place could be filled.
#[derive(Clone, Copy)]
pub(crate) enum Filled {
    Whole,
    CutShort,
    Failed,
}

/// Reads until the buffer is full, and answers how many bytes stand in it.
fn fill_on<S: Source>(source: &mut S, buffer: &mut [u8], start: usize) -> (Filled, usize)
    requires within { start ≤ length buffer.old }
    ensures len { result.1 ≤ length buffer.new }
    ensures fills { Fills (take start buffer.old) (take result.1 buffer.new)
        (S.gives source.old) (S.gives source.new) }
    ensures facts { FillFacts result.0 result.1 (length buffer.new)
        (S.gives source.old) (S.gives source.new) }
{
    let mut len = start;
    'more: loop {
        if len == buffer.len() {
            return (Filled::Whole, len);
        }
        match read_behind(source, buffer, len) {
            Got::Bytes(count) => len += count,
            Got::End => return (Filled::CutShort, len),
            Got::Failed => return (Filled::Failed, len),
        }
    }
}

/// Fills the place: first with what was read ahead, and then from the source.
pub(crate) fn fill<S: Source>(source: &mut S, ahead: &mut Ahead, place: &mut [u8]) -> Filled
    ensures { FillSays result ahead.old ahead.new place.new
        (S.gives source.old) (S.gives source.new) }
{
    let start = ahead.take(place);
    let (filled, _) = fill_on(source, place, start);
    filled
}
