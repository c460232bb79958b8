// Responses that are read, however they are cut.
ghost use Rattle.std.specs.Prelude.{◌<◌};
ghost use Rattle.response_reader.specs.Reader.{IsInBody};

use crate::line::{as_text, owned, spelled};
use crate::short::Short;
use engine_ports::MemSource;
use response_reader::{Answered, BodyGot, ResponseReader};
use std::alloc::Global;

// Reads the body to its end, and answers how it ended.
fn read_body(
    reader: &mut ResponseReader,
    source: &mut MemSource,
    body: &mut Vec<u8>,
) -> Result<BodyGot, Short>
    requires { IsInBody reader.old.stage }
{
    let mut into = [0; 3];
    for _call in 0..u64::MAX {
        match reader.body(source, &mut into) {
            BodyGot::Bytes(count) => body.extend_from_slice(&into[..count])?,
            end => return Ok(end),
        }
    }
    Ok(BodyGot::ReadFault)
}

// What stands behind a head: the body and how it ended.
fn body(alloc: Global, reader: &mut ResponseReader, source: &mut MemSource) -> Result<String, Short>
    requires { IsInBody reader.old.stage }
{
    let mut body = Vec::new(alloc);
    let end = read_body(reader, source, &mut body)?;
    Ok(format!(in alloc; "({}) {end:?}", as_text(&body))?)
}

// What a response gives in pieces of so many bytes.
fn read(alloc: Global, bytes: &[u8], size: usize) -> Result<String, Short>
    requires { 0 < size }
{
    let mut source = MemSource::new(alloc, bytes, size, &[])?;
    let mut reader = ResponseReader::new(alloc)?;
    match reader.head(&mut source) {
        Answered::Head { status, first } => {
            let told = body(alloc, &mut reader, &mut source)?;
            Ok(format!(in alloc; "{status} from {first:?} {told}")?)
        }
        Answered::BadHead { at } => Ok(format!(in alloc; "no head at {at}")?),
        Answered::CutShort => owned(alloc, "cut short"),
        Answered::ReadFault => owned(alloc, "failed"),
    }
}

/// What the response of `SIZE|BYTES` gives.
pub fn told(alloc: Global, size: &str, rest: &str) -> Result<String, Short> {
    let text = spelled(alloc, rest)?;
    match size.parse::<usize>() {
        Ok(size) if 0 < size => read(alloc, text.as_bytes(), size),
        _ => owned(alloc, "no size"),
    }
}
