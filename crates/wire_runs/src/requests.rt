// Requests that are read, whole and in pieces.
ghost use Rattle.std.specs.Prelude.{◌<◌};

use crate::line::{as_text, cut, fill, number, owned, spelled};
use crate::short::Short;
use engine_ports::{Got, MemSource};
use http_edge::{Next, RequestReader, RequestView, Stopped};
use std::alloc::Global;

/// What comes of a connection's bytes: how many bytes of bodies, how many requests, and why no more.
type Came = (usize, u64, Option<Stopped>);

// What comes of the bytes, in pieces of that size.
fn drain(alloc: Global, bytes: &[u8], cut: usize, failing: &[u64]) -> Result<Came, Short>
    requires { 0 < cut }
{
    let mut source = MemSource::new(alloc, bytes, cut, failing)?;
    let mut reader = RequestReader::new(alloc)?;
    let mut length: usize = 0;
    for count in 0..u64::MAX {
        match reader.next(&mut source) {
            Next::Request(request) => length = length.saturating_add(request.body().len()),
            Next::End => return Ok((length, count, None)),
            Next::Bad { status, at } => {
                return Ok((length, count, Some(Stopped::Bad { status, at })));
            }
            Next::CutShort => return Ok((length, count, Some(Stopped::CutShort))),
            Next::ReadFault => return Ok((length, count, Some(Stopped::ReadFault))),
        }
    }
    Ok((length, u64::MAX, None))
}

fn shown(alloc: Global, came: Came) -> Result<String, Short> {
    let (length, count, stopped) = came;
    Ok(format!(in alloc; "{count} requests, {length} bytes of bodies, {stopped:?}")?)
}

// What comes of the bytes in one piece, where the same comes in pieces of each size below.
fn each_size(alloc: Global, bytes: &[u8]) -> Result<String, Short> {
    let whole = drain(alloc, bytes, 4096, &[])?;
    for cut in 0..bytes.len() {
        let came = drain(alloc, bytes, cut + 1, &[])?;
        if came != whole {
            return Ok(format!(in alloc; "otherwise in pieces of {cut} bytes and one")?);
        }
    }
    shown(alloc, whole)
}

// What comes of the bytes in pieces of 100 where the read of that number fails.
fn failing(alloc: Global, rest: &str) -> Result<String, Short> {
    let (read, field) = cut(rest);
    let text = spelled(alloc, field)?;
    let came = drain(alloc, text.as_bytes(), 100, &[number(read)])?;
    shown(alloc, came)
}

// What comes of filled bytes in pieces of a size.
fn at_size(alloc: Global, bytes: &[u8], size: &str) -> Result<String, Short> {
    match size.parse::<usize>() {
        Ok(cut) if 0 < cut => shown(alloc, drain(alloc, bytes, cut, &[])?),
        _ => owned(alloc, "no size"),
    }
}

fn sized(alloc: Global, rest: &str) -> Result<String, Short> {
    let (size, rest) = cut(rest);
    let text = fill(alloc, rest)?;
    at_size(alloc, text.as_bytes(), size)
}

// Writes a field, with a blank before it.
fn put_field(told: &mut String, name: &[u8], value: &[u8]) -> Result<(), Short> {
    write!(told, " [{}: {}]", as_text(name), as_text(value))?;
    Ok(())
}

// The fields of a request, with a blank before each.
fn fields(alloc: Global, request: &RequestView<'_>) -> Result<String, Short> {
    let mut told = String::new(alloc);
    for (name, value) in request.fields() {
        put_field(&mut told, name, value)?;
    }
    Ok(told)
}

// What a request shows.
fn request(alloc: Global, request: &RequestView<'_>) -> Result<String, Short> {
    let fields = fields(alloc, request)?;
    Ok(format!(in alloc;
        "{} {} with{fields} and {}; head {}, closes {}, upgrades {}",
        request.method(),
        request.target(),
        as_text(request.body()),
        request.is_head(),
        request.closes(),
        request.asks_upgrade()
    )?)
}

// What is left of the input, a piece at a time.
fn rest_of(
    alloc: Global,
    reader: &mut RequestReader,
    source: &mut MemSource,
) -> Result<String, Short> {
    let mut told = String::new(alloc);
    let mut place = [0; 8];
    for _ in 0..u64::MAX {
        match reader.take_rest(source, &mut place) {
            Got::Bytes(count) => write!(told, " {}", as_text(&place[..count]))?,
            Got::End => return Ok(told),
            Got::Failed => break,
        }
    }
    Ok(told)
}

// What the first request shows, and what is left behind it.
fn first(alloc: Global, bytes: &[u8], cut: usize) -> Result<String, Short>
    requires { 0 < cut }
{
    let mut source = MemSource::new(alloc, bytes, cut, &[])?;
    let mut reader = RequestReader::new(alloc)?;
    let shown = match reader.next(&mut source) {
        Next::Request(read) => request(alloc, &read)?,
        _ => return owned(alloc, "no request"),
    };
    let rest = rest_of(alloc, &mut reader, &mut source)?;
    Ok(format!(in alloc; "{shown}; then{rest}")?)
}

// What the first request of `SIZE|BYTES` shows.
fn shown_first(alloc: Global, rest: &str) -> Result<String, Short> {
    let (size, field) = cut(rest);
    let text = spelled(alloc, field)?;
    match size.parse::<usize>() {
        Ok(cut) if 0 < cut => first(alloc, text.as_bytes(), cut),
        _ => owned(alloc, "no size"),
    }
}

/// What comes of a connection's bytes.
pub fn told(alloc: Global, kind: &str, rest: &str) -> Result<String, Short> {
    match kind {
        "each size" => each_size(alloc, spelled(alloc, rest)?.as_bytes()),
        "failing" => failing(alloc, rest),
        "filled" => sized(alloc, rest),
        "first" => shown_first(alloc, rest),
        _ => owned(alloc, "no such kind"),
    }
}
