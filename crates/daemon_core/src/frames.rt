// The frames of records (Docker Engine API v1.43, ContainerAttach, "Stream format").
ghost use Rattle.std.specs.Prelude.{◌≡◌, ◌+◌, ◌<◌, ◌≤◌, [], ◌∷◌, ◌++◌, codes, length, IfOk, OnErr, OnOk, Some};
ghost use Rattle.engine_text.specs.Moment.{moment_text};
ghost use Rattle.stream_frame.specs.Frames.{frame_of, frames_of};
ghost use Rattle.machine_model.specs.Frames.{cut};
ghost use Rattle.machine_model.specs.LogStream.{is_asked_by, stamped};
ghost use Rattle.daemon_core.specs.Framing.{Longer, IsTimed, Passes, asked_bytes};

use crate::append::append;
use engine_text::{LogRecord, LogSpec, NoMemory, Stream, moment_text};
use machine_model::{FRAME_BYTES, GREATEST_MOMENT};
use reading_calls::is_selected;
use stream_frame::header;

/// The bytes that a part has at least before it ends with its record.
const PART: usize = 65_536;

/// The records over which a part passes at most.
const RECORDS: usize = 4096;

// The frame of a payload that is told in two pieces.
fn put_frame(out: &mut Vec<u8>, kind: Stream, front: &[u8], payload: &[u8]) -> Result<(), NoMemory>
    requires { length front.now + length payload.now ≤ FRAME_BYTES }
    ensures ok { OnOk result
        (out.new.items ≡ out.old.items ++ frame_of (kind, front.now ++ payload.now)) }
    ensures err { OnErr result (Longer out.old.items out.new.items) }
{
    let size = front.len() + payload.len();
    append(out, &header(kind, size as u32))?;
    append(out, front)?;
    append(out, payload)
}

// The frames of a payload.
fn put_rest(out: &mut Vec<u8>, kind: Stream, payload: &[u8]) -> Result<(), NoMemory>
    ensures ok { OnOk result
        (out.new.items ≡ out.old.items ++ frames_of (cut (kind, payload.now))) }
    ensures err { OnErr result (Longer out.old.items out.new.items) }
{
    let mut left = payload;
    while !left.is_empty() {
        let (piece, more) = left.split_at(left.len().min(FRAME_BYTES));
        put_frame(out, kind, &[], piece)?;
        left = more;
    }
    Ok(())
}

// The frames of a payload that is told in two pieces, of which the first fits a frame.
fn put_payload(
    out: &mut Vec<u8>,
    kind: Stream,
    front: &[u8],
    payload: &[u8],
) -> Result<(), NoMemory>
    requires some { 0 < length front.now }
    requires fits { length front.now ≤ FRAME_BYTES }
    ensures ok { OnOk result
        (out.new.items ≡ out.old.items ++ frames_of (cut (kind, front.now ++ payload.now))) }
    ensures err { OnErr result (Longer out.old.items out.new.items) }
{
    let (first, rest) = payload.split_at(payload.len().min(FRAME_BYTES - front.len()));
    put_frame(out, kind, front, first)?;
    put_rest(out, kind, rest)
}

// The moment's text and a blank.
fn stamp(moment: u64) -> [u8; 31]
    requires { moment ≤ GREATEST_MOMENT }
    ensures { result ≡ moment_text (Some moment) ++ codes " " }
{
    let (text, _) = moment_text(Some(moment));
    let mut bytes = [b' '; 31];
    bytes[..30].copy_from_slice(&text);
    bytes
}

// The frames of a record.
fn put_record(out: &mut Vec<u8>, item: &LogRecord, stamps: bool) -> Result<(), NoMemory>
    requires { item.now.moment ≤ GREATEST_MOMENT }
    ensures ok { OnOk result (out.new.items
        ≡ out.old.items ++ frames_of (cut (item.now.stream, stamped stamps item.now))) }
    ensures err { OnErr result (Longer out.old.items out.new.items) }
{
    let payload = item.payload.as_slice();
    if stamps {
        return put_payload(out, item.stream, &stamp(item.moment), payload);
    }
    put_rest(out, item.stream, payload)
}

// Whether the record is of the asked streams and moments.
fn is_asked_by(spec: &LogSpec, item: &LogRecord) -> bool
    ensures { result ≡ is_asked_by spec.now item.now }
{
    is_selected(item, spec.out, spec.err, spec.least, spec.greatest)
}

// The frames of the record, if it is asked for.
fn put_asked(out: &mut Vec<u8>, spec: &LogSpec, item: &LogRecord) -> Result<(), NoMemory>
    requires { item.now.moment ≤ GREATEST_MOMENT }
    ensures ok { OnOk result
        (out.new.items ≡ out.old.items ++ asked_bytes spec.now (item.now ∷ [])) }
    ensures err { OnErr result (Longer out.old.items out.new.items) }
{
    if is_asked_by(spec, item) {
        return put_record(out, item, spec.stamps);
    }
    Ok(())
}

// The frames of the first of these records; the count of those that were passed.
fn put_records(out: &mut Vec<u8>, spec: &LogSpec, records: &[LogRecord]) -> Result<usize, NoMemory>
    requires some { 0 < length records.now }
    requires timed { IsTimed records.now }
    ensures ok { IfOk result (λ n. Passes spec.now records.now n out.old.items out.new.items) }
    ensures err { OnErr result (Longer out.old.items out.new.items) }
{
    let full = out.len().saturating_add(PART);
    let mut passed = 0;
    for item in records {
        put_asked(out, spec, item)?;
        passed += 1;
        if full <= out.len() || RECORDS <= passed {
            return Ok(passed);
        }
    }
    Ok(passed)
}

/// Appends the frames of the first of these records, as they are asked for, and tells how many it
/// passed, asked for or not. Without memory nothing is appended.
pub fn append_records(
    out: &mut Vec<u8>,
    spec: &LogSpec,
    records: &[LogRecord],
) -> Result<usize, NoMemory>
    requires some { 0 < length records.now }
    requires timed { IsTimed records.now }
    ensures ok { IfOk result (λ n. Passes spec.now records.now n out.old.items out.new.items) }
    ensures err { OnErr result (out.new.items ≡ out.old.items) }
{
    let before = out.len();
    let passed = put_records(out, spec, records);
    if passed.is_err() {
        out.truncate(before);
    }
    passed
}
