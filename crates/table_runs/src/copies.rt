// Copies of what stands in no line, and logs that grow.
ghost use Rattle.std.specs.Prelude.{◌<◌};

use crate::line::{as_text, owned};
use crate::short::Short;
use api_json::filter_word;
use engine_text::{
    Buffer, Bytes, Filter, FilterKey, FilterRow, Log, LogRecord, LogSpec, Manner, Numbers, Op,
    OpenLog, Ops, OwnedLog, OwnedLogs, Owner, Reply, Script, StopRule, Stream, Text, Words,
};
use std::alloc::Global;

// Bytes, their copy, and the copy in a buffer that has just the room.
fn bytes(alloc: Global, field: &str) -> Result<String, Short> {
    let bytes = Bytes::of(alloc, field.as_bytes())?;
    let again = bytes.copy(alloc)?;
    let buffer = Buffer::of(alloc, field.len())?;
    let within = bytes.copy_within(buffer);
    Ok(format!(in alloc;
        "{} {}",
        as_text(again.as_slice()),
        as_text(within.as_slice())
    )?)
}

// The copy of bytes that the program holds.
fn lent(alloc: Global) -> Result<String, Short> {
    let again = Bytes::lent(b"ef").copy(alloc)?;
    owned(alloc, as_text(again.as_slice()))
}

const SPEC: LogSpec = LogSpec {
    owner: Owner::Exec(1),
    out: true,
    err: false,
    stamps: false,
    first: 2,
    stop: StopRule::RunEnd(3),
    least: 4,
    greatest: 5,
    feed: Some(6),
};

// A filter by one label.
fn filter_by(alloc: Global, label: &str) -> Result<Filter, Short> {
    let mut values = Words::new(alloc);
    values.push(alloc, Text::of(alloc, label)?)?;
    let mut filter = Filter::new(alloc);
    filter.push(
        alloc,
        FilterRow {
            key: FilterKey::Label,
            values,
        },
    )?;
    Ok(filter)
}

// Rows of a filter, as `KEY=VALUE,VALUE` with a blank before each.
fn rows(alloc: Global, filter: &Filter) -> Result<String, Short> {
    let mut told = String::new(alloc);
    for row in filter.as_slice() {
        let values = row.values.as_slice().join(alloc, ",")?;
        write!(told, " {}={values}", filter_word(row.key))?;
    }
    Ok(told)
}

// A reply that begins a stream.
fn reply_shown(alloc: Global, reply: &Reply) -> Result<String, Short> {
    match reply {
        Reply::LogStream { spec } => Ok(format!(in alloc; "{spec:?}")?),
        Reply::EventStream {
            first,
            until,
            filter,
        } => {
            let rows = rows(alloc, filter)?;
            Ok(format!(in alloc; "events from {first} to {until:?}, rows{rows}")?)
        }
        _ => owned(alloc, "another reply"),
    }
}

fn reply_copied(alloc: Global, reply: &Reply) -> Result<String, Short> {
    let copy = reply.copy(alloc)?;
    reply_shown(alloc, &copy)
}

// The copy of a reply that begins a log.
fn log_reply(alloc: Global) -> Result<String, Short> {
    reply_copied(alloc, &Reply::LogStream { spec: SPEC })
}

// The copy of one that begins events with that label.
fn event_reply(alloc: Global, label: &str) -> Result<String, Short> {
    let filter = filter_by(alloc, label)?;
    reply_copied(
        alloc,
        &Reply::EventStream {
            first: 8,
            until: Some(9),
            filter,
        },
    )
}

fn record(payload: Bytes) -> LogRecord {
    LogRecord {
        run: 1,
        stream: Stream::Stdout,
        payload,
        moment: 2,
    }
}

// A log that is written where room was made, closed and opened again.
fn open_log(alloc: Global, field: &str) -> Result<String, Short> {
    let mut log = OpenLog::new(alloc);
    log.reserve(alloc, 1)?;
    log.push_reserved(record(Bytes::of(alloc, field.as_bytes())?));
    let left = log.bytes_left(10);
    let closed = log.close();
    let size = closed.size();
    let records = OpenLog::open(closed).len();
    Ok(format!(in alloc; "{left} left, {size} bytes, {records} records")?)
}

// A log that is of an exec.
fn owned_log(alloc: Global, field: &str) -> Result<String, Short> {
    let mut log = Log::new(alloc);
    log.push(alloc, record(Bytes::of(alloc, field.as_bytes())?))?;
    let (records, size) = (log.len(), log.size());
    let mut logs = OwnedLogs::new(alloc);
    let owner = Owner::Exec(3);
    logs.push(alloc, OwnedLog { owner, log })?;
    Ok(format!(in alloc; "{records} records, {size} bytes, {} logs", logs.len())?)
}

fn numbers(alloc: Global) -> Result<String, Short> {
    let mut numbers = Numbers::new(alloc);
    numbers.push(alloc, 4)?;
    Ok(format!(in alloc; "{:?}", numbers.as_slice())?)
}

// How many ops a script has where its process traps signals.
fn script(alloc: Global) -> Result<String, Short> {
    let mut ops = Ops::new(alloc);
    ops.push(alloc, Op::Copy)?;
    let script = Script::of(alloc, ops, Manner::Trap)?;
    Ok(format!(in alloc; "{} ops", script.ops(true).len())?)
}

/// What a copy is, or what grew.
pub fn told(alloc: Global, kind: &str, rest: &str) -> Result<String, Short> {
    match kind {
        "bytes" => bytes(alloc, rest),
        "lent" => lent(alloc),
        "log reply" => log_reply(alloc),
        "event reply" => event_reply(alloc, rest),
        "open log" => open_log(alloc, rest),
        "owned log" => owned_log(alloc, rest),
        "numbers" => numbers(alloc),
        "script" => script(alloc),
        _ => owned(alloc, "no such kind"),
    }
}
