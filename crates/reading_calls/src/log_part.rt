// What a log's stream gives from a place on.
ghost use Rattle.std.specs.Prelude.{◌≡◌, false, length, option_copied, take, unwrap_or, None};
ghost use Rattle.machine_model.specs.LogStream.{fixed_end, kept_log, standing_log};
ghost use Rattle.reading_calls.specs.LogParts.{IsLogPart, IsPartIn, ends_by};

use crate::log_end::{kept_end, standing_end};
use engine_text::{LogRecord, LogSpec, Owner, StopRule};
use machine_effects::Tables;

/// What a log's stream gives from a place on.
pub enum LogPart<'m> {
    /// The records from the place to where the stream goes, asked for or not; at least one.
    More(&'m [LogRecord]),
    /// No record stands there yet.
    UpToDate,
    /// The stream has come to its end.
    Whole,
    /// The log is no longer kept: the number of the removal that took its owner away, and of the
    /// first one whose logs are kept.
    Gone { next: u64, first: u64 },
}

// The log of an owner that stands.
fn standing_log(tables: &Tables, owner: Owner) -> Option<&[LogRecord]>
    ensures { option_copied result ≡ standing_log owner tables.now.state }
{
    match owner {
        Owner::Container(number) => match tables.numbered(number) {
            Some(h) => Some(h.log.as_slice()),
            None => None,
        },
        Owner::Exec(number) => tables.output_of(number),
    }
}

// Whether a known end lies at or before the place.
fn ends_by(end: Option<u64>, place: u64) -> bool
    ensures { result ≡ ends_by end place }
{
    match end {
        None => false,
        Some(end) => end <= place,
    }
}

// The records before the end, or all.
fn up_to(log: &[LogRecord], end: Option<u64>) -> &[LogRecord]
    ensures { result.now ≡ take (unwrap_or end (length log.now)) log.now }
{
    let Some(end) = end else {
        return log;
    };
    if log.len() as u64 <= end {
        return log;
    }
    log.split_at(end as usize).0
}

// The part of a log whose stream has that end.
fn part_in<'m>(log: &'m [LogRecord], end: Option<u64>, place: u64) -> LogPart<'m>
    ensures { IsPartIn log.now end place result }
{
    if ends_by(end, place) {
        return LogPart::Whole;
    }
    if log.len() as u64 <= place {
        return LogPart::UpToDate;
    }
    LogPart::More(up_to(log, end).split_at(place as usize).1)
}

// Where a stream ends whose log is gone: at its fixed place, if it has one.
fn fixed_end(stop: StopRule) -> Option<u64>
    ensures { result ≡ fixed_end stop }
{
    match stop {
        StopRule::At(place) => Some(place),
        StopRule::RunEnd(_) => None,
        StopRule::NotRunning => None,
    }
}

// The part of an owner that doesn't stand, and whose log isn't kept: its removal, if it lies too far
// behind.
fn lost_part<'m>(tables: &'m Tables, spec: &LogSpec, place: u64) -> LogPart<'m>
    requires gone { standing_log spec.now.owner tables.now.state ≡ None }
    requires lost { kept_log spec.now.owner tables.now.state ≡ None }
    ensures { IsLogPart tables.now.state spec.now place result }
{
    if ends_by(fixed_end(spec.stop), place) {
        return LogPart::Whole;
    }
    let first = tables.first_kept_removal() as u64;
    let Some(removal) = tables.removal_of(spec.owner) else {
        return LogPart::UpToDate;
    };
    let next = removal as u64;
    if next < first {
        return LogPart::Gone { next, first };
    }
    LogPart::UpToDate
}

/// The part of the stream.
pub fn part_of<'m>(tables: &'m Tables, spec: &LogSpec, place: u64) -> LogPart<'m>
    ensures { IsLogPart tables.now.state spec.now place result }
{
    if let Some(log) = standing_log(tables, spec.owner) {
        return part_in(log, standing_end(tables, spec, log), place);
    }
    if let Some(log) = tables.kept_log(spec.owner) {
        return part_in(log, Some(kept_end(spec.stop, log)), place);
    }
    lost_part(tables, spec, place)
}
