// Where a log's stream ends.
ghost use Rattle.std.specs.Prelude.{◌≡◌};
ghost use Rattle.machine_model.specs.LogStream as logs;
ghost use Rattle.machine_model.specs.Streams.{run_state};
ghost use Rattle.reading_calls.specs.LogParts.{is_over};

use call_plans::{Run, run_of};
use engine_text::{LogRecord, LogSpec, Owner, StopRule};
use machine_effects::Tables;

// Whether no process of the owner lives and no restart is pending.
fn at_rest(tables: &Tables, owner: Owner) -> bool
    ensures { result ≡ logs.at_rest owner tables.now.state }
{
    match owner {
        Owner::Container(number) => match tables.numbered(number) {
            Some(h) => tables.is_at_rest(h),
            None => true,
        },
        Owner::Exec(number) => !tables.stands(Owner::Exec(number)),
    }
}

// Whether the run has ended.
fn is_over(tables: &Tables, owner: Owner, run: u64) -> bool
    ensures { result ≡ is_over (run_state owner run tables.now.state) }
{
    match run_of(tables, owner, run) {
        Run::Coming => false,
        Run::Live => false,
        Run::Over => true,
    }
}

// How many records are of runs up to that one.
fn length_at_end(log: &[LogRecord], run: u64) -> u64
    ensures { result ≡ logs.length_at_end run log.now }
{
    log.iter().filter(|r| r.run <= run).count() as u64
}

/// Where the stream of an owner that stands ends, once that is known.
pub fn standing_end(tables: &Tables, spec: &LogSpec, log: &[LogRecord]) -> Option<u64>
    ensures { result ≡ logs.standing_end spec.now.stop spec.now.owner log.now tables.now.state }
{
    match spec.stop {
        StopRule::At(place) => Some(place),
        StopRule::RunEnd(run) => {
            if is_over(tables, spec.owner, run) {
                Some(length_at_end(log, run))
            } else {
                None
            }
        }
        StopRule::NotRunning => {
            if at_rest(tables, spec.owner) {
                Some(log.len() as u64)
            } else {
                None
            }
        }
    }
}

/// Where the stream of a removed owner ends, whose log is kept.
pub fn kept_end(stop: StopRule, log: &[LogRecord]) -> u64
    ensures { result ≡ logs.kept_end stop log.now }
{
    match stop {
        StopRule::At(place) => place,
        StopRule::RunEnd(run) => length_at_end(log, run),
        StopRule::NotRunning => log.len() as u64,
    }
}
