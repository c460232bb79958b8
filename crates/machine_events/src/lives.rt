// What a step makes of a container's life.
ghost use Rattle.std.specs.Prelude.{◌≡◌, ◌+◌};
ghost use Rattle.machine_model.specs.Effects.EndMain.{decision_at};
ghost use Rattle.machine_model.specs.Effects.Meet.{logged};
ghost use Rattle.machine_events.specs.Fit.{AreFew, IsSoon};
ghost use Rattle.container_table.specs.Logs.{container_in};
ghost use Rattle.machine_events.specs.ChangedLives.{launched_at, changed_life, with_life};
ghost use Rattle.machine_events.specs.Rooms.{FitsLog};

use container_table::{Held, LifeChange, Table};
use engine_text::{Bytes, Life, LogRecord, Stream};
use restart_policy::{Decision, decide};

/// That is changed in the container's life.
pub fn renew(table: &mut Table, number: u64, noted: LifeChange)
    ensures containers { table.new.containers
        ≡ with_life number (changed_life noted) table.old.containers }
    ensures logs { table.new.logs ≡ table.old.logs }
    ensures timers { table.new.timers ≡ table.old.timers }
    ensures places { table.new.places ≡ table.old.places }
    ensures timer_places { table.new.timer_places ≡ table.old.timer_places }
{
    if let Some(place) = table.place_of(number) {
        table.change(place, noted);
    }
}

/// The container's life begins anew, at the moment and with that process id.
pub fn launch(table: &mut Table, number: u64, moment: u64, pid: u64)
    requires { AreFew table.old.containers }
    ensures containers { table.new.containers
        ≡ with_life number (launched_at pid moment) table.old.containers }
    ensures logs { table.new.logs ≡ table.old.logs }
    ensures timers { table.new.timers ≡ table.old.timers }
    ensures places { table.new.places ≡ table.old.places }
    ensures timer_places { table.new.timer_places ≡ table.old.timer_places }
{
    if let Some(place) = table.place_of(number) {
        table.launch(place, pid, moment);
    }
}

/// The container's log has one more record, of its current run.
pub fn record(table: &mut Table, number: u64, stream: Stream, payload: Bytes, moment: u64)
    requires { FitsLog number table.old.containers table.old.logs }
    ensures containers { table.new.containers
        ≡ with_life number (logged stream payload moment) table.old.containers }
    ensures timers { table.new.timers ≡ table.old.timers }
    ensures places { table.new.places ≡ table.old.places }
    ensures timer_places { table.new.timer_places ≡ table.old.timer_places }
{
    let Some(h) = table.find_number(number) else {
        return;
    };
    let item = LogRecord {
        run: h.container.life.starts,
        stream,
        payload,
        moment,
    };
    table.push_record(number, item);
}

/// What becomes of a container whose main process ended with that code at the moment, stopped by hand
/// or not.
pub fn decision_of(life: &Life, code: u8, manual: bool, moment: u64) -> Decision
    ensures what { result
        ≡ decision_at moment (record life.now { code = code; manual = manual }) }
    ensures soon { IsSoon result }
{
    let ran = match life.started {
        None => 0,
        Some(launch) => moment.saturating_sub(launch),
    };
    decide(&life.policy, code, ran, life.restarts, life.delay, manual)
}

/// What becomes of the container, whose main process ended at the moment.
pub fn decision(h: &Held, moment: u64) -> Decision
    ensures what { result ≡ decision_at moment (container_in h.now).life }
    ensures soon { IsSoon result }
{
    let life = &h.container.life;
    decision_of(life, life.code, life.manual, moment)
}
