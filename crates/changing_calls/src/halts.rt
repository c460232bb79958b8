// The end of a run that a stop or a restart asks for: a ticket, the signal and the deadline.
ghost use Rattle.std.specs.Prelude.{◌≡◌, ◌<◌, ◌^◌, Some, IfOk, IfSome, unwrap_or};
ghost use Rattle.machine_model.specs.Consistency.{IsConsistent};
ghost use Rattle.machine_model.specs.Effects.Halt as spec;
ghost use Rattle.machine_model.specs.State.{container_numbered};
ghost use Rattle.machine_model.specs.Tickets.{begins};
ghost use Rattle.machine_events.specs.Halts.{asked_of, halted, life_change_of, noted_by};
ghost use Rattle.container_table.specs.Logs.{container_in};
ghost use Rattle.machine_tables.specs.Settled.{deaths};
ghost use Rattle.call_plans.specs.Calls.Stop.{halt_effect};
ghost use Rattle.call_plans.specs.Making.{Makes};
ghost use Rattle.call_plans.specs.Needs.{CanEndFor};

use call_plans::{Plan, Prepared, end_memory};
use container_table::Held;
use engine_text::{NoMemory, Reply, Signal};
use machine_effects::{Tables, death_with};
use machine_events::{EndMemory, Halting};
use machine_tables::Death;
use std::alloc::Global;

/// A ticket is given, and the run is to end.
#[tactic(auto, using(crate::proofs::StopLemmas::halt_state, crate::proofs::StopLemmas::halt_ended))]
pub fn perform(
    tables: &mut Tables,
    conn: u32,
    number: u64,
    halting: Halting,
    sent: Signal,
    seconds: i32,
    brought: EndMemory,
) -> Option<Death>
    requires { CanEndFor conn number (asked_of halting) (noted_by halting) (Some sent.number)
        (halted halting seconds sent.number number) brought tables.old }
    ensures state { tables.new.state
        ≡ (halt_effect conn number halting seconds sent.number tables.old.state).state }
    ensures died { deaths result
        ≡ (halt_effect conn number halting seconds sent.number tables.old.state).died }
    ensures room { tables.new.room ≡ tables.old.room }
{
    tables.begin_ticket(conn, number, halting.asked());
    death_with(number, tables.halt(halting, seconds, sent, number, brought))
}

// The signal that was asked for, else the stop signal.
fn signal_used(signal: Option<Signal>, h: &Held) -> Signal
    ensures { result.number ≡ (unwrap_or signal (container_in h.now).life.stop_signal).number }
{
    match signal {
        None => h.container.life.stop_signal,
        Some(signal) => signal,
    }
}

// The seconds that were asked for, else the container's.
fn seconds_used(seconds: Option<i32>, h: &Held) -> i32
    ensures { result ≡ unwrap_or seconds (container_in h.now).life.stop_after }
{
    match seconds {
        None => h.container.life.stop_after,
        Some(seconds) => seconds,
    }
}

/// Makes the end of a run ready, of a container that runs or is paused.
pub fn prepare(
    tables: &Tables,
    alloc: Global,
    conn: u32,
    moment: u64,
    h: &Held,
    halting: Halting,
    wait: Option<i32>,
    signal: Option<Signal>,
) -> Result<Prepared, NoMemory>
    requires signal { IfSome signal (λ s. s.number < 32) }
    requires stands { container_numbered h.now.container.number tables.now.state
        ≡ Some (container_in h.now) }
    requires starts { h.now.container.life.starts < 2 ^ 63 }
    requires kept { IsConsistent tables.now.state }
    ensures { IfOk result (λ p. Makes p moment tables.now.state
        (begins conn (container_in h.now) (asked_of halting)
        (spec.halt (life_change_of halting) wait signal (container_in h.now)))) }
{
    let number = h.container.number;
    let sent = signal_used(signal, h);
    let seconds = seconds_used(wait, h);
    let goal = halting.goal();
    let code = tables.signal_code(number, sent, true);
    let brought = end_memory(tables, alloc, code, goal, number, h)?;
    let mut events = Vec::new(alloc);
    tables.tell_kill(
        alloc,
        sent.number,
        code,
        goal,
        h,
        &brought.script,
        moment,
        &mut events,
    )?;
    let ticket = tables.next_ticket();
    Ok(Prepared {
        moment,
        reply: Reply::Begun { ticket },
        events,
        plan: Plan::Halt {
            conn,
            number,
            halting,
            sent,
            seconds,
            brought,
        },
    })
}
