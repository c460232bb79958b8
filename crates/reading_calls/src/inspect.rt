// Inspect: what a container is, in every state.
ghost use Rattle.std.specs.Prelude.{◌≡◌, IfOk, Some};
ghost use Rattle.machine_model.specs.Consistency.{IsConsistent};
ghost use Rattle.machine_model.specs.Outcome.{answers};
ghost use Rattle.machine_model.specs.State.{container_numbered};
ghost use Rattle.machine_model.specs.Views.{container_body};
ghost use Rattle.container_table.specs.Logs.{container_in};
ghost use Rattle.call_plans.specs.Making.{Makes};

use api_json::{ContainerView, container_body};
use call_plans::{Prepared, answer};
use container_table::Held;
use engine_text::NoMemory;
use machine_effects::Tables;
use std::alloc::Global;

/// Makes an inspect ready.
pub fn prepare(tables: &Tables, alloc: Global, moment: u64, h: &Held) -> Result<Prepared, NoMemory>
    requires stands { container_numbered h.now.container.number tables.now.state
        ≡ Some (container_in h.now) }
    requires kept { IsConsistent tables.now.state }
    ensures { IfOk result (λ p. Makes p moment tables.now.state
        (answers 200 (container_body (container_in h.now)))) }
{
    let life = &h.container.life;
    let view = ContainerView {
        id: h.container.id.as_str(),
        name: h.container.name.as_str(),
        words: &life.words,
        labels: &life.labels,
        policy: &life.policy,
        stop_signal: life.stop_signal,
        stop_after: life.stop_after,
        open_stdin: life.open_stdin,
        stdin_once: life.stdin_once,
        mounts: &life.mounts,
        created: life.created,
        started: life.started,
        finished: life.finished,
        restarts: life.restarts,
        status: life.status,
        pid: life.pid,
        code: life.code,
        auto_remove: life.auto_remove,
        health: life.health.as_ref(),
    };
    let body = container_body(alloc, &view)?;
    Ok(answer(alloc, moment, 200, body))
}
