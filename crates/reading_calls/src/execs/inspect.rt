// Exec inspect: what an exec is.
ghost use Rattle.std.specs.Prelude.{IfOk, Some};
ghost use Rattle.machine_model.specs.Calls.ExecStart as spec;
ghost use Rattle.machine_model.specs.Outcome.{answers};
ghost use Rattle.machine_model.specs.Views.{exec_body};
ghost use Rattle.container_table.specs.Logs.{container_in};
ghost use Rattle.call_plans.specs.Making.{IsAnswer, Makes};

use api_json::{ExecView, exec_body};
use call_plans::exec_answers::refuse_missing;
use call_plans::{Prepared, answer};
use container_table::Held;
use engine_text::{Exec, NoMemory, Owner};
use machine_effects::Tables;
use std::alloc::Global;

// What an exec of the container is.
fn show(
    tables: &Tables,
    alloc: Global,
    moment: u64,
    h: &Held,
    exec: &Exec,
) -> Result<Prepared, NoMemory>
    ensures { IfOk result (λ p. IsAnswer moment 200
        (exec_body tables.now.state (container_in h.now) exec.now) p) }
{
    let view = ExecView {
        id: exec.id.as_str(),
        container: h.container.id.as_str(),
        words: &exec.words,
        stdin: exec.stdin,
        out: exec.out,
        err: exec.err,
        live: tables.stands(Owner::Exec(exec.number)),
        pid: exec.pid,
        code: exec.code,
    };
    let body = exec_body(alloc, &view)?;
    Ok(answer(alloc, moment, 200, body))
}

// Of an exec that stands.
fn prepare_standing(
    tables: &Tables,
    alloc: Global,
    moment: u64,
    id: &str,
    exec: &Exec,
) -> Result<Prepared, NoMemory>
    ensures { IfOk result (λ p. Makes p moment tables.now.state
        (λ s. spec.with_exec (Some exec.now) id.now (λ x c z. answers 200 (exec_body z c x) z) s)) }
{
    match tables.numbered(exec.container) {
        Some(h) => show(tables, alloc, moment, h, exec),
        None => refuse_missing(alloc, moment, id),
    }
}

/// Makes an inspect of an exec ready.
pub fn prepare(tables: &Tables, alloc: Global, moment: u64, id: &str) -> Result<Prepared, NoMemory>
    ensures { IfOk result
        (λ p. Makes p moment tables.now.state (spec.exec_inspect_outcome id.now)) }
{
    match tables.exec_with_id(id) {
        Some(exec) => prepare_standing(tables, alloc, moment, id, exec),
        None => refuse_missing(alloc, moment, id),
    }
}
