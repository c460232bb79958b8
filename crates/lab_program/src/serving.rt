// Both doors, served until the program ends.
ghost use Rattle.std.specs.Prelude.{◌≡◌, ◌≤◌, ◌⊎◌};
ghost use Rattle.std.specs.Thread.{IsSend};
ghost use Rattle.machine_model.specs.History.{greatest_moment};
ghost use Rattle.session_model.specs.declared.ending.Worst as Worst;
ghost use Rattle.lab_program.specs.declared.why.Control.{Control};
ghost use Rattle.front_session.specs.Sharing.{untold};
ghost use Rattle.lab_program.specs.Serving.{RunsOver, ServesControl, ServesLab};

use crate::controls::serve_controls;
use crate::ends::end;
use crate::input::await_end;
use crate::tools::serve_tools;
use crate::why::{Control, Why, why_by};
use engine_ports::{Door, Source};
use lab_line::Lab;
use lab_ports::{Linking, Listening, StopSignal};
use manual_clock::SharedTime;
use session_model::Worst;
use std::alloc::Global;
use std::snapshot::Snapshot;
use std::sync::Wait;
use std::thread::{Promise, Threads};
use std::{thread, time};

/// What control's thread leaves, of the door that it took.
#[derive(Drop)]
struct ControlPromise<E> {
    door: Snapshot<E>,
}

impl<E: Door> Promise<(Control, E)> for ControlPromise<E> {
    ghost kept_by = { λ p r. ServesControl r.0 (E.opens p.door.value) (E.opens r.1) };
}

/// Serves tools in this thread, control in a second one, and reads standard input in a third; where one of these is
/// refused, nobody is taken in behind the daemon's door.
fn serve_both<
    R: Threads + Wait + Sync,
    D: Drop,
    E: Door + Send + Drop,
    S: Send + Drop,
    A: Fn(E) -> (Control, E) + Sync,
    W: Fn(S) + Sync,
    B: Fn(D) -> (Worst, D),
>(
    rt: &R,
    signal: &StopSignal,
    asking: &A,
    watching: &W,
    serving: &B,
    control: E,
    input: S,
    tools: D,
) -> (Worst, Control, D, E)
    requires asks { (control : E) → A.pre asking.now control }
    requires answers { (control : E) (r : Control × E) → A.post asking.now control r → ServesControl
        r.0 (E.opens control) (E.opens r.1) }
    requires watches { (input : S) → W.pre watching.now input }
    requires serves { (tools : D) → B.pre serving.now tools }
    ensures tools { B.post serving.now tools (result.0, result.2)
        ⊎ ((result.0 ≡ Worst.Closed) × (result.2 ≡ tools)) }
    ensures control { ServesControl result.1 (E.opens control) (E.opens result.3) }
{
    thread::scope(
        thread::scope_env(),
        rt,
        |scope| -> (Worst, Control, D, E)
            requires send { IsSend E.row × IsSend S.row }
            requires asks { (control : E) → A.pre asking.now control }
            requires answers { (control : E) (r : Control × E) → A.post asking.now control r
                → ServesControl r.0 (E.opens control) (E.opens r.1) }
            requires watches { (input : S) → W.pre watching.now input }
            requires serves { (tools : D) → B.pre serving.now tools }
            ensures tools { B.post serving.entry.now tools (result.0, result.2)
                ⊎ ((result.0 ≡ Worst.Closed) × (result.2 ≡ tools)) }
            ensures control { ServesControl result.1 (E.opens control) (E.opens result.3) }
        {
            let watched = scope.spawn(
                move ||
                    requires { W.pre watching.now input }
                { watching(input) },
            );
            if watched.is_err() {
                return (Worst::Closed, Control::NoMemory, tools, control);
            }
            let door = Snapshot::of(&control);
            let asked = scope.spawn_with(
                ControlPromise { door },
                move || -> (Control, E)
                    requires { A.pre asking.now control }
                    ensures { A.post asking.entry.now control result }
                { asking(control) },
            );
            match asked {
                Ok(child) => {
                    let (worst, tools) = serving(tools);
                    let (came, control) = child.join(rt);
                    (worst, came, tools, control)
                }
                Err(back) => {
                    signal.give();
                    let (_, control) = (back.value)();
                    (Worst::Closed, Control::NoMemory, tools, control)
                }
            }
        },
    )
}

/// Serves both doors until control is asked for the end, or standard input ends, or a door fails. The doors are
/// handed back.
pub(crate) fn serve_lab<
    R: Threads + Wait + time::Clock + Sync,
    J: Linking,
    D: Listening + Drop,
    E: Door + Send + Drop,
    S: Source + Drop,
>(
    rt: &R,
    alloc: Global,
    lab: Lab,
    moment: u64,
    shared: Option<&SharedTime>,
    links: &J,
    address: &str,
    signal: &StopSignal,
    tools: D,
    control: E,
    input: S,
) -> (Why, D, E)
    requires { moment ≤ greatest_moment }
    ensures { ServesLab lab moment result.0 (D.opens tools) (D.opens result.1) (E.opens control)
        (E.opens result.2) }
{
    let asking = |door: E| -> (Control, E)
        requires control { IsSend E.From.row × IsSend E.Into.row × IsSend E.Time.row × IsSend
            E.Past.row }
        requires links { IsSend J.Made.From.row × IsSend J.Made.Into.row }
        ensures { ServesControl result.0 (E.opens door) (E.opens result.1) }
    { serve_controls(rt, shared, links, address, alloc, signal, door) };
    let watching = |source: S| { await_end(rt, shared, signal, source) };
    let serving = |door: D| -> (Worst, D)
        requires tools { IsSend D.From.row × IsSend D.Into.row × IsSend D.Time.row × IsSend
            D.Past.row }
        requires moment { moment ≤ greatest_moment }
        ensures { RunsOver lab moment result.0 (untold (D.opens door)) (untold (D.opens result.1)) }
    {
        let served = serve_tools(rt, alloc, lab, moment, shared, door);
        end(rt, shared, signal);
        served
    };
    let before = tools.faults();
    let (worst, came, tools, control) = serve_both(
        rt, signal, &asking, &watching, &serving, control, input, tools,
    );
    let failed = before < tools.faults();
    (why_by(worst, failed, came), tools, control)
}
