// Control's door.
ghost use Rattle.std.specs.Thread.{IsSend};
ghost use Rattle.lab_program.specs.Serving.{TookIn, ServesControl};
ghost use Rattle.lab_program.specs.declared.controls.Came.{Came};

use crate::ends::end;
use crate::why::Control;
use control_session::serve_control;
use engine_ports::{Arrival, Clock, Door, Parting, Sink, Source};
use lab_ports::{Linking, StopSignal};
use manual_clock::SharedTime;
use std::alloc::Global;
use std::sync::Wait;
use std::sync::atomic::{AtomicBool, Ordering};
use std::thread;
use std::thread::Threads;

/// What comes through a door.
#[derive(Drop)]
pub(crate) struct Came<F, I, T> {
    from: F,
    into: I,
    time: T,
}

/// Takes connections in until no more come, and has each answered in a thread of its own; where that is refused, in
/// this one. Whether the door failed, and the door.
fn take_in<R: Threads + Wait + Sync, E: Door + Drop, A: Fn(Came<E::From, E::Into, E::Time>) + Sync>(
    rt: &R,
    answer: &A,
    door: E,
) -> (bool, E)
    requires may { (came : Came E.From E.Into E.Time) → A.pre answer.now came }
    ensures { TookIn result.0 (E.opens door) (E.opens result.1) }
{
    thread::scope(
        thread::scope_env(),
        rt,
        |scope| -> (bool, E)
            requires send { IsSend E.From.row × IsSend E.Into.row × IsSend E.Time.row }
            requires may { (came : Came E.From E.Into E.Time) → A.pre answer.now came }
            ensures { TookIn result.0 (E.opens door) (E.opens result.1) }
        {
            let mut open = door;
            for _ in rt.forever() {
                match open.accept() {
                    Arrival::Conn(from, into, time) => {
                        let came = Came { from, into, time };
                        let served = scope.spawn(
                            move ||
                                requires { A.pre answer.now came }
                            { answer(came) },
                        );
                        if let Err(back) = served {
                            (back.value)();
                        }
                    }
                    Arrival::Shut => return (false, open),
                    Arrival::Failed => return (true, open),
                }
            }
            unreachable!()
        },
    )
}

/// Answers a connection of control, and parts it, and whether it asked for the program's end.
fn answer_one<R: Wait, J: Linking, F: Source, I: Sink, T: Clock, P: Parting<F, I, T>>(
    rt: &R,
    time: Option<&SharedTime>,
    links: &J,
    address: &str,
    alloc: Global,
    came: Came<F, I, T>,
) -> (bool, P) {
    let Came {
        mut from,
        mut into,
        time: mut clock,
    } = came;
    let stops = serve_control(
        rt, time, links, address, alloc, &mut from, &mut into, &mut clock,
    );
    (stops, P::part(from, into, clock))
}

/// Takes control's connections in, and answers them, until no more come. Where one asks for the program's end, all is
/// stopped. The door is handed back.
pub(crate) fn serve_controls<R: Threads + Wait + Sync, J: Linking, E: Door + Drop>(
    rt: &R,
    time: Option<&SharedTime>,
    links: &J,
    address: &str,
    alloc: Global,
    signal: &StopSignal,
    door: E,
) -> (Control, E)
    ensures { ServesControl result.0 (E.opens door) (E.opens result.1) }
{
    let asked = AtomicBool::new(false);
    let answer = |came: Came<E::From, E::Into, E::Time>|
        requires control { IsSend E.From.row × IsSend E.Into.row × IsSend E.Time.row × IsSend
            E.Past.row }
        requires links { IsSend J.Made.From.row × IsSend J.Made.Into.row }
    {
        let (stops, past): (bool, E::Past) = answer_one(rt, time, links, address, alloc, came);
        drop(past);
        if stops {
            asked.store(true, Ordering::SeqCst);
            end(rt, time, signal);
        }
    };
    let (failed, door) = take_in(rt, &answer, door);
    if asked.load(Ordering::SeqCst) {
        return (Control::Asked, door);
    }
    if failed {
        end(rt, time, signal);
        return (Control::Failed, door);
    }
    (Control::Shut, door)
}
