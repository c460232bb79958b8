// A connection that is being served.
ghost use Rattle.std.specs.Prelude.{◌≡◌, ◌<◌, ℕ, IfOk, IfErr};
ghost use Rattle.session_model.specs.Pass.{IsConnection};
ghost use Rattle.daemon_shared.specs.Sessions.{told_by, IsRoot, IsReady, Declines, Admits, Served};
ghost use Rattle.daemon_shared.specs.Threads.{begun_of, Keeps, ClosesOne};

use crate::admission::{Admitting, Begun, Ended, Seated, SessionPromise};
use crate::lending::OneDoor;
use engine_ports::{Arrival, Clock, Parting, Sink, Source};
use session_model::{Ending, Worst};
use std::alloc::Global;
use std::mem;
use std::snapshot::Snapshot;
use std::thread::{PromisedHandle, Threads};

/// How far a session is.
#[derive(Drop)]
pub enum Stage<Q: Seated, F: Source, I: Sink, T: Clock, P: Parting<F, I, T>> {
    /// It has a thread of its own.
    Runs(PromisedHandle<Ended<Q, P>, SessionPromise<Q, F, I, T>>),
    /// Its thread is being joined.
    Joins,
    /// It has ended.
    Over(Ended<Q, P>),
}

/// A session, by what it took.
#[derive(Drop)]
pub struct Running<Q: Seated, F: Source, I: Sink, T: Clock, P: Parting<F, I, T>> {
    pub began: Snapshot<Begun<Q, F, I, T>>,
    pub stage: Stage<Q, F, I, T, P>,
}

/// Takes the next connection in, with a pass of its own; or tells why there is none.
pub fn take<H: Admitting, G: OneDoor>(
    passes: &H,
    alloc: Global,
    root: &mut H::Pass,
    lent: &mut G,
    number: u32,
) -> Result<Begun<H::Pass, G::From, G::Into, G::Time>, Worst>
    requires root { IsRoot (H.table passes.now) (H.Pass.seat root.old).me.0.charter number
        (H.Pass.seat root.old) }
    requires number { IsConnection number }
    ensures ok { IfOk result (Admits H.Pass.seat (told_by G.From.gives G.Into.takes G.Time.times)
        (H.table passes.now) (H.Pass.seat root.old).me.0.charter number (H.Pass.seat root.old)
        (H.Pass.seat root.new) (G.opens lent.old) (G.opens lent.new)) }
    ensures err { IfErr result
        (λ why. Declines why (G.opens lent.old) (G.opens lent.new) × (root.new ≡ root.old)) }
    ensures same { G.which lent.new ≡ G.which lent.old }
{
    match lent.accept() {
        Arrival::Conn(from, into, time) => {
            let pass = passes.admit(alloc, root, number);
            Ok(Begun {
                number,
                pass,
                from,
                into,
                time,
            })
        }
        Arrival::Shut => Err(Worst::Closed),
        Arrival::Failed => Err(Worst::Fault),
    }
}

/// Waits for the end of a session that took this.
fn wait_for<R: Threads, Q: Seated, F: Source, I: Sink, T: Clock, P: Parting<F, I, T>>(
    rt: &R,
    steps: Option<(u64, u64)>,
    began: &Snapshot<Begun<Q, F, I, T>>,
    stage: Stage<Q, F, I, T, P>,
) -> Ended<Q, P>
    requires { Keeps Q.seat (told_by F.gives I.takes T.times) P.tells steps began.now.value stage }
    ensures { Served Q.seat (told_by F.gives I.takes T.times) P.tells steps began.now.value
        result }
{
    let _ = steps;
    let _ = began;
    match stage {
        Stage::Runs(child) => child.join(rt),
        Stage::Joins => unreachable!(),
        Stage::Over(ended) => ended,
    }
}

/// Waits for the end of a session, and keeps what it left in its place.
pub fn join_one<R: Threads, Q: Seated + Drop, F: Source, I: Sink, T: Clock, P: Parting<F, I, T>>(
    rt: &R,
    steps: Option<(u64, u64)>,
    one: &mut Running<Q, F, I, T, P>,
)
    requires keeps { Keeps Q.seat (told_by F.gives I.takes T.times) P.tells steps (begun_of one.old)
        one.old.stage }
    ensures began { one.new.began ≡ one.old.began }
    ensures keeps { Keeps Q.seat (told_by F.gives I.takes T.times) P.tells steps (begun_of one.old)
        one.new.stage }
{
    let stage = mem::replace(&mut one.stage, Stage::Joins);
    let ended = wait_for(rt, steps, &one.began, stage);
    drop(mem::replace(&mut one.stage, Stage::Over(ended)));
}

/// Waits for the end of a session, takes its pass in, and leaves the connection to the door.
pub fn close_one<R: Threads, H: Admitting, G: OneDoor>(
    rt: &R,
    passes: &H,
    root: &mut H::Pass,
    lent: &mut G,
    steps: Option<(u64, u64)>,
    one: Running<H::Pass, G::From, G::Into, G::Time, G::Past>,
) -> Ending
    requires root { IsRoot (H.table passes.now) (H.Pass.seat root.old).me.0.charter
        (H.Pass.seat root.old).me.0.next (H.Pass.seat root.old) }
    requires ready { (n : ℕ) × IsConnection n × IsReady H.Pass.seat
        (told_by G.From.gives G.Into.takes G.Time.times) (H.table passes.now)
        (H.Pass.seat root.old).me.0.charter n (begun_of one) }
    requires keeps { Keeps H.Pass.seat (told_by G.From.gives G.Into.takes G.Time.times)
        G.Past.tells steps (begun_of one) one.stage }
    requires owed { 0 < (G.opens lent.old).owed }
    ensures closes { ClosesOne H.Pass.seat (told_by G.From.gives G.Into.takes G.Time.times)
        G.Past.tells steps (H.table passes.now) (begun_of one) result (H.Pass.seat root.old)
        (H.Pass.seat root.new) (G.opens lent.old) (G.opens lent.new) }
    ensures same { G.which lent.new ≡ G.which lent.old }
{
    let Running { began, stage } = one;
    let Ended {
        number,
        pass,
        past,
        ending,
    } = wait_for(rt, steps, &began, stage);
    passes.join(root, pass);
    lent.leave(number, past);
    ending
}
