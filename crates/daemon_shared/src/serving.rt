// The connections of a door, each served in a thread of its own.
ghost use Rattle.std.specs.Prelude.{◌≡◌, ◌≤◌, []};
ghost use Rattle.std.specs.Thread.{IsSend};
ghost use Rattle.door_model.specs.Connections.{most_connections};
ghost use Rattle.daemon_shared.specs.Sessions.{told_by, IsRoot, CanServe, Served};
ghost use Rattle.daemon_shared.specs.Threads.{ServesAll};
ghost use Rattle.daemon_shared.specs.declared.admission.Begun.{Begun};
ghost use Rattle.daemon_shared.specs.declared.admission.Ended.{Ended};

use crate::accepting::Accepting;
use crate::admission::{Admitting, Begun, Ended, SessionPromise};
use crate::lending::OneDoor;
use crate::running::{Running, Stage};
use session_model::Worst;
use std::alloc::Global;
use std::snapshot::Snapshot;
use std::sync::Wait;
use std::thread;
use std::thread::Threads;

/// Takes connections in until no more are to come or `most` came, serves each in a thread of its
/// own, and leaves each to the door. Whenever one comes, the threads of those that have ended are
/// joined before its own is asked for. Where that is refused, the session runs in this one.
pub fn serve_all<
    R: Threads + Wait + Sync,
    H: Admitting,
    G: OneDoor,
    S: Fn(Begun<H::Pass, G::From, G::Into, G::Time>) -> Ended<H::Pass, G::Past> + Sync,
>(
    rt: &R,
    alloc: Global,
    passes: &H,
    serve: &S,
    root: H::Pass,
    lent: G,
    steps: Option<(u64, u64)>,
    most: u32,
) -> (Worst, H::Pass, G)
    requires root { IsRoot (H.table passes.now) (H.Pass.seat root).me.0.charter 0 (H.Pass.seat root) }
    requires seen { (H.Pass.seat root).me.0.seen ≡ [] }
    requires most { most ≤ most_connections }
    requires may { (b : Begun H.Pass G.From G.Into G.Time) → CanServe H.Pass.seat
        (H.table passes.now) b → S.pre serve.now b }
    requires serves { (b : Begun H.Pass G.From G.Into G.Time) (r : Ended H.Pass G.Past) → S.post
        serve.now b r → Served H.Pass.seat (told_by G.From.gives G.Into.takes G.Time.times)
        G.Past.tells steps b r }
    ensures serves { ServesAll H.Pass.seat (told_by G.From.gives G.Into.takes G.Time.times)
        G.Past.tells steps (H.table passes.now) (H.Pass.seat root).me.0.charter most
        (H.Pass.seat result.1) result.0 (G.opens lent) (G.opens result.2) }
    ensures same { G.which result.2 ≡ G.which lent }
{
    thread::scope(
        thread::scope_env(),
        rt,
        |scope| -> (Worst, H::Pass, G)
            requires send { IsSend H.Pass.row × IsSend G.From.row × IsSend G.Into.row × IsSend
                G.Time.row }
            requires root { IsRoot (H.table passes.now) (H.Pass.seat root).me.0.charter 0
                (H.Pass.seat root) }
            requires seen { (H.Pass.seat root).me.0.seen ≡ [] }
            requires most { most ≤ most_connections }
            requires may { (b : Begun H.Pass G.From G.Into G.Time) → CanServe H.Pass.seat
                (H.table passes.now) b → S.pre serve.now b }
            requires serves { (b : Begun H.Pass G.From G.Into G.Time) (r : Ended H.Pass G.Past)
                → S.post serve.now b r → Served H.Pass.seat (told_by G.From.gives G.Into.takes
                G.Time.times) G.Past.tells steps b r }
            ensures serves { ServesAll H.Pass.seat (told_by G.From.gives G.Into.takes G.Time.times)
                G.Past.tells steps (H.table passes.entry.now) (H.Pass.seat root).me.0.charter most
                (H.Pass.seat result.1) result.0 (G.opens lent) (G.opens result.2) }
            ensures same { G.which result.2 ≡ G.which lent }
        {
            let mut all: Accepting<H, G> = Accepting::new(alloc, root, lent);
            let mut why = Worst::Closed;
            for number in 0..most {
                let begun = match all.next(rt, passes, alloc, steps, number) {
                    Ok(begun) => begun,
                    Err(refused) => {
                        why = refused;
                        break;
                    }
                };
                let began = Snapshot::of(&begun);
                let kept = Snapshot::of(&begun);
                let stage = match scope.spawn_with(
                    SessionPromise { began: kept, steps },
                    move || -> Ended<H::Pass, G::Past>
                        requires { S.pre serve.now begun }
                        ensures { S.post serve.entry.now begun result }
                    { serve(begun) },
                ) {
                    Ok(child) => Stage::Runs(child),
                    Err(back) => Stage::Over((back.value)()),
                };
                all.sessions.push(Running { began, stage });
            }
            all.close(rt, passes, steps, why)
        },
    )
}
