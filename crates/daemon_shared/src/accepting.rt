// The thread that takes connections in: what it holds, and how the next one comes.
ghost use Rattle.std.specs.Prelude.{◌≡◌, ◌≤◌, ◌<◌, [], IfOk, IfErr, OnOk};
ghost use Rattle.std.specs.VecDeque.{deque_len, deque_capacity};
ghost use Rattle.session_model.specs.declared.ending.Worst.TheVariants as worst;
ghost use Rattle.daemon_shared.specs.Sessions.{told_by};
ghost use Rattle.daemon_shared.specs.Threads.{AwaitsNext, IsServing, LeavesSome, TakesNext, TakesNone, EndsAll};

use crate::admission::{Admitting, Begun};
use crate::closing::{close_all, leave_joined};
use crate::lending::OneDoor;
use crate::running::take;
use crate::session_list::Sessions;
use door_model::worse_of;
use session_model::Worst;
use std::alloc::Global;
use std::thread::Threads;

/// What that thread holds: the root pass, the door, the sessions that aren't left to the door, and
/// a list for the numbers of those that told their end.
#[derive(Drop)]
pub struct Accepting<H: Admitting, G: OneDoor> {
    pub root: H::Pass,
    pub door: G,
    pub sessions: Sessions<H::Pass, G::From, G::Into, G::Time, G::Past>,
    finished: Vec<u32>,
}

impl<H: Admitting, G: OneDoor> Accepting<H, G> {
    /// Nobody came yet.
    pub fn new(alloc: Global, root: H::Pass, door: G) -> Accepting<H, G>
        ensures root { result.root ≡ root }
        ensures door { result.door ≡ door }
        ensures sessions { (result.sessions.running.items ≡ [])
            × (result.sessions.ends ≡ worst.Closed) }
    {
        Accepting {
            root,
            door,
            sessions: Sessions::new(alloc),
            finished: Vec::new(alloc),
        }
    }

    /// Takes the next connection in, with a pass of its own, and makes room for its session; then
    /// joins the sessions that told their end, and leaves those to the door before which none goes
    /// on. Or tells why none comes.
    pub fn next<R: Threads>(
        &mut self,
        rt: &R,
        passes: &H,
        alloc: Global,
        steps: Option<(u64, u64)>,
        number: u32,
    ) -> Result<Begun<H::Pass, G::From, G::Into, G::Time>, Worst>
        requires awaits { AwaitsNext H.Pass.seat (told_by G.From.gives G.Into.takes G.Time.times)
            G.Past.tells steps (H.table passes.now) number (H.Pass.seat self.old.root)
            self.old.sessions.running.items self.old.sessions.ends (G.opens self.old.door) }
        ensures ok { IfOk result (TakesNext H.Pass.seat
            (told_by G.From.gives G.Into.takes G.Time.times) G.Past.tells steps
            (H.table passes.now) number (H.Pass.seat self.old.root) (H.Pass.seat self.new.root)
            self.old.sessions.running.items self.new.sessions.running.items self.old.sessions.ends
            self.new.sessions.ends (G.opens self.old.door) (G.opens self.new.door)) }
        ensures room { OnOk result
            (deque_len self.new.sessions.running < deque_capacity self.new.sessions.running) }
        ensures err { IfErr result (TakesNone H.Pass.seat
            (told_by G.From.gives G.Into.takes G.Time.times) G.Past.tells steps
            (H.table passes.now) number (H.Pass.seat self.old.root) (H.Pass.seat self.new.root)
            self.old.sessions.running.items self.new.sessions.running.items self.old.sessions.ends
            self.new.sessions.ends (G.opens self.old.door) (G.opens self.new.door)) }
        ensures same { G.which self.new.door ≡ G.which self.old.door }
    {
        if self.sessions.make_room().is_err() {
            return Err(Worst::NoMemory);
        }
        let begun = take(passes, alloc, &mut self.root, &mut self.door, number)?;
        self.settle(rt, passes, steps);
        Ok(begun)
    }

    // Joins the sessions that told their end, and leaves those to the door before which none goes
    // on.
    fn settle<R: Threads>(&mut self, rt: &R, passes: &H, steps: Option<(u64, u64)>)
        requires serving { IsServing H.Pass.seat (told_by G.From.gives G.Into.takes G.Time.times)
            G.Past.tells steps (H.table passes.now) (H.Pass.seat self.old.root)
            self.old.sessions.running.items self.old.sessions.ends (G.opens self.old.door) }
        ensures leaves { LeavesSome H.Pass.seat (told_by G.From.gives G.Into.takes G.Time.times)
            G.Past.tells steps (H.table passes.now) (H.Pass.seat self.old.root)
            (H.Pass.seat self.new.root) self.old.sessions.running.items
            self.new.sessions.running.items self.old.sessions.ends self.new.sessions.ends
            (G.opens self.old.door) (G.opens self.new.door) }
        ensures len { deque_len self.new.sessions.running ≤ deque_len self.old.sessions.running }
        ensures room { deque_capacity self.new.sessions.running
            ≡ deque_capacity self.old.sessions.running }
        ensures same { G.which self.new.door ≡ G.which self.old.door }
    {
        passes.take_finished(&mut self.finished);
        self.sessions
            .join_finished(rt, steps, self.finished.as_slice());
        self.finished.clear();
        leave_joined(
            rt,
            passes,
            &mut self.root,
            &mut self.door,
            steps,
            &mut self.sessions,
        );
    }

    /// Waits for the end of all sessions, leaves them to the door, and answers the worst that any of
    /// them or `why` calls for, with the root and the door.
    pub fn close<R: Threads>(
        self,
        rt: &R,
        passes: &H,
        steps: Option<(u64, u64)>,
        why: Worst,
    ) -> (Worst, H::Pass, G)
        requires serving { IsServing H.Pass.seat (told_by G.From.gives G.Into.takes G.Time.times)
            G.Past.tells steps (H.table passes.now) (H.Pass.seat self.root)
            self.sessions.running.items self.sessions.ends (G.opens self.door) }
        ensures ends { EndsAll H.Pass.seat (told_by G.From.gives G.Into.takes G.Time.times)
            G.Past.tells steps (H.table passes.now) (H.Pass.seat self.root) (H.Pass.seat result.1)
            self.sessions.running.items self.sessions.ends why result.0 (G.opens self.door)
            (G.opens result.2) }
        ensures same { G.which result.2 ≡ G.which self.door }
    {
        let Accepting {
            mut root,
            mut door,
            sessions,
            finished: _,
        } = self;
        let ends = close_all(rt, passes, &mut root, &mut door, steps, sessions);
        (worse_of(why, ends), root, door)
    }
}
