// Sessions that have ended are left to the door, in order of number.
ghost use Rattle.std.specs.Prelude.{◌≡◌, ◌<◌, ◌≤◌, ◌+◌, []};
ghost use Rattle.std.specs.VecDeque.{deque_len, deque_capacity};
ghost use Rattle.daemon_shared.specs.Sessions.{told_by};
ghost use Rattle.daemon_shared.specs.Threads.{IsServing, LeavesSome};

use crate::admission::Admitting;
use crate::lending::OneDoor;
use crate::running::close_one;
use crate::session_list::Sessions;
use door_model::{called_by, worse_of};
use session_model::Worst;
use std::thread::Threads;

/// Waits for the end of the first session, and leaves its connection to the door.
fn close_first<R: Threads, H: Admitting, G: OneDoor>(
    rt: &R,
    passes: &H,
    root: &mut H::Pass,
    lent: &mut G,
    steps: Option<(u64, u64)>,
    sessions: &mut Sessions<H::Pass, G::From, G::Into, G::Time, G::Past>,
)
    requires serving { IsServing H.Pass.seat (told_by G.From.gives G.Into.takes G.Time.times)
        G.Past.tells steps (H.table passes.now) (H.Pass.seat root.old) sessions.old.running.items
        sessions.old.ends (G.opens lent.old) }
    requires first { 0 < deque_len sessions.old.running }
    ensures leaves { LeavesSome H.Pass.seat (told_by G.From.gives G.Into.takes G.Time.times)
        G.Past.tells steps (H.table passes.now) (H.Pass.seat root.old) (H.Pass.seat root.new)
        sessions.old.running.items sessions.new.running.items sessions.old.ends sessions.new.ends
        (G.opens lent.old) (G.opens lent.new) }
    ensures len { deque_len sessions.new.running + 1 ≡ deque_len sessions.old.running }
    ensures room { deque_capacity sessions.new.running ≡ deque_capacity sessions.old.running }
    ensures same { G.which lent.new ≡ G.which lent.old }
{
    let Some(one) = sessions.running.pop_front() else {
        unreachable!()
    };
    let ending = close_one(rt, passes, root, lent, steps, one);
    sessions.first = sessions.first.wrapping_add(1);
    sessions.ends = worse_of(sessions.ends, called_by(ending));
}

/// Leaves the first sessions to the door, as many as are joined.
pub fn leave_joined<R: Threads, H: Admitting, G: OneDoor>(
    rt: &R,
    passes: &H,
    root: &mut H::Pass,
    lent: &mut G,
    steps: Option<(u64, u64)>,
    sessions: &mut Sessions<H::Pass, G::From, G::Into, G::Time, G::Past>,
)
    requires serving { IsServing H.Pass.seat (told_by G.From.gives G.Into.takes G.Time.times)
        G.Past.tells steps (H.table passes.now) (H.Pass.seat root.old) sessions.old.running.items
        sessions.old.ends (G.opens lent.old) }
    ensures leaves { LeavesSome H.Pass.seat (told_by G.From.gives G.Into.takes G.Time.times)
        G.Past.tells steps (H.table passes.now) (H.Pass.seat root.old) (H.Pass.seat root.new)
        sessions.old.running.items sessions.new.running.items sessions.old.ends sessions.new.ends
        (G.opens lent.old) (G.opens lent.new) }
    ensures len { deque_len sessions.new.running ≤ deque_len sessions.old.running }
    ensures room { deque_capacity sessions.new.running ≡ deque_capacity sessions.old.running }
    ensures same { G.which lent.new ≡ G.which lent.old }
{
    for _left in 0..sessions.running.len() {
        if !sessions.first_is_over() {
            break;
        }
        close_first(rt, passes, root, lent, steps, sessions);
    }
}

/// Waits for the end of all sessions, each in its turn, leaves them to the door, and answers the
/// worst that any has called for.
pub fn close_all<R: Threads, H: Admitting, G: OneDoor>(
    rt: &R,
    passes: &H,
    root: &mut H::Pass,
    lent: &mut G,
    steps: Option<(u64, u64)>,
    sessions: Sessions<H::Pass, G::From, G::Into, G::Time, G::Past>,
) -> Worst
    requires serving { IsServing H.Pass.seat (told_by G.From.gives G.Into.takes G.Time.times)
        G.Past.tells steps (H.table passes.now) (H.Pass.seat root.old) sessions.running.items
        sessions.ends (G.opens lent.old) }
    ensures leaves { LeavesSome H.Pass.seat (told_by G.From.gives G.Into.takes G.Time.times)
        G.Past.tells steps (H.table passes.now) (H.Pass.seat root.old) (H.Pass.seat root.new)
        sessions.running.items [] sessions.ends result (G.opens lent.old) (G.opens lent.new) }
    ensures same { G.which lent.new ≡ G.which lent.old }
{
    let mut sessions = sessions;
    for _left in 0..sessions.running.len() {
        close_first(rt, passes, root, lent, steps, &mut sessions);
    }
    sessions.ends
}
