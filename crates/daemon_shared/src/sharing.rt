// What the threads share, and a session of a connection by its pass.
ghost use Rattle.std.specs.Prelude.{◌≡◌, ◌<◌, ◌≤◌, [], IsTrue, IfOk};
ghost use Rattle.engine_ports.specs.Door.{outside};
ghost use Rattle.machine_model.specs.History.{greatest_moment};
ghost use Rattle.daemon_core.specs.Passing.{whole_pass};
ghost use Rattle.turnstile.specs.Plays.{Meets};
ghost use Rattle.turnstile.specs.Turns.{IsPass};
ghost use Rattle.turnstile.specs.Views.{root};
ghost use Rattle.daemon_shared.specs.Sharing.{author_of, opening_in, IsKept};
ghost use Rattle.session_model.specs.Pass.{IsNumber, IsConnection};
ghost use Rattle.daemon_shared.specs.Sessions.{told_by, CanServe, Served};
ghost use Rattle.daemon_shared.specs.Running.{ServesBy};

use crate::admission::{Admitting, Begun, Ended, Seated};
use crate::ends::Finished;
use crate::one_daemon::{OneDaemon, Opening, open};
use crate::shared::Shared;
use daemon_core::{Pairs, Turns};
use engine_ports::{Clock, Parting, Sink, Source};
use engine_serve::{OwnClock, Routing, serve_by_routes};
use engine_text::NoMemory;
use session_model::Ending;
use std::alloc::Global;
use std::sync::Wait;
use std::thread::Threads;
use turnstile::{Pass, Turnstile};

/// What all sessions share: the runtime by which turns wait, the daemon behind its turnstile, and
/// who has ended.
pub struct SharedDaemon<'a, R> {
    pub rt: &'a R,
    pub lock: Turnstile<OneDaemon>,
    pub finished: Finished,
}

impl<'a, R: Wait> SharedDaemon<'a, R> {
    /// A new daemon, which is opened at the moment, and the root pass to it.
    pub fn open(
        rt: &'a R,
        alloc: Global,
        opening: Opening,
    ) -> Result<(SharedDaemon<'a, R>, Pass<OneDaemon>), NoMemory>
        requires { opening.moment ≤ greatest_moment }
        ensures { IfOk result (λ r. IsPass r.0.lock.table.shared.table_id r.1
            × (r.1.me.0 ≡ root [] opening)) }
    {
        let (lock, root) = open(alloc, opening)?;
        let finished = Finished::new(alloc);
        Ok((SharedDaemon { rt, lock, finished }, root))
    }

    /// Takes the daemon out, once all sessions have ended.
    pub fn close(self, root: Pass<OneDaemon>) -> OneDaemon
        requires { IsPass self.lock.table.shared.table_id root }
        ensures { Meets author_of IsKept (λ d. (whole_pass d.daemon.value).seen)
            (λ d. opening_in d.daemon.value) root.me.0 result }
    {
        let SharedDaemon {
            rt,
            lock,
            finished: _,
        } = self;
        lock.close(rt, root)
    }
}

impl Seated for Pass<OneDaemon> {
    ghost seat = { λ p. p };
}

impl<'a, R: Wait + Sync> Admitting for SharedDaemon<'a, R> {
    type Pass = Pass<OneDaemon>;

    ghost table = { λ r. r.lock.table.shared.table_id };

    fn admit(&self, alloc: Global, root: &mut Pass<OneDaemon>, number: u32) -> Pass<OneDaemon> {
        match self.lock.admit(self.rt, alloc, root, number) {
            Ok(pass) => pass,
            Err(_) => unreachable!(),
        }
    }

    fn join(&self, root: &mut Pass<OneDaemon>, pass: Pass<OneDaemon>) {
        self.lock.join(root, pass);
    }

    fn take_finished(&self, finished: &mut Vec<u32>) {
        self.finished.take(self.rt, finished);
    }
}

/// Serves a connection by its clock, or by one of its own that begins at a moment, in milliseconds,
/// and adds a step at each reading.
pub fn serve_by<R: Threads + Wait + Sync, U: Pairs, N: Routing, F: Source, I: Sink, T: Clock>(
    rt: &R,
    turns: &mut U,
    alloc: Global,
    conn: u32,
    routes: &N,
    steps: Option<(u64, u64)>,
    from: &mut F,
    into: &mut I,
    time: &mut T,
) -> Ending
    requires connection { IsConnection conn }
    requires number { IsNumber (U.pass turns.old).number conn }
    requires pair { IsTrue (U.pass turns.old).pair }
    ensures { ServesBy steps conn result (U.pass turns.old) (U.pass turns.new)
        (outside (F.gives from.old) (I.takes into.old) (T.times time.old))
        (outside (F.gives from.new) (I.takes into.new) (T.times time.new)) }
{
    match steps {
        Some((moment, step)) => {
            let mut own = OwnClock { moment, step };
            serve_by_routes(rt, turns, alloc, conn, routes, from, into, &mut own)
        }
        None => serve_by_routes(rt, turns, alloc, conn, routes, from, into, time),
    }
}

/// Serves a connection by its pass and the routes that all sessions share, parts it, and tells that
/// it has ended.
pub fn session<
    R: Threads + Wait + Sync,
    N: Routing,
    F: Source,
    I: Sink,
    T: Clock,
    P: Parting<F, I, T>,
>(
    shared: &SharedDaemon<'_, R>,
    routes: &N,
    alloc: Global,
    steps: Option<(u64, u64)>,
    begun: Begun<Pass<OneDaemon>, F, I, T>,
) -> Ended<Pass<OneDaemon>, P>
    requires { CanServe (λ p. p) shared.now.lock.table.shared.table_id begun }
    ensures { Served (λ p. p) (told_by F.gives I.takes T.times) P.tells steps begun result }
{
    let Begun {
        number,
        pass,
        mut from,
        mut into,
        mut time,
    } = begun;
    let rt = shared.rt;
    let mut turns = Shared::new(rt, &shared.lock, pass);
    let ending = serve_by(
        rt, &mut turns, alloc, number, routes, steps, &mut from, &mut into, &mut time,
    );
    let mut pass = turns.into_pass();
    shared.lock.learn(&mut pass);
    let past = P::part(from, into, time);
    shared.finished.tell(rt, number);
    Ended {
        number,
        pass,
        past,
        ending,
    }
}
