// What serving all connections asks of the one daemon, without a word on how it is made.
ghost use Rattle.std.specs.Prelude.{◌≡◌, ◌≢◌, ◌+◌, ℕ};
ghost use Rattle.atomic_table.specs.Seated.{TableId};
ghost use Rattle.session_model.specs.Pass.{IsConnection};
ghost use Rattle.turnstile.specs.Plays.{Learned};
ghost use Rattle.turnstile.specs.Turns.{IsPass};
ghost use Rattle.turnstile.specs.Views.{joined};
ghost use Rattle.daemon_shared.specs.Sessions.{SharedSeat, told_by, Served, IsRoot, Grows, IsNewcomer};
ghost use Rattle.daemon_shared.specs.Sharing.{author_of, IsKept};

use engine_ports::{Clock, Parting, Sink, Source};
use session_model::Ending;
use std::alloc::Global;
use std::snapshot::Snapshot;
use std::thread::Promise;

/// A pass on the shared daemon, by which a thread steps.
pub trait Seated {
    ghost seat: { Self → SharedSeat };
}

/// What a session takes.
#[derive(Drop)]
pub struct Begun<Q, F, I, T> {
    pub number: u32,
    pub pass: Q,
    pub from: F,
    pub into: I,
    pub time: T,
}

/// What a session leaves.
#[derive(Drop)]
pub struct Ended<Q, P> {
    pub number: u32,
    pub pass: Q,
    pub past: P,
    pub ending: Ending,
}

/// A session's clause, of what it took, and of the clock that is set.
#[derive(Drop)]
pub struct SessionPromise<Q, F, I, T> {
    pub began: Snapshot<Begun<Q, F, I, T>>,
    pub steps: Option<(u64, u64)>,
}

impl<Q: Seated, F: Source, I: Sink, T: Clock, P: Parting<F, I, T>> Promise<Ended<Q, P>>
    for SessionPromise<Q, F, I, T> {
    ghost kept_by = { λ p r. Served Q.seat (told_by F.gives I.takes T.times) P.tells p.steps
        p.began.value r };
}

/// One daemon, of which passes are admitted, and into whose root they are joined.
pub trait Admitting: Sync {
    type Pass: Seated + Send + Drop;

    ghost table: { Self → TableId };

    /// A new pass of this number, behind one look at the history, and no other turn.
    fn admit(&self, alloc: Global, root: &mut Self::Pass, number: u32) -> Self::Pass
        requires root { IsRoot (table self.now) (Self.Pass.seat root.old).me.0.charter number
            (Self.Pass.seat root.old) }
        requires number { IsConnection number }
        ensures root { IsRoot (table self.now) (Self.Pass.seat root.old).me.0.charter (number + 1)
            (Self.Pass.seat root.new) }
        ensures new { IsNewcomer (table self.now) (Self.Pass.seat root.old).me.0.charter number
            (Self.Pass.seat result) }
        ensures grows { Grows (Self.Pass.seat root.old).me.0 (Self.Pass.seat root.new).me.0 }
        ensures looks { (Self.Pass.seat root.new).me.0.looks
            ≡ (Self.Pass.seat root.old).me.0.looks + 1 }
        ensures saw { (Self.Pass.seat result).me.0.seen ≡ (Self.Pass.seat root.new).me.0.seen };

    /// Takes a pass in.
    fn join(&self, root: &mut Self::Pass, pass: Self::Pass)
        requires root { IsPass (table self.now) (Self.Pass.seat root.old) }
        requires pass { IsPass (table self.now) (Self.Pass.seat pass) }
        requires not_root { (Self.Pass.seat pass).me.0.number ≢ 4294967295 }
        ensures root { IsPass (table self.now) (Self.Pass.seat root.new) }
        ensures joined { (Self.Pass.seat root.new).me.0 ≡ joined (Self.Pass.seat root.old).me.0
            (Self.Pass.seat pass).me.0 }
        ensures learned { Learned author_of IsKept (Self.Pass.seat root.new).me.0 };

    /// Exchanges the list for the numbers of the sessions that told their end since it was asked
    /// last. They are a hint: no clause rests on them.
    fn take_finished(&self, finished: &mut Vec<u32>);
}
