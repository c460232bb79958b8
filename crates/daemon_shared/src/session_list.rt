// The connections that are being served, in order of number.
ghost use Rattle.std.specs.Prelude.{◌≡◌, ◌<◌, ◌+◌, [], ◌∷◌, ◌++◌, map, true, OnOk};
ghost use Rattle.std.specs.VecDeque.{deque_len, deque_capacity};
ghost use Rattle.session_model.specs.declared.ending.Worst.TheVariants as worst;
ghost use Rattle.daemon_shared.specs.Sessions.{told_by};
ghost use Rattle.daemon_shared.specs.Threads.{begun_of, AllKeep, JoinsSome};

use crate::admission::Seated;
use crate::running::{Running, Stage, join_one};
use engine_ports::{Clock, Parting, Sink, Source};
use session_model::Worst;
use std::alloc::{AllocError, Global};
use std::collections::VecDeque;
use std::thread::Threads;

/// Sessions that aren't left to the door yet, in order of number, and the worst that those call for
/// that are.
#[derive(Drop)]
pub struct Sessions<Q: Seated, F: Source, I: Sink, T: Clock, P: Parting<F, I, T>> {
    pub running: VecDeque<Running<Q, F, I, T, P>>,
    /// The number of the first.
    pub first: u32,
    pub ends: Worst,
}

impl<Q: Seated + Drop, F: Source, I: Sink, T: Clock, P: Parting<F, I, T>> Sessions<Q, F, I, T, P> {
    /// None, before any connection came.
    pub fn new(alloc: Global) -> Sessions<Q, F, I, T, P>
        ensures { (result.running.items ≡ []) × (result.ends ≡ worst.Closed) }
    {
        Sessions {
            running: VecDeque::new(alloc),
            first: 0,
            ends: Worst::Closed,
        }
    }

    /// Makes room for one more.
    pub fn make_room(&mut self) -> Result<(), AllocError>
        ensures same { (self.new.running.items ≡ self.old.running.items)
            × (self.new.ends ≡ self.old.ends) }
        ensures ok { OnOk result (deque_len self.new.running < deque_capacity self.new.running) }
    {
        self.running.reserve(1)
    }

    /// One more, for which there is room.
    pub fn push(&mut self, one: Running<Q, F, I, T, P>)
        requires room { deque_len self.old.running < deque_capacity self.old.running }
        ensures { (self.new.running.items ≡ self.old.running.items ++ one ∷ [])
            × (self.new.ends ≡ self.old.ends) }
    {
        self.running.push_back_reserved(one);
    }

    /// Whether the first has ended, and is joined.
    pub fn first_is_over(&self) -> bool
        ensures { result ≡ true → 0 < deque_len self.now.running }
    {
        match self.running.front() {
            Some(first) => matches!(first.stage, Stage::Over(_)),
            None => false,
        }
    }

    // Joins the one of this number, if it is one of them.
    fn join_number<R: Threads>(&mut self, rt: &R, steps: Option<(u64, u64)>, number: u32)
        requires keep { AllKeep Q.seat (told_by F.gives I.takes T.times) P.tells steps
            self.old.running.items }
        ensures joins { JoinsSome Q.seat (told_by F.gives I.takes T.times) P.tells steps
            self.old.running.items self.new.running.items }
        ensures room { (deque_len self.new.running ≡ deque_len self.old.running)
            × (deque_capacity self.new.running ≡ deque_capacity self.old.running) }
        ensures ends { self.new.ends ≡ self.old.ends }
    {
        let place = number.wrapping_sub(self.first) as usize;
        if place < self.running.len() {
            join_one(rt, steps, &mut self.running[place]);
        }
    }

    /// Joins those that told their end, which doesn't wait long.
    pub fn join_finished<R: Threads>(&mut self, rt: &R, steps: Option<(u64, u64)>, finished: &[u32])
        requires keep { AllKeep Q.seat (told_by F.gives I.takes T.times) P.tells steps
            self.old.running.items }
        ensures joins { JoinsSome Q.seat (told_by F.gives I.takes T.times) P.tells steps
            self.old.running.items self.new.running.items }
        ensures room { (deque_len self.new.running ≡ deque_len self.old.running)
            × (deque_capacity self.new.running ≡ deque_capacity self.old.running) }
        ensures ends { self.new.ends ≡ self.old.ends }
    {
        for number in finished {
            self.join_number(rt, steps, *number);
        }
    }
}
