// The lock (own: one value, one history, passes).
ghost use Rattle.std.specs.Prelude.{◌≡◌, ◌≢◌, ℕ, ◌+◌, ◌≤◌, List, [], ◌∷◌, length, true, false, None, Some, IfSome, IfNone, IfOk, IfErr, IsOk};
ghost use Rattle.turnstile.specs.Steps.{NoCalls, ByOthers, ByOne, steps_by};
ghost use Rattle.turnstile.specs.Views.{root, refused, raised, left, waited, admits, admittee, MayAdmit, joined};
ghost use Rattle.turnstile.specs.Plays.{Meets, Learned};
ghost use Rattle.turnstile.specs.declared.view.View.{View};
ghost use Rattle.turnstile.specs.Turns.{IsPass, IsSame, StaysPass, InTurn, IsUnder, Met, EachMet, Acted, Turned, Looked, IsAdmitted, IfDone, IfBusy};

use crate::chronicle::{Chronicle, Job, Tried};
use crate::plays::{Admit, Enter, Learn, Leave, Numbered, Order, Raise, Reached, TakeIn};
use crate::view::View;
use atomic_table::{Refused, Seat, Table};
use std::alloc::Global;
use std::marker::Brand;
use std::snapshot::Snapshot;
use std::sync::Wait;
use std::thread;

/// A lock whose value tells its history. The door is one atomic word, so that no thread sleeps in
/// the system: a turn that finds it held yields and tries again. Keep jobs short.
pub struct Turnstile<V: Chronicle> {
    table: Table<Option<V>, View<V::Step, V::Charter>, Snapshot<V>, Order, Global>,
    ghost sized: { (table.shared.table_id.words ≡ 2) × (table.shared.table_id.slots ≡ 1) },
}

/// What a thread steps with: it borrows nothing, and has no bytes.
pub type Pass<V> = Seat<Option<V>, View<<V as Chronicle>::Step, <V as Chronicle>::Charter>>;

/// Memory was refused.
#[derive(Clone, Copy, Debug, PartialEq, Eq, Drop)]
pub struct NoMemory;

impl<V: Chronicle> Turnstile<V> {
    /// The lock round a value whose history is legal and has no call yet, and its root pass, which
    /// has seen that history and has the number 4,294,967,295. Without memory the value comes back.
    pub fn new(alloc: Global, value: V) -> Result<(Turnstile<V>, Pass<V>), (V, NoMemory)>
        requires legal { V.legal (V.charter value) (V.history value) }
        requires free { NoCalls V.author (V.history value) }
        ensures ok { IfOk result (λ r. IsPass r.0.table.shared.table_id r.1
            × (r.1.me.0 ≡ root (V.history value) (V.charter value))) }
        ensures err { IfErr result (λ r. r.0 ≡ value) }
    {
        let Ok(mut slots) = Vec::with_capacity(alloc, 1) else {
            return Err((value, NoMemory));
        };
        let steps = value.steps();
        let first = Snapshot::of(&value);
        slots.push_reserved(Some(value));
        match Table::new(alloc, &[0, steps], slots, &first) {
            Ok((table, pass)) => Ok((Turnstile { table }, pass)),
            Err(Refused { mut slots }) => match slots.pop() {
                Some(Some(value)) => Err((value, NoMemory)),
                _ => unreachable!(),
            },
        }
    }

    // One try at the door.
    fn enter(&self, pass: &mut Pass<V>) -> Option<V>
        requires { IsPass self.now.table.shared.table_id pass.old }
        ensures same { IsSame pass.old pass.new }
        ensures some { IfSome result
            (Met V.author V.legal V.history V.charter pass.old.me.0 pass.new.me) }
        ensures none { IfNone result (pass.new.me ≡ (refused pass.old.me.0, [])) }
    {
        let shared = &self.table.shared;
        if shared.compare_exchange::<Enter>(pass, 0, 0, 1) == 0 {
            shared.exchange(pass, 0, None)
        } else {
            None
        }
    }

    // Counts so many steps more, puts the value back, and opens the door.
    fn leave(&self, pass: &mut Pass<V>, value: V, more: u64)
        requires own { pass.old.table_id ≡ self.now.table.shared.table_id }
        requires hand { InTurn pass.old }
        requires value { IsUnder V.legal pass.old.me.0 (V.charter value) (V.history value) }
        requires grown { ByOne V.author pass.old.me.0.number pass.old.me.0.seen (V.history value) }
        requires count { length pass.old.me.0.seen + more ≡ length (V.history value) }
        ensures same { IsSame pass.old pass.new }
        ensures left { pass.new.me ≡ (left (raised V.author pass.old.me.0 (V.history value)), []) }
    {
        self.raise::<Brand>(pass, &value, more);
        let shared = &self.table.shared;
        drop(shared.exchange(pass, 0, Some(value)));
        shared.store::<Leave>(pass, 0, 0);
    }

    // Counts so many steps more, while the value is in hand.
    fn raise<G: Reached<V::Step>>(&self, pass: &mut Pass<V>, value: &V, more: u64)
        requires picked { G.history ≡ V.history value.now }
        requires own { pass.old.table_id ≡ self.now.table.shared.table_id }
        requires hand { InTurn pass.old }
        requires value { IsUnder V.legal pass.old.me.0 (V.charter value.now) (V.history value.now) }
        requires grown { ByOne V.author pass.old.me.0.number pass.old.me.0.seen
            (V.history value.now) }
        requires count { length pass.old.me.0.seen + more ≡ length (V.history value.now) }
        ensures same { IsSame pass.old pass.new }
        ensures raised { pass.new.me
            ≡ (raised V.author pass.old.me.0 (V.history value.now), (0, None) ∷ []) }
    {
        let _ = value;
        self.table.shared.fetch_add::<Raise<G>>(pass, 1, more);
    }

    // Runs the job on the value in hand, and gives the turn up.
    fn act<J: Job<V>>(&self, pass: &mut Pass<V>, mut value: V, job: &mut J) -> J::Answer
        requires own { pass.old.table_id ≡ self.now.table.shared.table_id }
        requires hand { InTurn pass.old }
        requires seen { pass.old.me.0.seen ≡ V.history value }
        requires value { IsUnder V.legal pass.old.me.0 (V.charter value) (V.history value) }
        requires number { J.number job.old ≡ pass.old.me.0.number }
        requires meets { J.may_meet job.old (V.charter value) (V.history value) }
        ensures same { IsSame pass.old pass.new }
        ensures empty { pass.new.me.1 ≡ [] }
        ensures acted { Acted V.author V.legal (λ c h k. J.may_answer job.old c h k result job.new)
            (V.charter value) pass.old.me.0 pass.new.me.0 }
    {
        let before = value.steps();
        let answer = job.run(&mut value);
        let more = value.steps() - before;
        self.leave(pass, value, more);
        answer
    }

    /// One compare and exchange at the door: where it is open, the turn as `turn` has it. Where it
    /// is held the job isn't run, and the pass knows one more `found_busy` and nothing else.
    pub fn try_turn<J: Job<V>>(&self, pass: &mut Pass<V>, job: &mut J) -> Tried<J::Answer>
        requires pass { IsPass self.now.table.shared.table_id pass.old }
        requires number { J.number job.old ≡ pass.old.me.0.number }
        requires meets { EachMet V.author V.legal pass.old.me.0 (J.may_meet job.old) }
        ensures pass { StaysPass self.now.table.shared.table_id pass.old pass.new }
        ensures done { IfDone result (λ a.
            Turned V.author V.legal (λ c h k. J.may_answer job.old c h k a job.new)
            pass.old.me.0 pass.new.me.0
            × (pass.new.me.0.found_busy ≡ pass.old.me.0.found_busy)) }
        ensures busy { IfBusy result
            ((job.new ≡ job.old) × (pass.new.me.0 ≡ refused pass.old.me.0)) }
    {
        match self.enter(pass) {
            Some(value) => Tried::Done(self.act(pass, value, job)),
            None => Tried::Busy,
        }
    }

    // Tries until the door is open.
    fn wait<R: Wait>(&self, rt: &R, pass: &mut Pass<V>) -> V
        requires { IsPass self.now.table.shared.table_id pass.old }
        ensures same { IsSame pass.old pass.new }
        ensures met { (found : ℕ) × (pass.old.me.0.found_busy ≤ found)
            × Met V.author V.legal V.history V.charter (waited pass.old.me.0 found)
            pass.new.me result }
    {
        for _ in rt.forever() {
            if let Some(value) = self.enter(pass) {
                return value;
            }
            thread::yield_now();
        }
        unreachable!()
    }

    /// Runs the job once on the one value, as soon as the door is open. The job meets a history
    /// that extends what the pass had seen by steps of others; the pass has then seen the history
    /// after the job. It may wait, and no proof says for how long.
    pub fn turn<R: Wait, J: Job<V>>(&self, rt: &R, pass: &mut Pass<V>, job: &mut J) -> J::Answer
        requires pass { IsPass self.now.table.shared.table_id pass.old }
        requires number { J.number job.old ≡ pass.old.me.0.number }
        requires meets { EachMet V.author V.legal pass.old.me.0 (J.may_meet job.old) }
        ensures pass { StaysPass self.now.table.shared.table_id pass.old pass.new }
        ensures turned { Turned V.author V.legal
            (λ c h k. J.may_answer job.old c h k result job.new) pass.old.me.0 pass.new.me.0 }
    {
        let value = self.wait(rt, pass);
        self.act(pass, value, job)
    }

    // A turn in which nothing is done.
    fn look<R: Wait>(&self, rt: &R, pass: &mut Pass<V>)
        requires { IsPass self.now.table.shared.table_id pass.old }
        ensures pass { StaysPass self.now.table.shared.table_id pass.old pass.new }
        ensures looked { Looked V.author V.legal pass.old.me.0 pass.new.me.0 }
    {
        let value = self.wait(rt, pass);
        self.leave(pass, value, 0);
    }

    // Splits a new pass of the number off.
    fn split<N: Numbered>(&self, pass: &mut Pass<V>, number: u32) -> Pass<V>
        requires number { N.number ≡ number }
        requires pass { IsPass self.now.table.shared.table_id pass.old }
        requires may { MayAdmit number pass.old.me.0 }
        ensures pass { StaysPass self.now.table.shared.table_id pass.old pass.new }
        ensures left { pass.new.me.0 ≡ admits number pass.old.me.0 }
        ensures new { IsPass self.now.table.shared.table_id result }
        ensures is { result.me.0 ≡ admittee number pass.old.me.0 }
    {
        self.table.shared.split_seat::<Admit<N>>(pass)
    }

    /// Looks at the history by a turn of its own, and makes a new pass that has seen it and has
    /// made no call. The root admits numbers from its `next` on, below 2,147,483,646; any other
    /// pass admits the number of its connection's input once, which is its own plus
    /// 2,147,483,648. The pass takes no memory, so that no call is refused.
    pub fn admit<R: Wait>(
        &self,
        rt: &R,
        alloc: Global,
        pass: &mut Pass<V>,
        number: u32,
    ) -> Result<Pass<V>, NoMemory>
        requires pass { IsPass self.now.table.shared.table_id pass.old }
        requires may { MayAdmit number pass.old.me.0 }
        ensures pass { StaysPass self.now.table.shared.table_id pass.old pass.new }
        ensures admitted { IfOk result (IsAdmitted V.author V.legal number
            self.now.table.shared.table_id pass.old pass.new) }
        ensures never_refused { IsOk result }
    {
        let _ = alloc;
        self.look(rt, pass);
        let mut new = self.split::<Brand>(pass, number);
        self.learn(&mut new);
        Ok(new)
    }

    /// Looks at the door alone, without a turn and without waiting: what the pass has seen is
    /// legal, its lists of calls are exact, and what it and a pass joined in had seen begins it.
    pub fn learn(&self, pass: &mut Pass<V>)
        requires { IsPass self.now.table.shared.table_id pass.old }
        ensures pass { StaysPass self.now.table.shared.table_id pass.old pass.new }
        ensures stays { pass.new.me.0 ≡ pass.old.me.0 }
        ensures learned { Learned V.author V.legal pass.new.me.0 }
    {
        self.table.shared.load::<Learn>(pass, 0);
    }

    /// Takes another pass in: the longer history seen, and the calls of both. It doesn't wait.
    pub fn join(&self, pass: &mut Pass<V>, other: Pass<V>)
        requires pass { IsPass self.now.table.shared.table_id pass.old }
        requires other { IsPass self.now.table.shared.table_id other }
        requires not_root { other.me.0.number ≢ 4294967295 }
        ensures pass { StaysPass self.now.table.shared.table_id pass.old pass.new }
        ensures joined { pass.new.me.0 ≡ joined pass.old.me.0 other.me.0 }
        ensures learned { Learned V.author V.legal pass.new.me.0 }
    {
        self.table.shared.join_seat::<TakeIn>(pass, other);
        self.learn(pass);
    }

    /// Takes the turn a last time, and the value out.
    pub fn close<R: Wait>(self, rt: &R, mut pass: Pass<V>) -> V
        requires { IsPass self.table.shared.table_id pass }
        ensures { Meets V.author V.legal V.history V.charter pass.me.0 result }
    {
        let value = self.wait(rt, &mut pass);
        let Turnstile { table } = self;
        let mut closed = table.close_with(pass);
        drop(closed.take(0));
        closed.free();
        value
    }
}
