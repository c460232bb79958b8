// A list of numbers behind the turnstile: who turned, in order.
ghost use Rattle.std.specs.Prelude.{◌≡◌, ℕ, ◌≤◌, ◌<◌, ◌+◌, List, [], length, Some};
ghost use Rattle.turnstile.specs.Turns.{IsPass};

use std::alloc::Global;
use std::sync::Wait;
use std::test::Fail;
use std::thread::{Threads, join_mut};
use turnstile::{Chronicle, Job, Pass, Tried, Turnstile};

const ROOT: u32 = 4_294_967_295;

#[derive(Drop)]
struct Log {
    steps: Vec<u32>,
}

impl Log {
    fn new(alloc: Global) -> Log
        ensures { result.steps.items ≡ [] }
    {
        Log {
            steps: Vec::new(alloc),
        }
    }
}

impl Chronicle for Log {
    ghost use Rattle.std.proofs.Common.{rules};
    ghost use Rattle.std.specs.Prelude.{Some, length, ◌≤◌};

    type Step = u32;

    type Charter = ();

    ghost author = { Some };

    ghost legal = { λ _ h. length h ≤ 4000 };

    ghost history = { λ s. s.steps.items };

    ghost charter = { λ _. tt };

    fn steps(&self) -> u64 {
        self.steps.len() as u64
    }

    ghost short = { Prim.search rules };
}

/// Adds its number, and says whether it did.
#[derive(Drop)]
struct Append {
    number: u32,
}

impl Job<Log> for Append {
    ghost use Rattle.turnstile.specs.Example.{Appended};

    type Answer = bool;

    ghost number = { λ j. j.number };

    ghost may_meet = { λ _ _ _. Unit {0} };

    ghost may_answer = { λ j _ h k a i. Appended j.number h k a × (i.number ≡ j.number) };

    fn run(&mut self, value: &mut Log) -> bool {
        value.steps.len() < 4000 && value.steps.push(self.number).is_ok()
    }
}

/// Tries a turn of another pass while it has its own.
#[derive(Drop)]
struct Nested<'a> {
    number: u32,
    lock: &'a Turnstile<Log>,
    other: Pass<Log>,
    inner: Append,
}

impl<'a> Job<Log> for Nested<'a> {
    ghost use Rattle.std.specs.Prelude.{◌+◌, true};
    ghost use Rattle.turnstile.specs.Turns.{IsPass};

    // Whether it was refused.
    type Answer = bool;

    ghost number = { λ j. j.number };

    ghost may_meet = { λ j _ _. IsPass j.lock.now.table.shared.table_id j.other
        × (j.inner.number ≡ j.other.me.0.number) };

    ghost may_answer = { λ j _ h k a i. (k ≡ h) × IsPass j.lock.now.table.shared.table_id i.other
        × (i.inner.number ≡ i.other.me.0.number)
        × (a ≡ true → (i.other.me.0.found_busy ≡ j.other.me.0.found_busy + 1)
        × (i.other.me.0.seen ≡ j.other.me.0.seen)) };

    fn run(&mut self, _value: &mut Log) -> bool {
        matches!(
            self.lock.try_turn(&mut self.other, &mut self.inner),
            Tried::Busy
        )
    }
}

/// So many turns; gives how many added their number.
fn turns<R: Wait>(
    rt: &R,
    lock: &Turnstile<Log>,
    pass: &mut Pass<Log>,
    number: u32,
    count: u32,
) -> u32
    requires { IsPass lock.now.table.shared.table_id pass.old × (number ≡ pass.old.me.0.number) }
    ensures pass { IsPass lock.now.table.shared.table_id pass.new }
    ensures number { number ≡ pass.new.me.0.number }
{
    let mut added = 0u32;
    let mut job = Append { number };
    for _ in 0..count {
        if lock.turn(rt, pass, &mut job) {
            added = added.saturating_add(1);
        }
    }
    added
}

/// Two threads take so many turns each.
fn both<R: Threads + Wait + Sync>(
    rt: &R,
    lock: &Turnstile<Log>,
    a: &mut Pass<Log>,
    b: &mut Pass<Log>,
    one: u32,
    two: u32,
    count: u32,
) -> (u32, u32)
    requires a { IsPass lock.now.table.shared.table_id a.old × (one ≡ a.old.me.0.number) }
    requires b { IsPass lock.now.table.shared.table_id b.old × (two ≡ b.old.me.0.number) }
    ensures a { IsPass lock.now.table.shared.table_id a.new }
    ensures b { IsPass lock.now.table.shared.table_id b.new }
    ensures one { one ≡ a.new.me.0.number }
    ensures two { two ≡ b.new.me.0.number }
{
    join_mut(
        rt,
        &mut || turns(rt, lock, a, one, count),
        &mut || turns(rt, lock, b, two, count),
    )
}

#[test]
fn the_root_admits_a_pass_and_joins_it(rt: HostRuntime) -> Result<(), Fail> {
    let Ok((lock, mut root)) = Turnstile::new(rt.alloc(), Log::new(rt.alloc())) else {
        panic!(rt; "no memory")
    };
    let one = lock.turn(&rt, &mut root, &mut Append { number: ROOT });
    let Ok(mut pass) = lock.admit(&rt, rt.alloc(), &mut root, 0) else {
        panic!(rt; "refused")
    };
    let two = lock.turn(&rt, &mut pass, &mut Append { number: 0 });
    lock.join(&mut root, pass);
    let log = lock.close(&rt, root);
    assert!(rt; one && two && log.steps.as_slice() == [ROOT, 0].as_slice());
    Ok(())
}

#[test]
fn a_held_door_is_busy_and_nothing_is_done(rt: HostRuntime) -> Result<(), Fail> {
    let Ok((lock, mut root)) = Turnstile::new(rt.alloc(), Log::new(rt.alloc())) else {
        panic!(rt; "no memory")
    };
    let Ok(pass) = lock.admit(&rt, rt.alloc(), &mut root, 0) else {
        panic!(rt; "refused")
    };
    let mut job = Nested {
        number: ROOT,
        lock: &lock,
        other: pass,
        inner: Append { number: 0 },
    };
    let busy = lock.turn(&rt, &mut root, &mut job);
    let Nested {
        number: _,
        lock: _,
        mut other,
        mut inner,
    } = job;
    let done = matches!(lock.try_turn(&mut other, &mut inner), Tried::Done(true));
    let log = lock.close(&rt, root);
    assert!(rt; busy && done && log.steps.as_slice() == [0u32].as_slice());
    Ok(())
}

#[test]
fn two_threads_lose_no_turn(rt: HostRuntime) -> Result<(), Fail> {
    let Ok((lock, mut root)) = Turnstile::new(rt.alloc(), Log::new(rt.alloc())) else {
        panic!(rt; "no memory")
    };
    let Ok(mut pass) = lock.admit(&rt, rt.alloc(), &mut root, 5) else {
        panic!(rt; "refused")
    };
    let (one, two) = both(&rt, &lock, &mut root, &mut pass, ROOT, 5, 1000);
    lock.join(&mut root, pass);
    let log = lock.close(&rt, root);
    let fives = log.steps.iter().filter(|n| **n == 5).count();
    assert!(rt; one == 1000 && two == 1000 && log.steps.len() == 2000 && fives == 1000);
    Ok(())
}
