// A front, step by step: it reads and writes nothing.
ghost use Rattle.std.specs.Prelude.{◌≡◌, ◌<◌, ◌≤◌, ◌+◌, ◌++◌, [], length, IfOk};
ghost use Rattle.http_edge.specs.Limits.{head_limit};
ghost use Rattle.front_session.specs.Front.{front_at, new_front};
ghost use Rattle.front_session.specs.Showing.{is_open};
ghost use Rattle.front_session.specs.Steps.{Steps, stage_behind};
ghost use Rattle.front_session.specs.declared.standing.Stage.TheVariants.{Within, Open, Ended};

use crate::giving::feed;
use crate::handing::hand;
use crate::keeping::Owed;
use crate::looking::look;
use crate::standing::Stage;
use engine_ports::NoMemory;
use http_edge::{Ahead, Buffers};
use json_answer::Terms;
use lab_front::Row;
use std::alloc::Global;
use std::marker::Model;

/// What a step came to.
#[derive(Clone, Copy, Debug, PartialEq, Eq)]
pub enum Act {
    /// So many bytes were handed on.
    Gave(usize),
    /// A request was taken, and is to be answered.
    Answers(Terms, Row),
    /// At most so many bytes are handed on as they come.
    Passes(usize),
    /// At most so many bytes are wanted of the next request.
    Wants(usize),
    /// The front goes on.
    On,
    /// Nothing more comes.
    Ended,
    /// An answer was lost.
    Lost,
}

/// What a front keeps: what was read of the next request, and what is to be handed on.
#[derive(Drop)]
pub struct FrontState {
    ahead: Ahead,
    buffers: Buffers,
    owed: Owed,
    stage: Stage,
}

impl Model for FrontState {
    ghost use Rattle.front_session.specs.Front.{Front, front_at};

    ghost Value = { Front };

    ghost view = { λ f. front_at f.owed f.ahead f.stage };
}

/// Hands on what is ahead of a request of which so many bytes are still to come.
fn step_within(ahead: &mut Ahead, left: usize, into: &mut [u8]) -> (Act, Stage)
    requires some { 0 < left }
    requires place { 0 < length into.old }
    ensures { Steps result.0 into.new (front_at [] ahead.old (Within left))
        (front_at [] ahead.new result.1) }
{
    match hand(ahead, left, into) {
        Act::Gave(count) => (Act::Gave(count), Stage::Within(left - count)),
        Act::Passes(size) => (Act::Passes(size), Stage::Within(left)),
        Act::Answers(_, _) | Act::Wants(_) | Act::On | Act::Ended | Act::Lost => unreachable!(),
    }
}

/// Hands on all that is ahead.
fn step_open(ahead: &mut Ahead, into: &mut [u8]) -> Act
    requires { 0 < length into.old }
    ensures { Steps result into.new (front_at [] ahead.old Open) (front_at [] ahead.new Open) }
{
    let most = into.len();
    hand(ahead, most, into)
}

/// Hands on what is ahead as the source has ended.
fn step_ended(ahead: &mut Ahead, into: &mut [u8]) -> Act
    requires { 0 < length into.old }
    ensures { Steps result into.new (front_at [] ahead.old Ended) (front_at [] ahead.new Ended) }
{
    if ahead.len() == 0 {
        return Act::Ended;
    }
    Act::Gave(ahead.take(into))
}

/// A step, where no byte is to be handed on. Answers where the front stands then, too.
fn step_at(
    ahead: &mut Ahead,
    buffers: &mut Buffers,
    owed: &mut Owed,
    stage: Stage,
    into: &mut [u8],
) -> (Act, Stage)
    requires owed { owed.old ≡ [] }
    requires place { 0 < length into.old }
    ensures { Steps result.0 into.new (front_at owed.old ahead.old stage)
        (front_at owed.new ahead.new result.1) }
{
    match stage {
        Stage::Within(left) => {
            if left == 0 {
                return look(ahead, buffers, owed, into.len());
            }
            step_within(ahead, left, into)
        }
        Stage::Open => (step_open(ahead, into), Stage::Open),
        Stage::Closed => (Act::Ended, Stage::Closed),
        Stage::Ended => (step_ended(ahead, into), Stage::Ended),
        Stage::Lost => (Act::Lost, Stage::Lost),
    }
}

impl FrontState {
    /// Whether all is handed on.
    pub(crate) fn is_open(&self) -> bool
        ensures { result ≡ is_open self.now.stage }
    {
        matches!(self.stage, Stage::Open)
    }

    /// A front that was given nothing. It takes all memory that it needs: what a reader of requests takes, and as much
    /// as a head more.
    pub fn new(alloc: Global) -> Result<FrontState, NoMemory>
        ensures { IfOk result (λ f. f ≡ new_front) }
    {
        Ok(FrontState {
            ahead: Ahead::new(alloc)?,
            buffers: Buffers::new(alloc)?,
            owed: Owed::new(alloc)?,
            stage: Stage::Within(0),
        })
    }

    /// How many bytes are ahead.
    pub(crate) fn ahead_len(&self) -> usize
        ensures { result ≡ length self.now.ahead }
    {
        self.ahead.len()
    }

    /// Puts bytes behind those ahead.
    pub(crate) fn feed(&mut self, bytes: &[u8])
        requires { length self.old.ahead + length bytes.now ≤ head_limit }
        ensures { self.new ≡ record self.old { ahead = self.old.ahead ++ bytes.now } }
    {
        feed(&mut self.ahead, bytes);
    }

    /// So many bytes were handed on as they came.
    pub(crate) fn pass(&mut self, count: usize)
        ensures { self.new ≡ record self.old { stage = stage_behind count self.old.stage } }
    {
        self.stage = self.stage.behind(count);
    }

    /// It stands there from now on.
    pub(crate) fn stand(&mut self, stage: Stage)
        ensures { self.new ≡ record self.old { stage = stage } }
    {
        self.stage = stage;
    }

    /// A step.
    pub(crate) fn step(&mut self, into: &mut [u8]) -> Act
        requires { 0 < length into.old }
        ensures { Steps result into.new self.old self.new }
    {
        if self.owed.len() > 0 {
            return Act::Gave(self.owed.give(into));
        }
        let (act, stage) = step_at(
            &mut self.ahead,
            &mut self.buffers,
            &mut self.owed,
            self.stage,
            into,
        );
        self.stage = stage;
        act
    }
}
