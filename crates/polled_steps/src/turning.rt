// Turns of one session.
ghost use Rattle.std.specs.Prelude.{IsFalse, IsTrue, Some};
ghost use Rattle.engine_text.specs.Soundness.{IsSound};
ghost use Rattle.engine_text.specs.declared.call.Call.TheVariants.{Take, Drop};
ghost use Rattle.machine_model.specs.Statuses.{ends_ticket, is_feed};
ghost use Rattle.session_model.specs.Pass.{IsNumber};
ghost use Rattle.session_model.specs.Turning.{HasBegun, MayAsk, Turn};
ghost use Rattle.daemon_core.specs.Whole.{gives_stream};
ghost use Rattle.polled_steps.specs.Turning.{AsksOnce, DropsSo, TakesOnce};

use daemon_core::Turns;
use engine_text::{Call, Reply};
use session_model::Turned;
use std::alloc::Global;

// A turn with a call.
pub(crate) fn turn<T: Turns>(
    turns: &mut T,
    alloc: Global,
    conn: u32,
    handed: u64,
    call: &Call,
) -> Turned
    requires number { IsNumber (T.pass turns.old).number conn }
    requires may { MayAsk (T.pass turns.old).charter conn (T.pass turns.old).seen (Some call.now) }
    ensures { Turn conn handed (Some call.now) result (T.pass turns.old) (T.pass turns.new) }
{
    turns.turn(alloc, conn, handed, Some(call))
}

/// What a turn with a request's call came to.
#[derive(Drop)]
pub enum Asked {
    Replied(Reply),
    Begun(u64),
    JournalFull,
    NoMemory,
}

/// Makes the call of a request that is answered whole or by a ticket.
pub fn ask_once<T: Turns>(
    turns: &mut T,
    alloc: Global,
    conn: u32,
    handed: u64,
    call: &Call,
) -> Asked
    requires number { IsNumber (T.pass turns.old).number conn }
    requires pair { IsTrue (T.pass turns.old).pair }
    requires sound { IsSound call.now }
    requires feeds { IsFalse (is_feed call.now) }
    requires kind { IsFalse (ends_ticket call.now) }
    requires whole { IsFalse (gives_stream call.now) }
    ensures { AsksOnce conn handed call.now result (T.pass turns.old) (T.pass turns.new) }
{
    match turn(turns, alloc, conn, handed, call) {
        Turned::Replied(reply) => Asked::Replied(reply),
        Turned::Begun { ticket } => Asked::Begun(ticket),
        Turned::JournalFull => Asked::JournalFull,
        Turned::NoMemory => Asked::NoMemory,
        Turned::NotYet | Turned::Nothing => unreachable!(),
    }
}

/// What asking for a ticket's end came to.
#[derive(Drop)]
pub enum Taken {
    Replied(Reply),
    NotYet,
    NoMemory,
}

// A turn with the take of the ticket.
fn take<T: Turns>(turns: &mut T, alloc: Global, conn: u32, handed: u64, ticket: u64) -> Turned
    requires number { IsNumber (T.pass turns.old).number conn }
    requires begun { HasBegun (T.pass turns.old).charter conn ticket (T.pass turns.old).seen }
    ensures { Turn conn handed (Some (Take ticket)) result (T.pass turns.old) (T.pass turns.new) }
{
    let call = Call::Take { ticket };
    turn(turns, alloc, conn, handed, &call)
}

/// Takes the ticket's answer, if it is there.
pub fn take_once<T: Turns>(
    turns: &mut T,
    alloc: Global,
    conn: u32,
    handed: u64,
    ticket: u64,
) -> Taken
    requires number { IsNumber (T.pass turns.old).number conn }
    requires pair { IsTrue (T.pass turns.old).pair }
    requires begun { HasBegun (T.pass turns.old).charter conn ticket (T.pass turns.old).seen }
    ensures { TakesOnce conn handed ticket result (T.pass turns.old) (T.pass turns.new) }
{
    match take(turns, alloc, conn, handed, ticket) {
        Turned::Replied(reply) => Taken::Replied(reply),
        Turned::NotYet => Taken::NotYet,
        Turned::NoMemory => Taken::NoMemory,
        Turned::Begun { .. } | Turned::Nothing | Turned::JournalFull => unreachable!(),
    }
}

/// Gives the ticket up. It takes no memory, and stands at no moment.
pub fn drop_ticket<T: Turns>(turns: &mut T, alloc: Global, conn: u32, ticket: u64)
    requires number { IsNumber (T.pass turns.old).number conn }
    requires pair { IsTrue (T.pass turns.old).pair }
    requires begun { HasBegun (T.pass turns.old).charter conn ticket (T.pass turns.old).seen }
    ensures { DropsSo conn ticket (T.pass turns.old) (T.pass turns.new) }
{
    let call = Call::Drop { ticket };
    match turn(turns, alloc, conn, 0, &call) {
        Turned::Replied(_) => {}
        Turned::Begun { .. }
        | Turned::NotYet
        | Turned::Nothing
        | Turned::JournalFull
        | Turned::NoMemory => unreachable!(),
    }
}
