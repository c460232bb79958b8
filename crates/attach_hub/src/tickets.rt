// Waiting for a ticket.
ghost use Rattle.std.specs.Prelude.{◌≡◌};
ghost use Rattle.engine_text.specs.declared.call.Call.TheVariants.{Take};
ghost use Rattle.session_model.specs.Turning.{HasBegun};
ghost use Rattle.attach_hub.specs.Connection.{HasNumbers, TakesTurn};
ghost use Rattle.attach_hub.specs.Waiting.{Awaits, Drops};

use crate::connection::Connection;
use crate::polling::{Polled, poll};
use daemon_core::Turns;
use engine_ports::{Clock, Sink};
use engine_text::Call;
use session_model::{Awaited, Turned};
use std::sync::Wait;

// A turn with the take of the ticket.
fn take<W, T: Turns, K: Sink, C: Clock>(
    conn: &mut Connection<'_, W, T, K, C>,
    ticket: u64,
) -> Turned
    requires numbers { HasNumbers conn.old }
    requires begun { HasBegun conn.old.pass.charter conn.old.who.number ticket
        conn.old.pass.seen }
    ensures { TakesTurn (Take ticket) result conn.old conn.new }
{
    let call = Call::Take { ticket };
    conn.turn(&call)
}

/// Gives the ticket up. It takes no memory, and asks no clock.
pub fn drop_ticket<W, T: Turns, K: Sink, C: Clock>(
    conn: &mut Connection<'_, W, T, K, C>,
    ticket: u64,
)
    requires numbers { HasNumbers conn.old }
    requires begun { HasBegun conn.old.pass.charter conn.old.who.number ticket
        conn.old.pass.seen }
    ensures { Drops ticket conn.old conn.new }
{
    let call = Call::Drop { ticket };
    match conn.turns.turn(conn.alloc, conn.number, 0, Some(&call)) {
        Turned::Replied(_) => {}
        Turned::Begun { .. }
        | Turned::NotYet
        | Turned::Nothing
        | Turned::JournalFull
        | Turned::NoMemory => unreachable!(),
    }
}

/// Takes the ticket's answer as soon as it is there: a turn, and 50 ms later the next. It may wait.
/// Where the peer is gone, the clock is stopped or memory is refused, the ticket is dropped.
pub fn await_ticket<W: Wait, T: Turns, K: Sink, C: Clock>(
    conn: &mut Connection<'_, W, T, K, C>,
    ticket: u64,
) -> Awaited
    requires numbers { HasNumbers conn.old }
    requires begun { HasBegun conn.old.pass.charter conn.old.who.number ticket
        conn.old.pass.seen }
    ensures same { conn.new.who ≡ conn.old.who }
    ensures awaits { Awaits ticket result conn.old conn.new }
{
    let rt = conn.rt;
    for _ in rt.forever() {
        match take(conn, ticket) {
            Turned::Replied(reply) => return Awaited::Replied(reply),
            Turned::NotYet => match poll(conn) {
                Polled::Again => {}
                Polled::Stopped => {
                    drop_ticket(conn, ticket);
                    return Awaited::Stopped;
                }
                Polled::WriteFault => {
                    drop_ticket(conn, ticket);
                    return Awaited::WriteFault;
                }
            },
            Turned::NoMemory => {
                drop_ticket(conn, ticket);
                return Awaited::NoMemory;
            }
            Turned::Begun { .. } | Turned::Nothing | Turned::JournalFull => unreachable!(),
        }
    }
    unreachable!()
}
