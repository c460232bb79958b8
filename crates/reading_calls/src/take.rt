// The end of a ticket: a take hears its reply, a drop doesn't.
ghost use Rattle.std.specs.Prelude.{◌≡◌, IfOk, option_and_then, unwrap_or};
ghost use Rattle.engine_text.specs.Id.{id_of};
ghost use Rattle.engine_text.specs.declared.reply.Reply as replies;
ghost use Rattle.machine_model.specs.Calls.Take as spec;
ghost use Rattle.machine_model.specs.Outcome.{message_text};
ghost use Rattle.machine_model.specs.Refusals.{removal_timed_out};
ghost use Rattle.machine_model.specs.Tickets.{ticket_numbered};
ghost use Rattle.machine_tables.specs.Held.{reply_in};
ghost use Rattle.reading_calls.specs.Calls.Take.{IsEnding};
ghost use Rattle.call_plans.specs.Making.{Makes};

use call_plans::refusals::removal_timed_out;
use call_plans::{Plan, Prepared, message, waited};
use engine_text::{NoMemory, Reply, Text};
use machine_effects::Tables;
use machine_tables::Ready;
use std::alloc::Global;

/// The ticket is gone.
pub fn perform(tables: &mut Tables, ticket: u64)
    ensures state { tables.new.state ≡ spec.end_ticket ticket tables.old.state }
    ensures room { tables.new.room ≡ tables.old.room }
{
    tables.end_ticket(ticket);
}

// The body of the answer that a removal took too long.
fn late_body(tables: &Tables, alloc: Global, container: u64) -> Result<Text, NoMemory>
    ensures { IfOk result
        (λ t. t ≡ message_text (removal_timed_out (id_of tables.now.state.seed container))) }
{
    let id = tables.id_numbered(alloc, container)?;
    let text = removal_timed_out(alloc, id.as_str())?;
    message(alloc, text.as_str())
}

// The reply that is ready for a ticket of that container.
fn reply_ready(
    tables: &Tables,
    alloc: Global,
    container: u64,
    ready: Ready,
) -> Result<Reply, NoMemory>
    ensures { IfOk result (λ r. r ≡ reply_in tables.now.state.seed container ready) }
{
    match ready {
        Ready::Done => Ok(Reply::Answer {
            status: 204,
            body: Text::new(alloc),
        }),
        Ready::Waited(code) => {
            let body = waited(alloc, code)?;
            Ok(Reply::Answer { status: 200, body })
        }
        Ready::TimedOut => {
            let body = late_body(tables, alloc, container)?;
            Ok(Reply::Answer { status: 409, body })
        }
    }
}

// The reply of the ticket with that number.
fn reply_of(tables: &Tables, alloc: Global, ticket: u64) -> Result<Reply, NoMemory>
    ensures { IfOk result (λ r. r
        ≡ unwrap_or (option_and_then (λ t. t.reply) (ticket_numbered ticket tables.now.state))
        replies.Reply.Dropped) }
{
    let Some(t) = tables.ticket(ticket) else {
        return Ok(Reply::Dropped);
    };
    match t.ready {
        None => Ok(Reply::Dropped),
        Some(ready) => reply_ready(tables, alloc, t.container, ready),
    }
}

// The end of the ticket, with that reply. It takes no memory.
fn prepare_end(alloc: Global, moment: u64, ticket: u64, reply: Reply) -> Prepared
    ensures { IsEnding moment reply ticket result }
{
    Prepared {
        moment,
        reply,
        events: Vec::new(alloc),
        plan: Plan::EndTicket { ticket },
    }
}

/// Makes a take ready.
pub fn prepare(
    tables: &Tables,
    alloc: Global,
    moment: u64,
    ticket: u64,
) -> Result<Prepared, NoMemory>
    ensures { IfOk result (λ p. Makes p moment tables.now.state (spec.take_outcome ticket)) }
{
    let reply = reply_of(tables, alloc, ticket)?;
    Ok(prepare_end(alloc, moment, ticket, reply))
}

/// Makes a drop ready. It takes no memory.
pub fn prepare_drop(alloc: Global, moment: u64, ticket: u64) -> Prepared
    ensures { IsEnding moment replies.Reply.Dropped ticket result }
{
    prepare_end(alloc, moment, ticket, Reply::Dropped)
}
