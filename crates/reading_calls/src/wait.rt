// Wait: a ticket, in every state.
ghost use Rattle.std.specs.Prelude.{◌≡◌};
ghost use Rattle.engine_text.specs.declared.ticket.Asked as asks;
ghost use Rattle.machine_model.specs.Chain.{still};
ghost use Rattle.machine_model.specs.Tickets.{begins};
ghost use Rattle.container_table.specs.Logs.{container_in};
ghost use Rattle.machine_events.specs.Tickets.{CanBegin};
ghost use Rattle.call_plans.specs.Calls.Wait.{wait_effect};
ghost use Rattle.call_plans.specs.Making.{Makes};

use call_plans::{Plan, Prepared};
use container_table::Held;
use engine_text::{Asked, Reply, Until};
use machine_effects::Tables;
use std::alloc::Global;

/// A ticket is given.
pub fn perform(tables: &mut Tables, conn: u32, number: u64, until: Until)
    requires { CanBegin tables.old }
    ensures state { tables.new.state ≡ (wait_effect conn number until tables.old.state).state }
    ensures room { tables.new.room ≡ tables.old.room }
{
    tables.begin_ticket(conn, number, Asked::Wait(until));
}

/// Makes a wait ready.
pub fn prepare(
    tables: &Tables,
    alloc: Global,
    conn: u32,
    moment: u64,
    h: &Held,
    until: Until,
) -> Prepared
    ensures { Makes result moment tables.now.state
        (begins conn (container_in h.now) (asks.Asked.Wait until) still) }
{
    let number = h.container.number;
    let ticket = tables.next_ticket();
    Prepared {
        moment,
        reply: Reply::Begun { ticket },
        events: Vec::new(alloc),
        plan: Plan::Wait {
            conn,
            number,
            until,
        },
    }
}
