// What is said of an entry: its call is made again, and its reply compared as a text.
ghost use Rattle.std.specs.Prelude.{◌≡◌, [], ◌∷◌, IfOk, OnOk};
ghost use Rattle.serde_json.specs.Written.{compact_text};
ghost use Rattle.engine_text.specs.declared.step.Step as steps;
ghost use Rattle.machine_model.specs.History.{IsLawful, reply_of};
ghost use Rattle.journal_lines.specs.JournalLines.{reply_value};
ghost use Rattle.machine_model.specs.Ready.{is_ready};
ghost use Rattle.journal_lines.specs.Entry.{kept_reply, lacks_ticket};
ghost use Rattle.journal_lines.specs.Line.{HasLine};
ghost use Rattle.history_replay.specs.Checking.{IsSaid};
ghost use Rattle.history_replay.specs.Standing.{behind};
ghost use Rattle.history_replay.specs.declared.entry.Said.TheVariants as said;

use super::dues::{Dues, run_dues, spelled};
use super::remaking::Replays;
use engine_text::{Call, Entry, NoMemory, Text};
use journal_lines::reply_text;
use std::alloc::Global;

/// It is right; or it is wrong, with what it keeps and what is found.
#[derive(Drop)]
pub enum Said {
    Right,
    Wrong { kept: Text, found: Text },
}

// Whether the ticket that a take or a drop names isn't the connection's.
fn lacks_ticket<M: Replays>(machine: &M, conn: u32, call: &Call) -> bool
    ensures { result ≡ lacks_ticket (M.standing machine.now).state conn call.now }
{
    match call {
        Call::Take { ticket } => !machine.bare().has_ticket(conn, *ticket),
        Call::Drop { ticket } => !machine.bare().has_ticket(conn, *ticket),
        _ => false,
    }
}

// Whether a call can be answered.
fn can_answer<M: Replays>(machine: &M, call: &Call) -> bool
    ensures { result ≡ is_ready (M.standing machine.now).state call.now }
{
    machine.bare().is_ready(call)
}

// The reply that an entry keeps.
fn kept_reply(alloc: Global, entry: &Entry) -> Result<Text, NoMemory>
    ensures { IfOk result (λ text. text ≡ kept_reply entry.now) }
{
    reply_text(alloc, &entry.call, &entry.reply)
}

// Makes an entry's call, and gives the text of the machine's reply.
fn found_reply<M: Replays>(machine: &mut M, alloc: Global, entry: &Entry) -> Result<Text, NoMemory>
    requires { IsLawful (M.standing machine.old).state
        (steps.Step.Call entry.now.conn entry.now.moment entry.now.call) }
    ensures text { IfOk result (λ text. text ≡ compact_text
        (reply_value entry.now.call (reply_of (M.standing machine.old).state
        entry.now.conn entry.now.moment entry.now.call))) }
    ensures made { OnOk result (M.standing machine.new ≡ behind (M.standing machine.old)
        (steps.Step.Call entry.now.conn entry.now.moment entry.now.call ∷ [])) }
{
    let reply = machine.make(alloc, entry.conn, entry.moment, &entry.call)?;
    reply_text(alloc, &entry.call, &reply)
}

// A wrong entry, of which that is found.
fn wrong(alloc: Global, entry: &Entry, found: &str) -> Result<Said, NoMemory>
    ensures { IfOk result (λ s. s ≡ said.Wrong (kept_reply entry.now) found.now) }
{
    let kept = kept_reply(alloc, entry)?;
    let found = Text::of(alloc, found)?;
    Ok(Said::Wrong { kept, found })
}

/// Makes an entry's due steps and its call again. Behind a wrong entry the machine stands
/// somewhere, and nothing more is made on it.
pub fn check_entry<M: Replays>(
    machine: &mut M,
    alloc: Global,
    entry: &Entry,
) -> Result<Said, NoMemory>
    requires { HasLine entry.now }
    ensures { IfOk result
        (λ s. IsSaid (M.standing machine.old) entry.now (M.standing machine.new) s) }
{
    if lacks_ticket(machine, entry.conn, &entry.call) {
        return wrong(alloc, entry, "no ticket");
    }
    match run_dues(machine, alloc, entry)? {
        Dues::Made => {}
        Dues::Other { found } => {
            let kept = spelled(alloc, entry.dues)?;
            return Ok(Said::Wrong { kept, found });
        }
    }
    if !can_answer(machine, &entry.call) {
        return wrong(alloc, entry, "not ready");
    }
    let kept = kept_reply(alloc, entry)?;
    let found = found_reply(machine, alloc, entry)?;
    if kept.is(found.as_str()) {
        return Ok(Said::Right);
    }
    Ok(Said::Wrong { kept, found })
}
