// Vectors of events.
ghost use Rattle.std.specs.Prelude.{◌≡◌, ◌≤◌, IfOk};

use crate::answers::{last_answer, tells};
use crate::asking::{requests, with_ids};
use crate::running::{STDIO, run, run_client_over};
use crate::short::Short;
use engine_text::{Action, Event, EventKind, Pairs, Text};
use event_ring::{FromRing, PreparedEvent, Ring};
use std::alloc::Global;
use std::sync::Wait;
use std::thread::Threads;

/// What a container goes through that is started, paused and killed.
const KILLED: &str =
    r#"POST /v1.43/containers/create?name=web {"Image":"engine/tools:latest","Cmd":["sleep","60000"]}
POST /v1.43/containers/web/start
POST /v1.43/containers/web/pause
POST /v1.43/containers/web/kill
GET /v1.43/events?since=0&until=1700000000"#;

/// The events of that, in order.
const SIX: &str = r#"201
204
204
204
200 X-Engine-From: 0 .. {"Action":"create","Actor":{"Attributes":{"image":"engine/tools:latest","name":"web"},"ID":"ID0"},"Type":"container","scope":"local","time":1700000000,"timeNano":1700000000000000000} .. "Action":"start" .. "Action":"pause" .. "Action":"kill" .. "Action":"unpause" .. {"Action":"die","Actor":{"Attributes":{"exitCode":"137","image":"engine/tools:latest","name":"web"}"#;

/// How many events more than are kept.
const PUSHED: u64 = 65_537;

/// The events of a kill, and what the client's `watch` makes of them.
pub fn events_tell_a_kill<R: Threads + Wait + Sync>(rt: &R, alloc: Global) -> Result<bool, Short> {
    let input = requests(alloc, KILLED)?;
    let ran = run(rt, alloc, STDIO, &input)?;
    let Some(answer) = last_answer(alloc, ran.out.bytes())? else {
        return Ok(false);
    };
    let line = "127.0.0.1:1 watch 1700000000";
    let watched = run_client_over(rt, alloc, line, b"", &[answer.as_bytes()])?;
    let row = with_ids(alloc, "ID0 web not-live not-paused 137\n")?;
    Ok(tells(alloc, ran.out.bytes(), SIX)? && watched.is(0, row.as_bytes()))
}

// An event at that moment.
fn event_at(alloc: Global, moment: u64) -> Event
    ensures { result.moment ≡ moment }
{
    Event {
        kind: EventKind::Container,
        action: Action::Start,
        id: Text::new(alloc),
        attributes: Pairs::new(alloc),
        moment,
    }
}

// A ring behind that many events.
fn full_ring(alloc: Global) -> Result<Ring, Short>
    ensures { IfOk result (λ r. r.count ≡ 65537) }
{
    let mut ring = Ring::new(alloc)?;
    'events: for moment in 0..PUSHED {
        let prepared = PreparedEvent::of(alloc, event_at(alloc, moment))?;
        ring.push(prepared);
    }
    Ok(ring)
}

/// A ring that let its first event go.
pub fn a_full_ring_lets_its_first_event_go(alloc: Global) -> Result<bool, Short> {
    let ring = full_ring(alloc)?;
    let oldest = matches!(ring.from(0), FromRing::Lagged { next: 0, first: 1 });
    let newest = matches!(ring.from(PUSHED), FromRing::UpToDate);
    Ok(oldest && newest)
}
