// Vectors of the journal, and of the moments that count.
ghost use Rattle.std.specs.Prelude.{◌≡◌};

use crate::answers::{last_answer, tells};
use crate::asking::requests;
use crate::running::{MOMENT, Ran, STDIO, run, run_client_over};
use crate::short::Short;
use daemon_core::{Alone, Daemon, Turns};
use engine_text::{Call, has_part};
use std::alloc::Global;
use std::str;
use std::sync::Wait;
use std::thread::Threads;

/// A container that hears no signal, started twice, and the journal.
const DEAF: &str = r#"POST /v1.43/containers/create?name=web {"Image":"engine/tools","Cmd":["deaf"]}
POST /v1.43/containers/web/start
POST /v1.43/containers/web/start
GET /engine/journal"#;

/// The line of the first start in that journal, behind its header and the create.
const SECOND: &str =
    r#"{"call":{"op":"start","ref":"web"},"conn":0,"dues":0,"moment":1700000000000,"reply":{"body":"","status":204}}"#;

/// A journal of three entries that is full.
pub fn a_full_journal_answers_503<R: Threads + Wait + Sync>(
    rt: &R,
    alloc: Global,
) -> Result<bool, Short> {
    let asked = r#"POST /v1.43/containers/create?name=web {"Image":"engine/tools","Cmd":["deaf"]}
POST /v1.43/containers/web/start
GET /v1.43/containers/web/json
GET /v1.43/containers/web/json
GET /_ping"#;
    let told = "201\n204\n200\n503 {\"message\":\"journal is full\"}\n200 OK";
    let input = requests(alloc, asked)?;
    let ran = run(
        rt,
        alloc,
        "--stdio --clock 1700000000000:0 --journal 3",
        &input,
    )?;
    Ok(ran.status == 0 && tells(alloc, ran.out.bytes(), told)?)
}

// What the client's `replay` says of a journal.
fn replayed<W: Wait>(rt: &W, alloc: Global, journal: &[u8]) -> Result<Ran, Short> {
    run_client_over(rt, alloc, "127.0.0.1:1 replay", journal, &[])
}

// What the client's `replay` says of a journal that was written by hand, cut, or isn't.
fn is_judged<W: Wait>(rt: &W, alloc: Global, journal: &str) -> Result<bool, Short> {
    let wrong = journal.replace(alloc, "\"status\":304", "\"status\":204")?;
    let cut = match journal.split_once(SECOND) {
        Some((front, behind)) => {
            format!(in alloc;
                "{front}{{\"call\":{{\"op\":\"start\",\"ref\":\"web\"}},\"conn\":0,\"dues\"{behind}"
            )?
        }
        None => return Ok(false),
    };
    let illegal = "illegal line 4\nkept {\"body\":\"\",\"status\":204}\n\
found {\"body\":\"\",\"status\":304}\n";
    Ok(
        replayed(rt, alloc, journal.as_bytes())?.is(0, b"legal 4\n")
            && replayed(rt, alloc, wrong.as_bytes())?.is(1, illegal.as_bytes())
            && replayed(rt, alloc, cut.as_bytes())?.is(3, b"bad line 3\n"),
    )
}

// Whether the journal as it was in format 1, without a header, becomes itself again.
fn is_upgraded<W: Wait>(rt: &W, alloc: Global, journal: &str) -> Result<bool, Short> {
    let Some((_, lines)) = journal.split_once('\n') else {
        return Ok(false);
    };
    let first = lines.replace(alloc, "\"auto\":false,\"health\":null,", "")?;
    let line = "127.0.0.1:1 replay --upgrade 1700000000000";
    Ok(run_client_over(rt, alloc, line, first.as_bytes(), &[])?.is(0, journal.as_bytes()))
}

/// The journal of three requests, replayed as it is, with another status, and cut; and upgraded.
pub fn a_journal_is_replayed<R: Threads + Wait + Sync>(
    rt: &R,
    alloc: Global,
) -> Result<bool, Short> {
    let input = requests(alloc, DEAF)?;
    let ran = run(rt, alloc, STDIO, &input)?;
    let Some(answer) = last_answer(alloc, ran.out.bytes())? else {
        return Ok(false);
    };
    let told = run_client_over(rt, alloc, "127.0.0.1:1 journal", b"", &[answer.as_bytes()])?;
    match str::from_utf8(told.out.bytes()) {
        Ok(journal) => Ok(
            journal.lines().count() == 4
                && is_judged(rt, alloc, journal)?
                && is_upgraded(rt, alloc, journal)?,
        ),
        Err(_) => Ok(false),
    }
}

// Whether the entry of the journal's line of that number was made at that moment.
fn is_made_at(alloc: Global, daemon: &Daemon, number: u64, moment: &str) -> Result<bool, Short> {
    let mut line = Vec::new(alloc);
    let _ = daemon.journal_from(alloc, number, &mut line);
    let part = format!(in alloc; "\"moment\":{moment},")?;
    Ok(has_part(&line, part.as_bytes()))
}

/// A handed moment before the last one, and one eight days ahead.
pub fn a_moment_never_goes_back(alloc: Global) -> Result<bool, Short> {
    let mut turns = Alone::new(Daemon::new(alloc, [0; 32], MOMENT, 16)?);
    let _ = turns.turn(alloc, 0, 0, Some(&Call::JournalRead));
    let _ = turns.turn(alloc, 0, 1_700_691_200_000, Some(&Call::JournalRead));
    let first = is_made_at(alloc, turns.daemon(), 1, "1700000000000");
    let second = is_made_at(alloc, turns.daemon(), 2, "1700604800000");
    turns.end();
    Ok(first? && second?)
}
