// The body of a create (Docker Engine API v1.43, ContainerCreate).
ghost use Rattle.std.specs.Prelude.{◌≡◌, IfOk, OnErr, option_copied, option_map};
ghost use Rattle.serde_json.specs.View.{view, members_view};
ghost use Rattle.api_json.specs.Fault.{Answers};
ghost use Rattle.api_json.specs.Create as spec;

use super::fault::{BodyFault, BodyKey, Refused};
use super::fields::{field, flag, needed_text, read_body, text_field, unset_flag, whole_field};
use super::health::read_health;
use super::host_config::read_host;
use super::lists::{join_words, read_labels, words_field};
use engine_text::{CreateSpec, NoMemory, Signal, Text, Words, read_signal};
use serde_json::{Map, Value};
use std::alloc::Global;

/// SIGTERM, by which a container is stopped unless it says otherwise.
const SIGTERM: u8 = 15;

/// Seconds before a stop kills, unless a container says otherwise.
const STOP_SECONDS: i64 = 10;

/// The most seconds before a stop kills.
const MOST_SECONDS: i64 = 2_147_483;

/// How a container's standard input is held.
#[derive(Clone, Copy, Drop)]
pub struct Console {
    pub open_stdin: bool,
    pub stdin_once: bool,
}

/// How a container is stopped: by which signal, and after how many seconds it is killed.
#[derive(Clone, Copy, Drop)]
pub struct Stop {
    pub signal: Signal,
    pub after: i32,
}

// The words of the entry point, and then those of the command.
fn read_command(alloc: Global, body: &Value) -> Result<Words, Refused>
    ensures { Answers (spec.words_of (view body.now)) result }
{
    let entry = words_field(alloc, body, BodyKey::Entrypoint)?;
    let command = words_field(alloc, body, BodyKey::Cmd)?;
    Ok(join_words(alloc, entry, command.as_slice())?)
}

// No terminal, and how standard input is held.
fn read_console(body: &Value) -> Result<Console, BodyFault>
    ensures { result ≡ spec.console_of (view body.now) }
{
    unset_flag(body, BodyKey::Tty, BodyFault::TtyLeftOut)?;
    let open_stdin = flag(body, BodyKey::OpenStdin)?;
    let stdin_once = flag(body, BodyKey::StdinOnce)?;
    Ok(Console {
        open_stdin,
        stdin_once,
    })
}

// The signal of a text; an absent or an empty one is SIGTERM.
fn signal_in(name: Option<&str>) -> Option<Signal>
    ensures { result ≡ spec.signal_in (option_copied name.entry) }
{
    match name {
        None | Some("") => Some(Signal { number: SIGTERM }),
        Some(name) => read_signal(name),
    }
}

// Seconds from -1 to the most; 10 where absent.
fn seconds_in(seconds: Option<i64>) -> Option<i32>
    ensures { result ≡ spec.seconds_in seconds }
{
    let seconds = seconds.unwrap_or(STOP_SECONDS);
    if seconds < -1 || seconds > MOST_SECONDS {
        return None;
    }
    Some(seconds as i32)
}

// How the container is stopped.
fn read_stop(body: &Value) -> Result<Stop, BodyFault>
    ensures { result ≡ spec.stop_of (view body.now) }
{
    let name = text_field(body, BodyKey::StopSignal)?;
    let signal = signal_in(name).ok_or(BodyFault::BadField(BodyKey::StopSignal))?;
    let seconds = whole_field(body, BodyKey::StopTimeout)?;
    let after = seconds_in(seconds).ok_or(BodyFault::BadField(BodyKey::StopTimeout))?;
    Ok(Stop { signal, after })
}

// That an object has no members.
fn check_no_members(map: &Map<String, Value>) -> Result<bool, BodyFault>
    ensures { result ≡ spec.no_members_or_fault (members_view map.now.entries) }
{
    if map.is_empty() {
        Ok(true)
    } else {
        Err(BodyFault::AnonymousVolumes)
    }
}

// Anonymous volumes are left out.
fn check_volumes(body: &Value) -> Result<bool, BodyFault>
    ensures { result ≡ spec.no_volumes (view body.now) }
{
    let Some(value) = field(body, BodyKey::Volumes) else {
        return Ok(true);
    };
    match value.as_object() {
        None => Err(BodyFault::BadField(BodyKey::Volumes)),
        Some(map) => check_no_members(map),
    }
}

// The name of a create, kept as it was given.
fn copy_name(alloc: Global, name: Option<&str>) -> Result<Option<Text>, NoMemory>
    ensures { IfOk result (λ kept. kept ≡ option_copied name.entry) }
{
    match name {
        None => Ok(None),
        Some(name) => Ok(Some(Text::of(alloc, name)?)),
    }
}

// What the object of a create asks.
fn create_in(alloc: Global, name: Option<&str>, body: &Value) -> Result<CreateSpec, Refused>
    ensures { Answers (spec.create_in (option_copied name.entry) (view body.now)) result }
{
    let image = needed_text(body, BodyKey::Image)?;
    let words = read_command(alloc, body)?;
    let console = read_console(body)?;
    let stop = read_stop(body)?;
    let labels = read_labels(alloc, body)?;
    check_volumes(body)?;
    let host = read_host(alloc, body)?;
    let health = read_health(alloc, body)?;
    let name = copy_name(alloc, name)?;
    let image = Text::of(alloc, image)?;
    Ok(CreateSpec {
        name,
        image,
        words,
        policy: host.policy,
        stop_signal: stop.signal,
        stop_after: stop.after,
        open_stdin: console.open_stdin,
        stdin_once: console.stdin_once,
        labels,
        mounts: host.mounts,
        auto_remove: host.auto_remove,
        health,
    })
}

/// Reads the body of a create: the fields that are read, in their order, are `Image`, `Entrypoint`,
/// `Cmd`, `Tty`, `OpenStdin`, `StdinOnce`, `StopSignal`, `StopTimeout`, `Labels`, `Volumes`,
/// `HostConfig` and `Healthcheck`; others are passed over. The first fault is told. The name is kept
/// as it was given.
#[tactic(auto, unfolding(crate::specs::Create::create_of))]
pub fn read_create(alloc: Global, name: Option<&str>, body: &[u8]) -> Result<CreateSpec, Refused>
    ensures { Answers (spec.create_of (option_copied name.entry) body.now) result }
{
    let body = read_body(alloc, body)?;
    create_in(alloc, name, &body)
}
