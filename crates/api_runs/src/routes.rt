// The classes of requests.
use crate::line::{cut, fill, owned, spelled};
use crate::short::Short;
use crate::shown;
use api_routes::{Class, DirectAnswer, DirectKind, Routes, Takeover};
use engine_ports::MemSource;
use engine_text::{AttachAsk, Call, Filter, LogAsk, Policy, Signal, Text};
use http_edge::{Next, RequestReader};
use std::alloc::Global;

// The class of the first request of these bytes, if there is one, as it is read in pieces of seven bytes, or of 4096 where it is long.
fn class_read(alloc: Global, bytes: &[u8]) -> Result<Option<Class>, Short> {
    let routes = Routes::new(alloc)?;
    let cut = if bytes.len() < 10_000 { 7 } else { 4096 };
    let mut source = MemSource::new(alloc, bytes, cut, &[])?;
    let mut reader = RequestReader::new(alloc)?;
    match reader.next(&mut source) {
        Next::Request(request) => Ok(Some(routes.classify(alloc, &request)?)),
        _ => Ok(None),
    }
}

// The bytes of the request of `TARGET|BODY`.
fn request_text(alloc: Global, method: &str, rest: &str) -> Result<String, Short> {
    let (target, body) = cut(rest);
    let length = body.len();
    Ok(format!(in alloc;
        "{method} {target} HTTP/1.1\r\nHost: x\r\nContent-Length: {length}\r\n\r\n{body}"
    )?)
}

// The word of a direct answer's kind.
fn kind_word(kind: DirectKind) -> &'static str {
    match kind {
        DirectKind::Message => "message",
        DirectKind::Json => "json",
        DirectKind::Plain => "plain",
    }
}

fn direct(alloc: Global, answer: &DirectAnswer) -> Result<String, Short> {
    let kind = kind_word(answer.kind);
    Ok(format!(in alloc; "{} {kind} {}", answer.status, answer.text.as_str())?)
}

// What is asked of a container.
fn plain(alloc: Global, what: &str, target: &Text) -> Result<String, Short> {
    Ok(format!(in alloc; "{what} of {}", target.as_str())?)
}

// A stop or a restart.
fn halt(
    alloc: Global,
    what: &str,
    target: &Text,
    wait: Option<i32>,
    signal: Option<Signal>,
) -> Result<String, Short> {
    Ok(format!(in alloc; "{what} of {}: {wait:?}, {signal:?}", target.as_str())?)
}

fn removal(alloc: Global, target: &Text, force: bool) -> Result<String, Short> {
    Ok(format!(in alloc; "removal of {}: {force}", target.as_str())?)
}

fn update(alloc: Global, target: &Text, policy: Option<Policy>) -> Result<String, Short> {
    let policy = shown::policy(alloc, policy)?;
    Ok(format!(in alloc; "update of {}: {policy}", target.as_str())?)
}

fn list(alloc: Global, all: bool, limit: Option<u32>, filter: &Filter) -> Result<String, Short> {
    let rows = shown::filter(alloc, filter)?;
    Ok(format!(in alloc; "list: {all}, {limit:?}, rows{rows}")?)
}

// A call that was asked for.
fn call(alloc: Global, call: &Call) -> Result<String, Short> {
    match call {
        Call::Create(spec) => shown::spec(alloc, spec),
        Call::Start { target } => plain(alloc, "start", target),
        Call::Inspect { target } => plain(alloc, "inspect", target),
        Call::Stop {
            target,
            wait,
            signal,
        } => halt(alloc, "stop", target, *wait, *signal),
        Call::Restart {
            target,
            wait,
            signal,
        } => halt(alloc, "restart", target, *wait, *signal),
        Call::Update { target, policy } => update(alloc, target, *policy),
        Call::Remove { target, force } => removal(alloc, target, *force),
        Call::List { all, limit, filter } => list(alloc, *all, *limit, filter),
        _ => owned(alloc, "another call"),
    }
}

fn log(alloc: Global, target: &Text, ask: LogAsk, takeover: Takeover) -> Result<String, Short> {
    Ok(format!(in alloc; "log of {}: {takeover:?}, {ask:?}", target.as_str())?)
}

fn attach(
    alloc: Global,
    target: &Text,
    ask: AttachAsk,
    takeover: Takeover,
) -> Result<String, Short> {
    Ok(format!(in alloc; "attach to {}: {takeover:?}, {ask:?}", target.as_str())?)
}

fn exec_start(alloc: Global, id: &Text, detach: bool, takeover: Takeover) -> Result<String, Short> {
    Ok(format!(in alloc; "start of exec {}: {takeover:?}, {detach}", id.as_str())?)
}

fn events(
    alloc: Global,
    since: Option<u64>,
    until: Option<u64>,
    filter: &Filter,
    takeover: Takeover,
) -> Result<String, Short> {
    let rows = shown::filter(alloc, filter)?;
    Ok(format!(in alloc; "events: {takeover:?}, {since:?}, {until:?}, rows{rows}")?)
}

fn journal(alloc: Global, takeover: Takeover) -> Result<String, Short> {
    Ok(format!(in alloc; "journal: {takeover:?}")?)
}

// A stream that was asked for.
fn stream(alloc: Global, call: &Call, takeover: Takeover) -> Result<String, Short> {
    match call {
        Call::Logs { target, ask } => log(alloc, target, *ask, takeover),
        Call::Events {
            since,
            until,
            filter,
        } => events(alloc, *since, *until, filter, takeover),
        Call::JournalRead => journal(alloc, takeover),
        Call::Attach { target, ask } => attach(alloc, target, *ask, takeover),
        Call::ExecStart { id, detach } => exec_start(alloc, id, *detach, takeover),
        _ => owned(alloc, "another stream"),
    }
}

fn class(alloc: Global, class: &Class) -> Result<String, Short> {
    match class {
        Class::Direct(answer) => direct(alloc, answer),
        Class::Ask(asked) => call(alloc, asked),
        Class::Stream(asked, takeover) => stream(alloc, asked, *takeover),
    }
}

// What the bytes of a request ask for.
fn asked(alloc: Global, bytes: &[u8]) -> Result<String, Short> {
    match class_read(alloc, bytes)? {
        Some(read) => class(alloc, &read),
        None => owned(alloc, "no request"),
    }
}

// The bytes of a request to a target that is filled as `COUNT|PIECE|BEFORE|AFTER` says.
fn long_target(alloc: Global, method: &str, rest: &str) -> Result<String, Short> {
    let target = fill(alloc, rest)?;
    request_text(alloc, method, target.as_str())
}

// The bytes of one with a filled body, of `TARGET|COUNT|PIECE|BEFORE|AFTER`.
fn long_body(alloc: Global, rest: &str) -> Result<String, Short> {
    let (target, rest) = cut(rest);
    let body = fill(alloc, rest)?;
    let field = format!(in alloc; "{target}|{}", body.as_str())?;
    request_text(alloc, "POST", field.as_str())
}

// What is told of long requests: a text of more than 300 bytes by its front and how many bytes it has.
fn shortened(alloc: Global, told: &str) -> Result<String, Short> {
    match told.split_at_checked(100) {
        Some((front, rest)) if 200 < rest.len() => {
            Ok(format!(in alloc; "{front}.. of {} bytes", told.len())?)
        }
        _ => owned(alloc, told),
    }
}

// The bytes of a request: one that is spelled, one that is long, or that of a method, a target and a body.
fn text_of(alloc: Global, method: &str, rest: &str) -> Result<String, Short> {
    match method {
        "spelled" => spelled(alloc, rest),
        "long GET" => long_target(alloc, "GET", rest),
        "long POST" => long_target(alloc, "POST", rest),
        "long body" => long_body(alloc, rest),
        _ => request_text(alloc, method, rest),
    }
}

/// What a request asks for.
pub fn told(alloc: Global, method: &str, rest: &str) -> Result<String, Short> {
    let text = text_of(alloc, method, rest)?;
    let told = asked(alloc, text.as_bytes())?;
    shortened(alloc, told.as_str())
}
