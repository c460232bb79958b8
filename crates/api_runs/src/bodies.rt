// Bodies that are read or refused.
use crate::line::{cut, owned};
use crate::short::Short;
use crate::shown;
use api_json::{
    ExecSpec, Refused, VolumeSpec, read_create, read_exec, read_exec_start, read_filter,
    read_update, read_volume,
};
use engine_text::FilterKey;
use std::alloc::Global;

// The text of a refusal.
fn refusal(alloc: Global, refused: Refused) -> Result<String, Short> {
    match refused {
        Refused::BadBody(fault) => owned(alloc, fault.text()),
        Refused::NoMemory => Err(Short),
    }
}

// The create of `NAME|BODY`; an empty name is none.
fn create(alloc: Global, rest: &str) -> Result<String, Short> {
    let (name, body) = cut(rest);
    let name = if name.is_empty() { None } else { Some(name) };
    match read_create(alloc, name, body.as_bytes()) {
        Ok(spec) => shown::spec(alloc, &spec),
        Err(refused) => refusal(alloc, refused),
    }
}

// What an exec asks for.
fn exec_shown(alloc: Global, spec: &ExecSpec) -> Result<String, Short> {
    let words = shown::words(alloc, &spec.words)?;
    Ok(format!(in alloc;
        "words {words}; stdin {}; stdout {}; stderr {}",
        spec.stdin, spec.out, spec.err
    )?)
}

fn exec(alloc: Global, body: &str) -> Result<String, Short> {
    match read_exec(alloc, body.as_bytes()) {
        Ok(spec) => exec_shown(alloc, &spec),
        Err(refused) => refusal(alloc, refused),
    }
}

fn exec_start(alloc: Global, body: &str) -> Result<String, Short> {
    match read_exec_start(alloc, body.as_bytes()) {
        Ok(detach) => owned(alloc, if detach { "detached" } else { "attached" }),
        Err(refused) => refusal(alloc, refused),
    }
}

// What a volume's create asks for.
fn volume_shown(alloc: Global, spec: &VolumeSpec) -> Result<String, Short> {
    let labels = shown::pairs(alloc, &spec.labels)?;
    Ok(format!(in alloc; "name {}; labels{labels}", spec.name.as_str())?)
}

fn volume(alloc: Global, body: &str) -> Result<String, Short> {
    match read_volume(alloc, body.as_bytes()) {
        Ok(spec) => volume_shown(alloc, &spec),
        Err(refused) => refusal(alloc, refused),
    }
}

// The filter of a body, where these keys are known.
fn filter(alloc: Global, body: &str, keys: &[FilterKey]) -> Result<String, Short> {
    match read_filter(alloc, body, keys) {
        Ok(filter) => {
            let rows = shown::filter(alloc, &filter)?;
            Ok(format!(in alloc; "rows{rows}")?)
        }
        Err(refused) => refusal(alloc, refused),
    }
}

fn update(alloc: Global, body: &str) -> Result<String, Short> {
    match read_update(alloc, body.as_bytes()) {
        Ok(policy) => shown::policy(alloc, policy),
        Err(refused) => refusal(alloc, refused),
    }
}

/// What is said of a body of that kind.
pub fn told(alloc: Global, kind: &str, rest: &str) -> Result<String, Short> {
    match kind {
        "create" => create(alloc, rest),
        "exec" => exec(alloc, rest),
        "exec start" => exec_start(alloc, rest),
        "update" => update(alloc, rest),
        "volume" => volume(alloc, rest),
        "filter by name" => filter(alloc, rest, &[FilterKey::Name]),
        "filter" => filter(alloc, rest, &[FilterKey::Name, FilterKey::Label]),
        _ => owned(alloc, "no such kind"),
    }
}
