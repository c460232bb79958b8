// Plain lines of what was read.
use crate::short::Short;
use api_json::filter_word;
use engine_text::{CreateSpec, Filter, HealthSpec, Mounts, Pairs, Policy, Words};
use std::alloc::Global;

/// Words with a blank between each two.
pub fn words(alloc: Global, words: &Words) -> Result<String, Short> {
    Ok(words.as_slice().join(alloc, " ")?)
}

/// Pairs, as `KEY=VALUE` with a blank before each.
pub fn pairs(alloc: Global, pairs: &Pairs) -> Result<String, Short> {
    let mut told = String::new(alloc);
    for pair in pairs.as_slice() {
        write!(told, " {}={}", pair.key.as_str(), pair.value.as_str())?;
    }
    Ok(told)
}

// How a mount may be used.
fn access(read_only: bool) -> &'static str {
    if read_only { "ro" } else { "rw" }
}

// Mounts, as `VOLUME:TARGET:rw` with a blank before each.
fn mounts(alloc: Global, mounts: &Mounts) -> Result<String, Short> {
    let mut told = String::new(alloc);
    for mount in mounts.as_slice() {
        let access = access(mount.read_only);
        write!(
            told,
            " {}:{}:{access}",
            mount.volume.as_str(),
            mount.target.as_str()
        )?;
    }
    Ok(told)
}

/// Rows of a filter, as `KEY=VALUE,VALUE` with a blank before each.
pub fn filter(alloc: Global, filter: &Filter) -> Result<String, Short> {
    let mut told = String::new(alloc);
    for row in filter.as_slice() {
        let values = row.values.as_slice().join(alloc, ",")?;
        write!(told, " {}={values}", filter_word(row.key))?;
    }
    Ok(told)
}

// What a create asks for of the process.
fn process(alloc: Global, spec: &CreateSpec) -> Result<String, Short> {
    let words = words(alloc, &spec.words)?;
    Ok(format!(in alloc;
        "words {words}; policy {:?}; signal {}; seconds {}; stdin {}; once {}",
        spec.policy, spec.stop_signal.number, spec.stop_after, spec.open_stdin, spec.stdin_once
    )?)
}

// A health check; its times are milliseconds.
fn check(alloc: Global, health: &Option<HealthSpec>) -> Result<String, Short> {
    let Some(check) = health else {
        return Ok(String::new(alloc));
    };
    let words = words(alloc, &check.words)?;
    Ok(format!(in alloc;
        "; check {words} each {} within {} from {}, {} times",
        check.interval, check.timeout, check.start_period, check.retries
    )?)
}

// Whether it is removed by itself.
fn removal(auto_remove: bool) -> &'static str {
    if auto_remove {
        "; removed by itself"
    } else {
        ""
    }
}

/// The policy that an update gives.
pub fn policy(alloc: Global, policy: Option<Policy>) -> Result<String, Short> {
    match policy {
        None => Ok(format!(in alloc; "no policy")?),
        Some(policy) => Ok(format!(in alloc; "policy {policy:?}")?),
    }
}

/// What a create asks for.
pub fn spec(alloc: Global, spec: &CreateSpec) -> Result<String, Short> {
    let name = match &spec.name {
        Some(name) => name.as_str(),
        None => "(none)",
    };
    let process = process(alloc, spec)?;
    let labels = pairs(alloc, &spec.labels)?;
    let mounts = mounts(alloc, &spec.mounts)?;
    let check = check(alloc, &spec.health)?;
    Ok(format!(in alloc;
        "name {name}; image {}; {process}; labels{labels}; mounts{mounts}{}{check}",
        spec.image.as_str(),
        removal(spec.auto_remove)
    )?)
}
