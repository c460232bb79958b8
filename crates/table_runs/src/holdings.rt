// Volumes by steps, and an exec in its table.
ghost use Rattle.std.specs.Prelude.{◌≡◌, ◌<◌};

use crate::line::{cut, number, owned};
use crate::short::Short;
use engine_text::{Exec, Pairs, Text, Words};
use exec_table::Execs;
use std::alloc::Global;
use volume_table::Volumes;

// Makes a volume of that name.
fn create(volumes: &mut Volumes, alloc: Global, name: &str) -> Result<String, Short> {
    let name = Text::of(alloc, name)?;
    volumes.reserve(alloc, 1)?;
    let made = volumes.create(name, Pairs::new(alloc), 0);
    Ok(format!(in alloc; "{made:?}")?)
}

// Container 0 refers to the volume of that name, if there is one.
fn refer(volumes: &mut Volumes, alloc: Global, name: &str) -> Result<String, Short> {
    volumes.reserve(alloc, 1)?;
    if volumes.find(name).is_none() {
        return owned(alloc, "none");
    }
    volumes.refer(name, 0);
    owned(alloc, "referred")
}

// What the step `WORD NAME` says.
fn step(volumes: &mut Volumes, alloc: Global, line: &str) -> Result<String, Short> {
    let (word, name) = line.split_once(' ').unwrap_or((line, ""));
    match word {
        "create" => create(volumes, alloc, name),
        "refer" => refer(volumes, alloc, name),
        "find" => Ok(format!(in alloc; "{}", volumes.find(name).is_some())?),
        "remove" => Ok(format!(in alloc; "{:?}", volumes.remove(name))?),
        "count" => Ok(format!(in alloc; "{}", volumes.list().count())?),
        _ => {
            volumes.release(0);
            owned(alloc, "released")
        }
    }
}

// What the steps of a line say, with a bar between each two, of a new table.
fn volumes(alloc: Global, rest: &str) -> Result<String, Short> {
    let mut volumes = Volumes::new(alloc);
    let mut told = String::new(alloc);
    for line in rest.split('|') {
        let said = step(&mut volumes, alloc, line)?;
        write!(told, "{said} | ")?;
    }
    Ok(told)
}

// An exec of that number, id and container.
fn exec_of(alloc: Global, n: u64, id: Text, container: u64) -> Exec
    ensures { result.id ≡ id }
{
    Exec {
        number: n,
        id,
        container,
        words: Words::new(alloc),
        stdin: false,
        out: true,
        err: false,
        started: false,
        pid: 0,
        code: None,
    }
}

// A table with the exec of `NUMBER|ID|CONTAINER`, asked by each of them.
fn exec(alloc: Global, rest: &str) -> Result<String, Short> {
    let (n, rest) = cut(rest);
    let (id, container) = cut(rest);
    let (n, container) = (number(n), number(container));
    let text = Text::of(alloc, id)?;
    let mut execs = Execs::new(alloc);
    execs.reserve(alloc, 1)?;
    execs.create(exec_of(alloc, n, text, container));
    Ok(format!(in alloc;
        "{} {} {}",
        execs.find(id).is_some(),
        execs.find_number(n).is_some(),
        execs.of_container(container).count()
    )?)
}

/// What is said of a table.
pub fn told(alloc: Global, kind: &str, rest: &str) -> Result<String, Short> {
    match kind {
        "volumes" => volumes(alloc, rest),
        "exec" => exec(alloc, rest),
        _ => owned(alloc, "no such kind"),
    }
}
