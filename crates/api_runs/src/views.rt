// Bodies of answers, of what other bodies asked for.
ghost use Rattle.std.specs.Prelude.{◌≤◌};

use crate::line::owned;
use crate::short::Short;
use api_json::{
    ContainerView, ExecView, Refused, VolumeView, container_body, exec_body, list_body,
    read_create, read_exec, volume_body, volumes_body,
};
use engine_text::{CreateSpec, Listed, ListedVolume, NoMemory, Pairs, Signal, Status, Text, Words};
use std::alloc::Global;

fn inspect(alloc: Global, spec: &CreateSpec) -> Result<Text, NoMemory> {
    container_body(
        alloc,
        &ContainerView {
            id: "0123",
            name: "web",
            words: &spec.words,
            labels: &spec.labels,
            policy: &spec.policy,
            stop_signal: Signal { number: 15 },
            stop_after: spec.stop_after,
            open_stdin: spec.open_stdin,
            stdin_once: spec.stdin_once,
            mounts: &spec.mounts,
            created: 951_782_400_000,
            started: Some(1_700_000_000_700),
            finished: None,
            restarts: 2,
            status: Status::Paused,
            pid: 1_001,
            code: 1,
            auto_remove: spec.auto_remove,
            health: spec.health.as_ref(),
        },
    )
}

fn listed(id: Text, name: Text, spec: CreateSpec) -> Listed {
    Listed {
        number: 0,
        id,
        name,
        words: spec.words,
        status: Status::Exited,
        code: 137,
        created: 951_782_400_700,
        mounts: spec.mounts,
        labels: spec.labels,
    }
}

fn list_of_one(alloc: Global, spec: CreateSpec) -> Result<Text, NoMemory> {
    let id = Text::of(alloc, "0123")?;
    let name = Text::of(alloc, "web")?;
    list_body(alloc, &[listed(id, name, spec)])
}

fn exec(alloc: Global, words: &Words) -> Result<Text, NoMemory> {
    exec_body(
        alloc,
        &ExecView {
            id: "4567",
            container: "0123",
            words,
            stdin: true,
            out: true,
            err: false,
            live: true,
            pid: 1_002,
            code: None,
        },
    )
}

fn volume(alloc: Global, name: &str) -> Result<Text, NoMemory> {
    let labels = Pairs::new(alloc);
    let created = 951_782_400_000;
    volume_body(
        alloc,
        &VolumeView {
            name,
            labels: &labels,
            created,
        },
    )
}

fn volumes(alloc: Global, name: &str) -> Result<Text, NoMemory> {
    let listed = ListedVolume {
        name: Text::of(alloc, name)?,
        labels: Pairs::new(alloc),
        created: 951_782_400_000,
    };
    volumes_body(alloc, &[listed])
}

// The body of an answer of that kind; of what is none, or asks for nothing, the empty list.
fn body(alloc: Global, kind: &str, rest: &str) -> Result<Text, Refused> {
    match kind {
        "inspect" => Ok(inspect(alloc, &read_create(alloc, None, rest.as_bytes())?)?),
        "list" => Ok(list_of_one(alloc, read_create(alloc, None, rest.as_bytes())?)?),
        "exec" => Ok(exec(alloc, &read_exec(alloc, rest.as_bytes())?.words)?),
        "volume" => Ok(volume(alloc, rest)?),
        "volumes" => Ok(volumes(alloc, rest)?),
        _ => Ok(list_body(alloc, &[])?),
    }
}

/// The body of an answer of that kind.
pub fn told(alloc: Global, kind: &str, rest: &str) -> Result<String, Short> {
    match body(alloc, kind, rest) {
        Ok(text) => owned(alloc, text.as_str()),
        Err(Refused::BadBody(fault)) => owned(alloc, fault.text()),
        Err(Refused::NoMemory) => Err(Short),
    }
}
