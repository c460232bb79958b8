// What a prepared call does, once its container is found and its status is known.

use container_table::Held;
use engine_text::{Bytes, Exec, Owner, Pairs, Policy, Script, Signal, Text, Until, Volume};
use machine_events::{EndMemory, Halting};

/// What a prepared call does.
#[derive(Drop)]
pub enum Plan {
    Nothing,
    Attach {
        number: u64,
    },
    Create {
        held: Held,
        volumes: Vec<Volume>,
    },
    EndTicket {
        ticket: u64,
    },
    ExecCreate {
        exec: Exec,
    },
    ExecStart {
        number: u64,
        script: Script,
        detach: bool,
    },
    Feed {
        owner: Owner,
        piece: Bytes,
    },
    FeedEnd {
        owner: Owner,
    },
    Halt {
        conn: u32,
        number: u64,
        halting: Halting,
        sent: Signal,
        seconds: i32,
        brought: EndMemory,
    },
    Kill {
        number: u64,
        sent: Signal,
        last: bool,
        brought: EndMemory,
    },
    KillRestarting {
        number: u64,
        sent: Signal,
    },
    Pause {
        number: u64,
    },
    Remove {
        number: u64,
        brought: EndMemory,
    },
    RemoveForced {
        conn: u32,
        number: u64,
        brought: EndMemory,
    },
    RemoveRestarting {
        number: u64,
        brought: EndMemory,
    },
    Rename {
        number: u64,
        name: Text,
    },
    Restart {
        number: u64,
        script: Option<Script>,
    },
    RestartRestarting {
        number: u64,
        script: Option<Script>,
    },
    Start {
        number: u64,
        script: Option<Script>,
    },
    StopRestarting {
        number: u64,
    },
    Unpause {
        number: u64,
        brought: EndMemory,
    },
    Update {
        number: u64,
        policy: Option<Policy>,
    },
    VolumeCreate {
        name: Text,
        labels: Pairs,
    },
    VolumeRemove {
        name: Text,
    },
    Wait {
        conn: u32,
        number: u64,
        until: Until,
    },
}
