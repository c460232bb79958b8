// What a line of `dockc` asks for.
use engine_text::{Text, Words};

/// A restart policy as it is written: its name, and how often it is tried again at most.
#[derive(Drop)]
pub struct Restart {
    pub policy: Text,
    pub most: u64,
}

/// A container that is to be created.
#[derive(Drop)]
pub struct NewContainer {
    pub name: Option<Text>,
    pub restart: Option<Restart>,
    /// Its standard input is open, for one attach.
    pub input: bool,
    /// VOLUME:PATH or VOLUME:PATH:ro, in order.
    pub binds: Words,
    pub image: Text,
    pub words: Words,
}

/// A command with its words.
#[derive(Drop)]
pub enum Command {
    Create {
        container: NewContainer,
    },
    Run {
        container: NewContainer,
        remove: bool,
    },
    Start {
        target: Text,
    },
    Pause {
        target: Text,
    },
    Unpause {
        target: Text,
    },
    Stop {
        target: Text,
        seconds: Option<Text>,
    },
    Restart {
        target: Text,
        seconds: Option<Text>,
    },
    Kill {
        target: Text,
        signal: Option<Text>,
    },
    Remove {
        target: Text,
        force: bool,
    },
    Rename {
        target: Text,
        name: Text,
    },
    Update {
        target: Text,
        restart: Restart,
    },
    List {
        all: bool,
    },
    Inspect {
        target: Text,
    },
    Version,
    Logs {
        target: Text,
        follow: bool,
    },
    Attach {
        target: Text,
    },
    Exec {
        target: Text,
        words: Words,
        input: bool,
    },
    Wait {
        target: Text,
    },
    Events {
        since: Text,
        until: Text,
    },
    Watch {
        until: Text,
    },
    Health {
        until: Text,
        target: Text,
    },
    VolumeCreate {
        name: Text,
    },
    VolumeInspect {
        name: Text,
    },
    VolumeRemove {
        name: Text,
    },
    VolumeList,
    Journal,
    Replay {
        upgrade: bool,
        seed: [u8; 32],
        moment: u64,
    },
}

/// A line: where the daemon listens, and the command.
#[derive(Drop)]
pub struct Line {
    pub address: Text,
    pub command: Command,
}
