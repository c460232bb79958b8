// What stands in a place where no container is.
ghost use Rattle.std.specs.Prelude.{◌≡◌};
ghost use Rattle.container_table.specs.Blank.{no_life, nothing_held};

use super::held::Held;
use engine_text::{
    Container, Goal, Life, Log, Mounts, OpenLog, Pairs, Policy, Signal, Status, Text, Words,
};
use std::alloc::Global;

/// A container without anything; it takes no memory.
pub fn blank(alloc: Global) -> Held
    ensures { result ≡ nothing_held }
{
    Held {
        container: Container {
            number: 0,
            id: Text::new(alloc),
            name: Text::new(alloc),
            life: blank_life(alloc),
        },
        log: OpenLog::new(alloc),
    }
}

/// A life without anything; it takes no memory.
pub fn blank_life(alloc: Global) -> Life
    ensures { result ≡ no_life }
{
    Life {
        words: Words::new(alloc),
        labels: Pairs::new(alloc),
        policy: Policy::No,
        stop_signal: Signal { number: 15 },
        stop_after: 0,
        open_stdin: false,
        stdin_once: false,
        mounts: Mounts::new(alloc),
        created: 0,
        started: None,
        finished: None,
        restarts: 0,
        status: Status::Created,
        pid: 0,
        code: 0,
        starts: 0,
        goal: Goal::None,
        delay: 0,
        manual: false,
        log: Log::new(alloc),
        auto_remove: false,
        health: None,
    }
}
