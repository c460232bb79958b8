// A turn that asks for a part of a log.
ghost use Rattle.machine_model.specs.History.{state_after};
ghost use Rattle.daemon_core.specs.LogTurns.{LogSays};
ghost use Rattle.daemon_shared.specs.Sharing.{MakesPart};

use crate::one_daemon::OneDaemon;
use engine_text::LogSpec;
use session_model::Part;
use std::alloc::Global;
use turnstile::Job;

/// One part of a log that a connection asks for, behind what was told before.
#[derive(Drop)]
pub struct LogJob {
    pub alloc: Global,
    pub conn: u32,
    pub handed: u64,
    pub spec: LogSpec,
    pub place: u64,
    pub out: Vec<u8>,
}

impl Job<OneDaemon> for LogJob {
    type Answer = Part;

    ghost number = { λ j. j.conn };

    ghost may_meet = { λ j o h. Unit {0} };

    ghost may_answer = { λ j o h k a i.
        MakesPart o j.conn j.handed a
        (λ ch x. LogSays (state_after ch x) j.spec j.place a j.out.items i.out.items) h k };

    fn run(&mut self, value: &mut OneDaemon) -> Part {
        value.daemon.log_from(
            self.alloc,
            self.conn,
            self.handed,
            &self.spec,
            self.place,
            &mut self.out,
        )
    }
}
