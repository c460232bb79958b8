// A turn that asks for a part of the journal.
ghost use Rattle.daemon_shared.specs.Sharing.{LooksAt};

use crate::one_daemon::OneDaemon;
use session_model::Part;
use std::alloc::Global;
use turnstile::Job;

/// One part of the journal that a connection asks for, behind what was told before.
#[derive(Drop)]
pub struct JournalJob {
    pub alloc: Global,
    pub conn: u32,
    pub place: u64,
    pub out: Vec<u8>,
}

impl Job<OneDaemon> for JournalJob {
    type Answer = Part;

    ghost number = { λ j. j.conn };

    ghost may_meet = { λ j o h. Unit {0} };

    ghost may_answer = { λ j o h k a i. LooksAt o j.place a j.out.items i.out.items h k };

    fn run(&mut self, value: &mut OneDaemon) -> Part {
        value
            .daemon
            .journal_from(self.alloc, self.place, &mut self.out)
    }
}
