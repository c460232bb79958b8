// A turn that asks for a part of the stream of events.
ghost use Rattle.std.specs.Prelude.{◌≤◌, length};
ghost use Rattle.machine_model.specs.History.{events_of};
ghost use Rattle.daemon_core.specs.EventTurns.{EventsSay};
ghost use Rattle.daemon_shared.specs.Sharing.{charter_by, MakesPart};

use crate::one_daemon::OneDaemon;
use engine_text::Filter;
use session_model::Part;
use std::alloc::Global;
use turnstile::Job;

/// One part of the stream of events that a connection asks for, behind what was told before.
#[derive(Drop)]
pub struct EventJob<'c> {
    pub alloc: Global,
    pub conn: u32,
    pub handed: u64,
    pub place: u64,
    pub filter: &'c Filter,
    pub until: Option<u64>,
    pub out: Vec<u8>,
}

impl<'c> Job<OneDaemon> for EventJob<'c> {
    type Answer = Part;

    ghost number = { λ j. j.conn };

    ghost may_meet = { λ j o h. j.place ≤ length (events_of (charter_by o) h) };

    ghost may_answer = { λ j o h k a i.
        MakesPart o j.conn j.handed a
        (λ ch x. EventsSay ch x j.handed j.filter.now j.until j.place a j.out.items i.out.items)
        h k };

    fn run(&mut self, value: &mut OneDaemon) -> Part {
        value.daemon.events_from(
            self.alloc,
            self.conn,
            self.handed,
            self.place,
            &mut self.out,
            self.filter,
            self.until,
        )
    }
}
