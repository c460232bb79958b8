// The start of a main process.
ghost use Rattle.std.specs.Prelude.{◌≡◌, ◌<◌};
ghost use Rattle.machine_model.specs.Effects.Launch.{launch, launch_by_call};
ghost use Rattle.machine_events.specs.Fit.{CanLaunch};

use crate::tables::Tables;
use container_table::LifeChange;
use engine_text::Script;
use machine_model::CONTAINER_BYTES;

impl Tables {
    /// The container is launched, with the script of its words.
    pub fn launch(&mut self, number: u64, script: Option<Script>)
        requires fit { CanLaunch number script self.old.state }
        requires spare { 0 < self.old.spare }
        ensures state { self.new.state ≡ (launch number self.old.state).state }
        ensures room { self.new.room ≡ self.old.room }
    {
        let Some(h) = self.numbered(number) else {
            return;
        };
        let Some(script) = script else {
            return;
        };
        let stdin = h.container.life.open_stdin;
        let room = h.log.bytes_left(CONTAINER_BYTES);
        self.begin(number, script, stdin, room);
    }

    /// A launch by a call: first it is as after a create.
    pub fn launch_by_call(&mut self, number: u64, script: Option<Script>)
        requires fit { CanLaunch number script self.old.state }
        requires spare { 0 < self.old.spare }
        ensures state { self.new.state ≡ (launch_by_call number self.old.state).state }
        ensures room { self.new.room ≡ self.old.room }
    {
        self.renew(number, LifeChange::Afresh);
        self.launch(number, script);
    }
}
