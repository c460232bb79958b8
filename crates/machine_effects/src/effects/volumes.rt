// The volumes, and those that a call makes or takes away.
ghost use Rattle.std.specs.Prelude.{◌≡◌, ◌<◌, false, None, IsSome, OnOk, length, option_copied};
ghost use Rattle.machine_model.specs.Calls.Create.{make_volume, volume_named};
ghost use Rattle.machine_model.specs.Calls.Volumes.{is_in_use, without_volume};

use crate::tables::Tables;
use engine_text::{NoMemory, Pairs, Text, Volume};
use std::alloc::Global;

impl Tables {
    /// The volume of that name.
    pub fn volume(&self, name: &str) -> Option<&Volume>
        ensures { option_copied result ≡ volume_named name.now self.now.state }
    {
        self.volumes.find(name)
    }

    /// The volumes in byte order of names.
    pub fn volumes(&self) -> &[Volume]
        ensures { result.now ≡ self.now.state.volumes }
    {
        self.volumes.list().as_slice()
    }

    /// Whether a container refers to the volume of that name.
    pub fn is_used(&self, name: &str) -> bool
        ensures { result ≡ is_in_use name.now self.now.state }
    {
        self.volumes.is_used(name)
    }

    /// Makes room for a volume more.
    pub fn make_volume_room(&mut self, alloc: Global) -> Result<(), NoMemory>
        ensures state { self.new.state ≡ self.old.state }
        ensures room { OnOk result (length self.new.state.volumes < self.new.volumes) }
        ensures moments { self.new.room.moments ≡ self.old.room.moments }
    {
        self.volumes.reserve(alloc, 1)
    }

    /// A volume is made, whose name is free.
    pub fn make_volume(&mut self, name: Text, labels: Pairs)
        requires free { volume_named name self.old.state ≡ None }
        requires room { length self.old.state.volumes < self.old.volumes }
        ensures state { self.new.state ≡ (make_volume name labels self.old.state).state }
        ensures room { self.new.room ≡ self.old.room }
    {
        self.volumes.create(name, labels, self.clock);
    }

    /// The volume of that name is gone, to which no container refers.
    pub fn remove_volume(&mut self, name: &str)
        requires stands { IsSome (volume_named name.now self.old.state) }
        requires unused { is_in_use name.now self.old.state ≡ false }
        ensures state { self.new.state ≡ without_volume name.now self.old.state }
        ensures room { self.new.room ≡ self.old.room }
    {
        self.volumes.remove(name);
    }
}
