// A new container, and the volumes of its mounts.
ghost use Rattle.std.specs.Prelude.{◌≡◌, ℕ, ◌+◌, ◌<◌, ◌≤◌, ◌^◌, IfOk, OnOk, length, option_map, option_copied};
ghost use Rattle.engine_text.specs.Id.{id_of};
ghost use Rattle.machine_model.specs.Calls.Create.{add};
ghost use Rattle.machine_model.specs.Names.{chosen_name, holder};
ghost use Rattle.container_table.specs.Logs.{container_in};
ghost use Rattle.machine_events.specs.NewVolumes.{missing_volumes, CanAdd, HasAddRoom};

use crate::tables::Tables;
use container_table::Held;
use engine_text::{Mounts, NoMemory, Text, Volume, id_of};
use machine_events::{make_volumes, missing_volumes, refer_to};
use machine_tables::chosen_name;
use std::alloc::Global;

impl Tables {
    /// The number that the next container or exec gets.
    pub fn next_number(&self) -> u64
        ensures { result ≡ self.now.state.next_number }
    {
        self.next_number
    }

    /// The id of that number.
    pub fn id_numbered(&self, alloc: Global, number: u64) -> Result<Text, NoMemory>
        ensures { IfOk result (λ t. t ≡ id_of self.now.state.seed number) }
    {
        match str::from_utf8(&id_of(&self.seed, number)) {
            Ok(text) => Text::of(alloc, text),
            Err(_) => unreachable!(),
        }
    }

    /// The id of the next number.
    pub fn next_id(&self, alloc: Global) -> Result<Text, NoMemory>
        ensures { IfOk result (λ t. t ≡ id_of self.now.state.seed self.now.state.next_number) }
    {
        self.id_numbered(alloc, self.next_number)
    }

    /// The container that has the name.
    pub fn holder(&self, name: &str) -> Option<&Held>
        ensures { option_map container_in (option_copied result)
            ≡ holder name.now self.now.state.containers }
    {
        self.table.find_name(name)
    }

    /// The name that a create gives: the one that was asked for, or a free one.
    pub fn chosen_name(&self, alloc: Global, asked: &Option<Text>) -> Result<Text, NoMemory>
        requires { self.now.state.next_number < 2 ^ 63 }
        ensures { IfOk result (λ t. t
            ≡ chosen_name asked.now self.now.state.next_number self.now.state.containers) }
    {
        chosen_name(alloc, asked, self.next_number, &self.table)
    }

    /// The volumes of these mounts that don't stand, each once, made at the moment.
    pub fn missing_volumes(
        &self,
        alloc: Global,
        mounts: &Mounts,
        moment: u64,
    ) -> Result<Vec<Volume>, NoMemory>
        ensures { IfOk result
            (λ v. v.items ≡ missing_volumes moment mounts.now self.now.state.volumes) }
    {
        missing_volumes(alloc, &self.volumes, mounts.as_slice(), moment)
    }

    /// Makes room for a container more with so many mounts.
    pub fn make_add_room(&mut self, alloc: Global, mounts: usize) -> Result<(), NoMemory>
        ensures state { self.new.state ≡ self.old.state }
        ensures room { OnOk result (HasAddRoom mounts self.new) }
        ensures moments { self.new.room.moments ≡ self.old.room.moments }
    {
        self.table.reserve_containers(alloc, 1)?;
        self.volumes.reserve(alloc, mounts)
    }

    /// The container stands, after those volumes of its mounts that didn't.
    pub fn add(&mut self, held: Held, volumes: Vec<Volume>)
        requires { CanAdd (container_in held) volumes.items self.old }
        ensures state { self.new.state ≡ (add (container_in held) self.old.state).state }
        ensures room { self.new.room ≡ self.old.room }
    {
        make_volumes(&mut self.volumes, volumes);
        let number = held.container.number;
        refer_to(
            &mut self.volumes,
            held.container.life.mounts.as_slice(),
            number,
        );
        self.table.insert(held);
        self.next_number += 1;
    }
}
