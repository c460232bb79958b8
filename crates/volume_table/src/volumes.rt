// The table of volumes (Docker Engine API v1.43, VolumeCreate, VolumeInspect, VolumeDelete).
ghost use Rattle.std.specs.Prelude.{◌≡◌, ◌+◌, ◌<◌, ◌≤◌, [], ◌∷◌, ◌++◌, IfErr, IsSome, OnOk, position, length};
ghost use Rattle.std.specs.Option.{option_copied};
ghost use Rattle.std.specs.Result.{result_ok};
ghost use Rattle.std.specs.List.Sorted.{IsStrictlySortedBy};
ghost use Rattle.volume_table.specs.Volumes.{by_name, is_named, volume_named, new_volume, creation, after_creation, use_of, is_in_use, released, removal, after_removal};
ghost use Rattle.volume_table.specs.VolumesInside.{IsGapFor};

use super::answers::{Made, Removed};
use super::listing::VolumeListing;
use super::references::{Reference, is_referred, move_down, move_up};
use engine_text::{NoMemory, Pairs, Text, Volume};
use std::alloc::Global;
use std::marker::Model;

/// Volumes in byte order of names and the containers that refer to them, seen beside the room that
/// was made for both.
#[derive(Drop)]
pub struct Volumes {
    volumes: Vec<Volume>,
    references: Vec<Reference>,
}

impl Model for Volumes {
    ghost use Rattle.volume_table.specs.Volumes.{VolumeTable};

    ghost Value = { VolumeTable };

    ghost use Rattle.volume_table.specs.VolumesInside.{table_inside, IsSoundTable};

    ghost view = { table_inside };

    ghost invariant = { IsSoundTable };
}

/// Where the volume of that name stands, or has its place, found by halving.
fn place_of(volumes: &[Volume], name: &str) -> Result<usize, usize>
    requires { IsStrictlySortedBy by_name volumes.now }
    ensures found { result_ok result ≡ position (is_named name.now) volumes.now }
    ensures free { IfErr result (IsGapFor name.now volumes.now) }
{
    volumes.binary_search_by(|v| v.name.as_str().cmp(&name))
}

impl Volumes {
    /// No volumes and no references; it takes no memory.
    pub fn new(alloc: Global) -> Volumes
        ensures volumes { result.volumes ≡ [] }
        ensures uses { result.uses ≡ [] }
    {
        Volumes {
            volumes: Vec::new(alloc),
            references: Vec::new(alloc),
        }
    }

    /// Makes room for so many more volumes, and as many more references.
    pub fn reserve(&mut self, _alloc: Global, n: usize) -> Result<(), NoMemory>
        ensures volumes { self.new.volumes ≡ self.old.volumes }
        ensures uses { self.new.uses ≡ self.old.uses }
        ensures room { OnOk result (length self.new.volumes + n ≤ self.new.room) }
        ensures use_room { OnOk result (length self.new.uses + n ≤ self.new.use_room) }
        ensures keeps_room { self.old.room ≤ self.new.room }
        ensures keeps_use_room { self.old.use_room ≤ self.new.use_room }
    {
        if self.volumes.reserve(n).is_err() || self.references.reserve(n).is_err() {
            return Err(NoMemory);
        }
        Ok(())
    }

    /// Makes a volume, unless one of that name stands; there was room for it.
    pub fn create(&mut self, name: Text, labels: Pairs, moment: u64) -> Made
        requires { length self.old.volumes < self.old.room }
        ensures answer { result ≡ creation (volume_named name self.old.volumes) }
        ensures volumes { self.new.volumes
            ≡ after_creation result (new_volume name labels moment) self.old.volumes }
        ensures uses { self.new.uses ≡ self.old.uses }
        ensures room { self.new.room ≡ self.old.room }
        ensures use_room { self.new.use_room ≡ self.old.use_room }
    {
        let Err(place) = place_of(self.volumes.as_slice(), name.as_str()) else {
            return Made::Stood;
        };
        let count = self.volumes.len();
        move_up(&mut self.references, place, count);
        let volume = Volume {
            name,
            labels,
            created: moment,
        };
        let _ = self.volumes.insert(place, volume);
        Made::New
    }

    /// The volume of that name, found by halving.
    pub fn find(&self, name: &str) -> Option<&Volume>
        ensures { option_copied result ≡ volume_named name.now self.now.volumes }
    {
        match place_of(self.volumes.as_slice(), name) {
            Ok(i) => Some(&self.volumes[i]),
            Err(_) => None,
        }
    }

    /// Whether a container refers to the volume of that name.
    pub fn is_used(&self, name: &str) -> bool
        ensures { result ≡ is_in_use name.now self.now.uses }
    {
        match place_of(self.volumes.as_slice(), name) {
            Ok(place) => is_referred(self.references.as_slice(), place),
            Err(_) => false,
        }
    }

    /// Takes a volume away, unless a container refers to it.
    pub fn remove(&mut self, name: &str) -> Removed
        ensures answer { result
            ≡ removal (volume_named name.now self.old.volumes) (is_in_use name.now self.old.uses) }
        ensures volumes { self.new.volumes ≡ after_removal result name.now self.old.volumes }
        ensures uses { self.new.uses ≡ self.old.uses }
        ensures room { self.new.room ≡ self.old.room }
        ensures use_room { self.new.use_room ≡ self.old.use_room }
    {
        let Ok(place) = place_of(self.volumes.as_slice(), name) else {
            return Removed::Missing;
        };
        if is_referred(self.references.as_slice(), place) {
            return Removed::InUse;
        }
        move_down(&mut self.references, place);
        self.volumes.remove(place);
        Removed::Ok
    }

    /// A container refers to the volume of that name; there was room for the reference.
    pub fn refer(&mut self, name: &str, container: u64)
        requires stands { IsSome (volume_named name.now self.old.volumes) }
        requires room { length self.old.uses < self.old.use_room }
        ensures uses { self.new.uses ≡ self.old.uses ++ use_of name.now container ∷ [] }
        ensures volumes { self.new.volumes ≡ self.old.volumes }
        ensures room { self.new.room ≡ self.old.room }
        ensures use_room { self.new.use_room ≡ self.old.use_room }
    {
        if let Ok(place) = place_of(self.volumes.as_slice(), name) {
            self.references
                .push_reserved(Reference { place, container });
        }
    }

    /// Takes a container's references away.
    pub fn release(&mut self, container: u64)
        ensures uses { self.new.uses ≡ released container self.old.uses }
        ensures volumes { self.new.volumes ≡ self.old.volumes }
        ensures room { self.new.room ≡ self.old.room }
        ensures use_room { self.new.use_room ≡ self.old.use_room }
    {
        self.references.retain(|r| r.container != container);
    }

    /// The volumes in byte order of names.
    pub fn list(&self) -> VolumeListing<'_>
        ensures all { result ≡ self.now.volumes }
        ensures ordered { IsStrictlySortedBy by_name self.now.volumes }
    {
        VolumeListing::of(self.volumes.as_slice())
    }
}
