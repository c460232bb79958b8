// Containers' references to volumes, by the places of these (own).
ghost use Rattle.std.specs.Prelude.{◌≡◌, ◌<◌, All, map, nat_eq, vec_capacity};
ghost use Rattle.std.specs.List.{list_any};
ghost use Rattle.volume_table.specs.VolumesInside.{moved_up, moved_down};

/// A container's reference to the volume at a place.
#[derive(Clone, Copy, Drop)]
pub struct Reference {
    pub place: usize,
    pub container: u64,
}

impl Reference {
    // Where a volume is put in at that place, of which so many stood.
    fn up(self, from: usize, count: usize) -> Reference
        requires { self.place < count }
        ensures { result ≡ moved_up from self }
    {
        let place = if from <= self.place {
            self.place + 1
        } else {
            self.place
        };
        Reference { place, ..self }
    }

    // Where the volume at that place is taken away.
    fn down(self, from: usize) -> Reference
        ensures { result ≡ moved_down from self }
    {
        let place = if from < self.place {
            self.place - 1
        } else {
            self.place
        };
        Reference { place, ..self }
    }
}

/// Makes way for a volume at that place, where so many stand.
pub fn move_up(references: &mut Vec<Reference>, from: usize, count: usize)
    requires { All (λ r. r.place < count) references.old.items }
    ensures items { references.new.items ≡ map (moved_up from) references.old.items }
    ensures capacity { vec_capacity references.new ≡ vec_capacity references.old }
{
    'references: for r in references.iter_mut() {
        *r = r.up(from, count);
    }
}

/// Closes the gap of the volume at that place.
pub fn move_down(references: &mut Vec<Reference>, from: usize)
    ensures items { references.new.items ≡ map (moved_down from) references.old.items }
    ensures capacity { vec_capacity references.new ≡ vec_capacity references.old }
{
    'references: for r in references.iter_mut() {
        *r = r.down(from);
    }
}

/// Whether one refers to the volume at that place.
pub fn is_referred(references: &[Reference], place: usize) -> bool
    ensures { result ≡ list_any (λ r. nat_eq r.place place) references.now }
{
    references.iter().any(|r| r.place == place)
}
