// Volumes in byte order of names (Docker Engine API v1.43, VolumeList).
ghost use Rattle.std.specs.Prelude.{◌≡◌};
ghost use Rattle.std.specs.Iterator.{YieldsFirstRef, item_count};

use engine_text::Volume;
use std::marker::Model;

/// An iterator over volumes, seen as the list of those to come.
#[derive(Drop)]
pub struct VolumeListing<'a> {
    rest: &'a [Volume],
}

impl<'a> Model for VolumeListing<'a> {
    ghost use Rattle.std.specs.Prelude.{List};
    ghost use Rattle.engine_text.specs.declared.volume.Volume.{Volume as AVolume};

    ghost Value = { List AVolume };

    ghost view = { λ l. l.rest.now };
}

impl<'a> VolumeListing<'a> {
    /// These volumes.
    pub(crate) fn of(volumes: &'a [Volume]) -> VolumeListing<'a>
        ensures { result ≡ volumes.now }
    {
        VolumeListing { rest: volumes }
    }

    /// Those to come.
    pub fn as_slice(&self) -> &'a [Volume]
        ensures { result.now ≡ self.now }
    {
        self.rest
    }
}

impl<'a> Iterator for VolumeListing<'a> {
    type Item = &'a Volume;

    ghost next_gives = { YieldsFirstRef (λ l. l) };

    ghost remaining = { item_count (λ l. l) };

    fn next(&mut self) -> Option<&'a Volume> {
        let (first, others) = self.rest.split_first()?;
        self.rest = others;
        Some(first)
    }
}
