// A source that rings before it waits for more.
use crate::bell::Bell;
use engine_ports::{Got, Source};

/// The source below; whoever asks it for more has served what came before, so the bell is rung first.
#[derive(Drop)]
pub struct BellSource<'b, S> {
    bell: &'b Bell,
    source: S,
}

impl<'b, S> BellSource<'b, S> {
    ghost use Rattle.std.specs.Prelude.{◌≡◌};

    pub fn new(bell: &'b Bell, source: S) -> BellSource<'b, S>
        ensures { result.source ≡ source }
    {
        BellSource { bell, source }
    }

    /// The source below.
    pub(crate) fn into_source(self) -> S
        ensures { result ≡ self.entry.source }
    {
        let BellSource { source, .. } = self;
        source
    }
}

impl<S: Source + Drop> Source for BellSource<'_, S> {
    ghost gives = { λ s. S.gives s.source };

    fn read(&mut self, into: &mut [u8]) -> Got {
        self.bell.ring();
        self.source.read(into)
    }
}
