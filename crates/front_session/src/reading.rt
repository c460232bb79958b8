// A connection's source, as its session sees it.
ghost use Rattle.std.specs.Prelude.{◌≡◌};
ghost use Rattle.engine_ports.specs.Source.{untold_source};
ghost use Rattle.front_session.specs.Showing.{shown_by};
ghost use Rattle.front_session.specs.Views.{source_over};

use crate::fronting::read_on;
use crate::sharing::Showing;
use crate::stepping::FrontState;
use crate::wiring::Ways;
use engine_ports::{Got, Source};
use lab_shown::{Asked, asked_by};
use std::sync::Wait;

/// A connection's source as its session sees it: the requests of the table are answered through the sink, once the
/// session asks for bytes behind those before them; all else is handed on, of one request at most at once.
#[derive(Drop)]
pub struct FrontSource<'a, R, S, K> {
    rt: &'a R,
    pub(crate) ways: Ways<S, K>,
    front: FrontState,
    pub(crate) faults: u64,
    pub(crate) ends: u64,
}

impl<'a, R, S, K> FrontSource<'a, R, S, K> {
    /// A source behind a front. It takes no memory.
    pub fn new(rt: &'a R, front: FrontState, source: S, sink: K) -> FrontSource<'a, R, S, K>
        ensures source { result.ways.source ≡ source }
        ensures sink { result.ways.sink ≡ sink }
        ensures front { result.front ≡ front }
        ensures counts { source_over result ≡ untold_source }
    {
        FrontSource {
            rt,
            ways: Ways { source, sink },
            front,
            faults: 0,
            ends: 0,
        }
    }
}

/// By what the next piece is shown, behind these bytes that a front handed on.
fn shown_by(front: &FrontState, bytes: &[u8]) -> Option<Asked>
    ensures { result ≡ shown_by front.now.stage bytes.now }
{
    if front.is_open() {
        return None;
    }
    asked_by(bytes)
}

impl<R: Wait + Sync, S: Source, K: Showing> Source for FrontSource<'_, R, S, K> {
    ghost use Rattle.std.specs.Prelude.{◌<◌, length};
    ghost use Rattle.engine_ports.specs.Source.{ReadSays};
    ghost use Rattle.front_session.specs.Reads.{FrontReads};
    ghost use Rattle.front_session.specs.Views.{whole_of, source_over};

    ghost gives = { source_over };

    // It may wait.
    fn read(&mut self, into: &mut [u8]) -> Got
        requires { 0 < length into.old }
        ensures says { ReadSays result into.new (source_over self.old) (source_over self.new) }
        ensures fronts { FrontReads result into.new (whole_of S.gives K.takes self.old)
            (whole_of S.gives K.takes self.new) }
    {
        match read_on(self.rt, &mut self.ways, &mut self.front, into) {
            Got::Bytes(count) => {
                if let Some(asked) = shown_by(&self.front, &into[..count]) {
                    self.ways.sink.expect(asked, &into[..count]);
                }
                Got::Bytes(count)
            }
            Got::End => {
                self.ends = self.ends.saturating_add(1);
                Got::End
            }
            Got::Failed => {
                self.faults = self.faults.saturating_add(1);
                Got::Failed
            }
        }
    }
}
