// What is left of a connection behind a front.
ghost use Rattle.std.specs.Prelude.{◌≡◌};

use crate::reading::FrontSource;
use crate::sharing::SharedSink;
use crate::wiring::Ways;
use engine_ports::{Clock, Parting, Sink, Source};
use std::sync::Wait;
use std::time;

/// What is left of the connection itself.
#[derive(Drop)]
pub enum Left<P, T> {
    Parted(P),
    /// Its clock alone, where its sink wasn't there to be parted.
    Clock(T),
}

/// What is left of a connection behind a front, with the front's own counts.
#[derive(Drop)]
pub struct FrontPast<P, T> {
    pub(crate) left: Left<P, T>,
    read_faults: u64,
    ends: u64,
    write_faults: u64,
}

impl<'a, R, F: Source, I: Sink, T: Clock, P: Parting<F, I, T>> Parting<
    FrontSource<'a, R, F, SharedSink<'a, R, I>>,
    SharedSink<'a, R, I>,
    T,
> for FrontPast<P, T>
where
    R: Wait + time::Clock + Sync,
    F: Drop,
    I: Drop,
    T: Drop,
{
    ghost use Rattle.front_session.specs.Sharing.{past_over};

    ghost tells = { past_over P.tells T.times };

    // It may wait.
    fn part(
        from: FrontSource<'a, R, F, SharedSink<'a, R, I>>,
        into: SharedSink<'a, R, I>,
        time: T,
    ) -> Self {
        let FrontSource {
            ways,
            faults,
            ends,
            ..
        } = from;
        let Ways { source, .. } = ways;
        let left = match into.take() {
            Some(sink) => Left::Parted(P::part(source, sink, time)),
            None => Left::Clock(time),
        };
        FrontPast {
            left,
            read_faults: faults,
            ends,
            write_faults: into.faults,
        }
    }
}
