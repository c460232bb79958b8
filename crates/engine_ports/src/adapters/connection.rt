// A link over TCP to this machine alone.
ghost use Rattle.std.specs.Prelude.{◌≡◌};

use super::stream::{Half, halves, loopback};
use super::{ReadSource, StreamSink};
use crate::{Failed, Link};
use std::alloc::Global;
use std::net::{Net, TcpListener, TcpStream};

/// A link over TCP, to the loopback address alone. It tells neither connections nor addresses.
#[derive(Drop)]
pub struct TcpLink<R> {
    rt: R,
    alloc: Global,
    faults: u64,
}

impl<R> TcpLink<R> {
    ghost use Rattle.engine_ports.specs.Adapters.{link_over, untold_link};

    /// A link that leads nowhere yet.
    pub fn new(rt: R, alloc: Global) -> TcpLink<R>
        ensures { link_over result ≡ untold_link }
    {
        TcpLink {
            rt,
            alloc,
            faults: 0,
        }
    }
}

fn connected<R: Net<Listener = TcpListener, Stream = TcpStream>>(
    rt: &R,
    addr: &str,
) -> Option<TcpStream> {
    TcpStream::connect(rt, loopback(addr)?).ok()
}

impl<R: Net<Listener = TcpListener, Stream = TcpStream>> Link for TcpLink<R> {
    ghost use Rattle.engine_ports.specs.Adapters.{link_over};

    type From = ReadSource<Half>;

    type Into = StreamSink;

    ghost links = { link_over };

    fn connect(&mut self, addr: &str) -> Result<(ReadSource<Half>, StreamSink), Failed> {
        if let Some(stream) = connected(&self.rt, addr) {
            if let Some(made) = halves(self.alloc, stream) {
                return Ok(made);
            }
        }
        self.faults = self.faults.saturating_add(1);
        Err(Failed)
    }

    fn leave(&mut self, _: ReadSource<Half>, _: StreamSink) {}
}
