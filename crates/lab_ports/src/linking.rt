// Links of several threads.
use engine_ports::{Link, TcpLink};
use std::alloc::Global;
use std::net::{Net, TcpListener, TcpStream};

/// Where links come from.
pub trait Linking: Sync {
    type Made: Link + Send + Drop;

    /// A link that leads nowhere yet.
    fn link(&self) -> Self::Made;
}

/// Links over TCP.
#[derive(Drop)]
pub struct TcpLinks<R> {
    rt: R,
    alloc: Global,
}

impl<R> TcpLinks<R> {
    pub fn new(rt: R, alloc: Global) -> TcpLinks<R> {
        TcpLinks { rt, alloc }
    }
}

impl<R: Net<Listener = TcpListener, Stream = TcpStream> + Copy + Send + Sync> Linking
    for TcpLinks<R> {
    type Made = TcpLink<R>;

    fn link(&self) -> TcpLink<R> {
        TcpLink::new(self.rt, self.alloc)
    }
}
