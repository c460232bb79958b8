// A runner, a door that is bound, and the peers that come to it, all on one thread: what a peer sends and what is sent to it
// stands in the system's buffers meanwhile.

use crate::echo::Echo;
use crate::rally::Rally;
use crate::visit::{Coming, Greeting, Parting};
use engine_ports::{Failed, Got};
use polled_ports::{
    LocalRunner, PollDoor, PollSink, Runner, TcpPollDoor, TcpPollSink, TcpPollSource,
};
use std::alloc::{AllocGlobal, Global};
use std::io::{self, ErrorKind, Read, Write};
use std::net::{Net, Shutdown, SocketAddr, TcpListener, TcpStream};
use std::random::RandomSource;
use std::sync::Wait;
use std::time::Clock;

/// How many peers come at once.
const CROWD: u32 = 100;

/// What each of them sends.
const BYTES: [u8; 5] = *b"hello";

/// How many bytes go to and fro.
const RALLIES: u32 = 9;

/// What one connection has on the daemon's side.
type Sides = (TcpPollSource, TcpPollSink);

#[derive(Drop)]
pub struct Stage<R> {
    rt: R,
    pub runner: LocalRunner<R>,
    door: TcpPollDoor<R>,
    addr: SocketAddr,
}

impl<
    R: Wait
        + Clock
        + Net<Listener = TcpListener, Stream = TcpStream>
        + RandomSource
        + AllocGlobal
        + Copy
        + Drop,
> Stage<R> {
    pub fn new(rt: R, alloc: Global) -> io::Result<Stage<R>> {
        let runner = LocalRunner::new(rt)?;
        let mut door = TcpPollDoor::new(rt, alloc, runner.reactor()?);
        let bound = door.bind("127.0.0.1:0");
        match (bound, door.address()) {
            (Ok(()), Some(addr)) => Ok(Stage {
                rt,
                runner,
                door,
                addr,
            }),
            _ => Err(ErrorKind::AddrNotAvailable.into()),
        }
    }

    fn connect(&self) -> io::Result<TcpStream> {
        TcpStream::connect(&self.rt, self.addr)
    }

    fn accept(&mut self) -> io::Result<Sides> {
        match self.runner.run(Coming::new(&mut self.door)) {
            Ok(Some(sides)) => Ok(sides),
            _ => Err(ErrorKind::NotConnected.into()),
        }
    }

    /// How many bytes came back to all peers of a crowd.
    pub fn crowd(&mut self, alloc: Global) -> io::Result<usize> {
        let mut peers = Vec::new(alloc);
        for _ in 0..CROWD {
            let mut peer = self.connect()?;
            peer.write_all(&BYTES)?;
            peer.shutdown(Shutdown::Write)?;
            peers.push(peer)?;
        }
        let served = self.runner.run(Echo::new(alloc, &mut self.door, CROWD));
        if served.is_err() {
            return Ok(0);
        }
        let mut came = 0usize;
        for peer in peers.iter_mut() {
            let mut place = [0; 8];
            let count = peer.read(&mut place)?;
            if &place[..count] == BYTES.as_slice() {
                came = came.saturating_add(count);
            }
        }
        Ok(came)
    }

    /// How many bytes of a rally were quick.
    pub fn rally(&mut self) -> io::Result<u32> {
        let peer = self.connect()?;
        let (source, sink) = self.accept()?;
        peer.set_nodelay(true)?;
        peer.set_nonblocking(true)?;
        let rally = Rally::new(self.rt, peer, source, sink, RALLIES);
        Ok(self.runner.run(rally).unwrap_or(0))
    }

    /// A connection whose peer sent these bytes, of which one is read, and three were written back.
    fn greet(&mut self, bytes: &[u8]) -> io::Result<(TcpStream, Sides)> {
        let mut peer = self.connect()?;
        peer.write_all(bytes)?;
        let (mut source, mut sink) = self.accept()?;
        match self.runner.run(Greeting::new(&mut source, &mut sink)) {
            Ok(true) => Ok((peer, (source, sink))),
            _ => Err(ErrorKind::BrokenPipe.into()),
        }
    }

    /// What the last read of a connection gives, and then a probe.
    fn part(&mut self, sides: Sides) -> (Got, Result<(), Failed>) {
        let (mut source, mut sink) = sides;
        let got = self.runner.run(Parting::new(&mut source));
        (got.unwrap_or(Got::Failed), sink.probe())
    }

    /// Where the peer read all and ended its writing.
    pub fn ended(&mut self) -> io::Result<(Got, Result<(), Failed>)> {
        let (mut peer, sides) = self.greet(b"a")?;
        let mut place = [0; 3];
        peer.read_exact(&mut place)?;
        peer.shutdown(Shutdown::Write)?;
        Ok(self.part(sides))
    }

    /// Where the peer read one byte of three and is gone.
    pub fn gone(&mut self) -> io::Result<(Got, Result<(), Failed>)> {
        let (mut peer, sides) = self.greet(b"a")?;
        let mut place = [0; 1];
        peer.read_exact(&mut place)?;
        drop(peer);
        Ok(self.part(sides))
    }

    /// How many bytes a peer reads to their end that is left with a byte of its own unread.
    pub fn left(&mut self) -> io::Result<usize> {
        let (mut peer, (source, sink)) = self.greet(b"ab")?;
        self.door.leave(0, source, sink);
        let mut place = [0; 8];
        let count = peer.read(&mut place)?;
        let end = peer.read(&mut place)?;
        Ok(if end == 0 { count } else { 0 })
    }
}
