// Doors and links, in memory and over TCP.
use crate::line::{as_text, cut, number, owned};
use crate::ports::given;
use crate::short::Short;
use engine_ports::{
    Arrival, Clock, Door, Link, MemDoor, MemLink, MemSink, MemSource, NoDoor, Parting, Parts, Sink,
    Source, StepClock, TcpDoor, TcpLink,
};
use std::alloc::Global;

// A door whose call of that number fails, through which connections come that give these texts.
fn door_of(alloc: Global, failing: u64, texts: &str) -> Result<MemDoor<StepClock>, Short> {
    let mut door = MemDoor::new(alloc, &[failing])?;
    for text in texts.split('|') {
        let source = MemSource::new(alloc, text.as_bytes(), 8, &[])?;
        let sink = MemSink::new(alloc, &[])?;
        door.put(source, sink, StepClock::new(0, 0, None))?;
    }
    Ok(door)
}

// Who comes next is written a letter, and leaves by that number.
fn take_in(door: &mut MemDoor<StepClock>, count: u32) -> &'static str {
    match door.accept() {
        Arrival::Conn(source, mut sink, clock) => {
            let written = sink.write(b"x").is_ok();
            door.leave(count, Parts::part(source, sink, clock));
            if written { "came" } else { "came in vain" }
        }
        Arrival::Failed => "failed",
        Arrival::Shut => "nobody",
    }
}

// What came of the door of `FAILING|TEXT|..`: its binding, four accepts, and what each connection was written.
fn door(alloc: Global, rest: &str) -> Result<String, Short> {
    let (failing, texts) = cut(rest);
    let mut door = door_of(alloc, number(failing), texts)?;
    let mut told = format!(in alloc; "{:?}", door.bind("127.0.0.1:1"))?;
    for count in 0..4 {
        write!(told, ", {}", take_in(&mut door, count))?;
    }
    for gone in door.past() {
        write!(
            told,
            "; {} {}",
            gone.number,
            as_text(gone.parts.into.bytes())
        )?;
    }
    Ok(told)
}

// What came of a door through which nobody comes.
fn no_door(alloc: Global, addr: &str) -> Result<String, Short> {
    let mut door = NoDoor::new(alloc);
    let bound = door.bind(addr);
    let shut = matches!(door.accept(), Arrival::Shut);
    Ok(format!(in alloc; "{bound:?}, {shut}")?)
}

// A link whose call of that number fails, which leads to connections that give these texts.
fn link_of(alloc: Global, failing: u64, texts: &str) -> Result<MemLink, Short> {
    let mut link = MemLink::new(alloc, &[failing])?;
    for text in texts.split('|') {
        let source = MemSource::new(alloc, text.as_bytes(), 8, &[])?;
        link.put(source, MemSink::new(alloc, &[])?)?;
    }
    Ok(link)
}

// Whether a connection was made, which is left at once.
fn connect(link: &mut MemLink, addr: &str) -> bool {
    match link.connect(addr) {
        Ok((source, sink)) => {
            link.leave(source, sink);
            true
        }
        Err(_) => false,
    }
}

// What came of three calls of the link of `FAILING|TEXT|..`, how many connections were left, and what was asked for.
fn link(alloc: Global, rest: &str) -> Result<String, Short> {
    let (failing, texts) = cut(rest);
    let mut link = link_of(alloc, number(failing), texts)?;
    let mut told = String::new(alloc);
    for _ in 0..3 {
        write!(told, "{}, ", connect(&mut link, "127.0.0.1:1"))?;
    }
    write!(told, "{} left", link.past().len())?;
    for addr in link.asked() {
        write!(told, ", {}", addr.as_str())?;
    }
    Ok(told)
}

// A door over TCP at a port that was free, and its address.
fn door_here(rt: &HostRuntime) -> Result<Option<(TcpDoor<&HostRuntime>, String)>, Short> {
    let mut door = TcpDoor::new(rt, rt.alloc());
    if door.bind("127.0.0.1:0").is_err() {
        return Ok(None);
    }
    let Some(addr) = door.address() else {
        return Ok(None);
    };
    let addr = format!(in rt.alloc(); "127.0.0.1:{}", addr.port())?;
    Ok(Some((door, addr)))
}

// What comes through a door of a link that asks, what comes back, and whether the time is known.
fn meet<D: Door, L: Link>(
    alloc: Global,
    door: &mut D,
    link: &mut L,
    addr: &str,
    rest: &str,
) -> Result<String, Short> {
    let (ask, tell) = cut(rest);
    let Ok((mut answers, mut requests)) = link.connect(addr) else {
        return owned(alloc, "no connection");
    };
    let Arrival::Conn(mut source, mut sink, mut clock) = door.accept() else {
        return owned(alloc, "nobody came");
    };
    let known = 1_600_000_000_000 < clock.now();
    let sent = requests.write(ask.as_bytes()).and(requests.finish());
    let asked = given(alloc, &mut source);
    let answered = sink.write(tell.as_bytes());
    door.leave(0, D::Past::part(source, sink, clock));
    let told = given(alloc, &mut answers);
    link.leave(answers, requests);
    Ok(format!(in alloc; "{sent:?}{}, {answered:?}{}, {known}", asked?, told?)?)
}

// What a probe and a write answer once the peer has ended its writing, behind what it gave.
fn behind_end<R: Source, S: Sink, T: Sink>(
    alloc: Global,
    requests: &mut T,
    source: &mut R,
    sink: &mut S,
) -> Result<String, Short> {
    let finished = requests.finish();
    let asked = given(alloc, source);
    let ended = sink.probe();
    let answered = sink.write(b"x");
    Ok(format!(in alloc; "{finished:?}{}, {ended:?}, {answered:?}", asked?)?)
}

// What a probe answers while the peer is there, once its writing has ended, and once it is gone with a byte unread.
fn probe<D: Door, L: Link>(
    alloc: Global,
    door: &mut D,
    link: &mut L,
    addr: &str,
) -> Result<String, Short> {
    let Ok((answers, mut requests)) = link.connect(addr) else {
        return owned(alloc, "no connection");
    };
    let Arrival::Conn(mut source, mut sink, clock) = door.accept() else {
        return owned(alloc, "nobody came");
    };
    let there = sink.probe();
    let told = behind_end(alloc, &mut requests, &mut source, &mut sink);
    link.leave(answers, requests);
    let gone = sink.probe();
    door.leave(0, D::Past::part(source, sink, clock));
    Ok(format!(in alloc; "{there:?}, {}, {gone:?}", told?)?)
}

// What comes of a link over TCP that leads to a door.
fn over_tcp(rt: &HostRuntime, kind: &str, rest: &str) -> Result<String, Short> {
    let alloc = rt.alloc();
    let Some((mut door, addr)) = door_here(rt)? else {
        return owned(alloc, "no door");
    };
    let mut link = TcpLink::new(rt, alloc);
    if kind == "probe" {
        probe(alloc, &mut door, &mut link, addr.as_str())
    } else {
        meet(alloc, &mut door, &mut link, addr.as_str(), rest)
    }
}

// Whether a door is bound at an address, and whether a link leads there.
fn reached(rt: &HostRuntime, addr: &str) -> Result<String, Short> {
    let alloc = rt.alloc();
    let bound = TcpDoor::new(rt, alloc).bind(addr).is_ok();
    let led = TcpLink::new(rt, alloc).connect(addr).is_ok();
    Ok(format!(in alloc; "{bound} {led}")?)
}

/// What is said of a door or a link.
pub fn told(rt: &HostRuntime, kind: &str, rest: &str) -> Result<String, Short> {
    let alloc = rt.alloc();
    match kind {
        "memory" => door(alloc, rest),
        "none" => no_door(alloc, rest),
        "link" => link(alloc, rest),
        "tcp" | "probe" => over_tcp(rt, kind, rest),
        "reached" => reached(rt, rest),
        _ => owned(alloc, "no such kind"),
    }
}
