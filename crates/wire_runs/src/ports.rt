// Sources, sinks and clocks, by steps.
ghost use Rattle.std.specs.Prelude.{◌<◌};

use crate::line::{as_text, cut, number, owned};
use crate::short::Short;
use engine_ports::{
    Clock, Got, MemClock, MemSink, MemSource, ReadSource, Sink, Source, StepClock, SystemClock,
    WriteSink,
};
use std::alloc::Global;
use std::io;

/// What a source gives a read at a time, each with a blank before it, up to its end.
pub fn given<S: Source>(alloc: Global, source: &mut S) -> Result<String, Short> {
    let mut told = String::new(alloc);
    let mut place = [0; 8];
    for _ in 0..u64::MAX {
        match source.read(&mut place) {
            Got::Bytes(count) => write!(told, " {}", as_text(&place[..count]))?,
            Got::Failed => told.push_str(" (failed)")?,
            Got::End => return Ok(told),
        }
    }
    Ok(told)
}

// What comes of `SIZE|FAILING|BYTES`, in pieces of that size, where the read of that number fails.
fn source(alloc: Global, rest: &str) -> Result<String, Short> {
    let (size, rest) = cut(rest);
    let (failing, bytes) = cut(rest);
    match size.parse::<usize>() {
        Ok(size) if 0 < size => {
            let failing = [number(failing)];
            given(
                alloc,
                &mut MemSource::new(alloc, bytes.as_bytes(), size, &failing)?,
            )
        }
        _ => owned(alloc, "no size"),
    }
}

// What a sink answers to each piece, to a probe in the place of one, and to the end.
fn taken<S: Sink>(alloc: Global, sink: &mut S, pieces: &str) -> Result<String, Short> {
    let mut told = String::new(alloc);
    for piece in pieces.split('|') {
        let answer = if piece == "(probe)" {
            sink.probe()
        } else {
            sink.write(piece.as_bytes())
        };
        write!(told, "{answer:?}, ")?;
    }
    let answer = sink.finish();
    write!(told, "finished {answer:?}")?;
    Ok(told)
}

// What a sink in memory of `FAILING|PIECE|..` answers and holds.
fn sink(alloc: Global, rest: &str) -> Result<String, Short> {
    let (failing, pieces) = cut(rest);
    let mut sink = MemSink::new(alloc, &[number(failing)])?;
    let told = taken(alloc, &mut sink, pieces)?;
    let text = as_text(sink.bytes());
    Ok(format!(in alloc;
        "{told}; {text} by {} writes, {} short",
        sink.writes(),
        sink.short()
    )?)
}

// What a writer into four bytes answers.
fn writer(alloc: Global, pieces: &str) -> Result<String, Short> {
    let mut place = [0; 4];
    taken(alloc, &mut WriteSink::new(place.as_mut_slice()), pieces)
}

// Writes pieces to standard output, and tells the answers.
fn output(rt: &HostRuntime, pieces: &str) -> Result<String, Short> {
    taken(rt.alloc(), &mut WriteSink::new(io::writer(rt)), pieces)
}

// What `now` or `pause MILLISECONDS` answers.
fn asked<C: Clock>(alloc: Global, clock: &mut C, field: &str) -> Result<String, Short> {
    match field.strip_prefix("pause ") {
        Some(ms) => Ok(format!(in alloc; "{:?}", clock.pause(number(ms)))?),
        None => Ok(format!(in alloc; "{}", clock.now())?),
    }
}

// What a twin answers, which joins the clock again.
fn twin<C: Clock>(alloc: Global, clock: &mut C, field: &str) -> Result<String, Short> {
    let mut twin = clock.twin();
    let told = asked(alloc, &mut twin, field);
    clock.rejoin(twin);
    told
}

fn step<C: Clock>(alloc: Global, clock: &mut C, field: &str) -> Result<String, Short> {
    match field.strip_prefix("twin ") {
        Some(field) => twin(alloc, clock, field),
        None => asked(alloc, clock, field),
    }
}

// What a clock answers to steps with a bar between each two.
fn steps<C: Clock>(alloc: Global, clock: &mut C, rest: &str) -> Result<String, Short> {
    let mut told = String::new(alloc);
    for field in rest.split('|') {
        let said = step(alloc, clock, field)?;
        write!(told, "{said} | ")?;
    }
    Ok(told)
}

// The clock of `START|STEP|STOP|..` that goes on by steps.
fn clock(alloc: Global, rest: &str) -> Result<String, Short> {
    let (start, rest) = cut(rest);
    let (by, rest) = cut(rest);
    let (stop, rest) = cut(rest);
    let mut clock = StepClock::new(number(start), number(by), stop.parse().ok());
    steps(alloc, &mut clock, rest)
}

// The numbers of a field, with a blank between each two.
fn numbers(alloc: Global, field: &str) -> Result<Vec<u64>, Short> {
    let mut numbers = Vec::new(alloc);
    for word in field.split_whitespace() {
        numbers.push(number(word))?;
    }
    Ok(numbers)
}

// The clock of `MOMENTS|STOP|..` that hands these moments.
fn moments(alloc: Global, rest: &str) -> Result<String, Short> {
    let (moments, rest) = cut(rest);
    let (stop, rest) = cut(rest);
    let moments = numbers(alloc, moments)?;
    let mut clock = MemClock::new(alloc, &moments, stop.parse().ok())?;
    steps(alloc, &mut clock, rest)
}

// Whether the system's clock tells a moment of these years, what its pause answers, and whether a twin tells a later one.
fn system(rt: &HostRuntime) -> Result<String, Short> {
    let mut clock = SystemClock::new(rt);
    let before = clock.now();
    let known = 1_600_000_000_000 < before && before < 9_000_000_000_000;
    let paused = clock.pause(2);
    let mut twin = clock.twin();
    let later = before < twin.now();
    clock.rejoin(twin);
    Ok(format!(in rt.alloc(); "{known} {paused:?} {later}")?)
}

/// What is said of a source, a sink or a clock.
pub fn told(rt: &HostRuntime, kind: &str, rest: &str) -> Result<String, Short> {
    let alloc = rt.alloc();
    match kind {
        "source" => source(alloc, rest),
        "reader" => given(alloc, &mut ReadSource::new(rest.as_bytes())),
        "sink" => sink(alloc, rest),
        "writer" => writer(alloc, rest),
        "output" => output(rt, rest),
        "clock" => clock(alloc, rest),
        "moments" => moments(alloc, rest),
        "system" => system(rt),
        _ => owned(alloc, "no such kind"),
    }
}
