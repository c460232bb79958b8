// Both doors are bound, and where they listen is told.
ghost use Rattle.std.specs.Prelude.{◌≡◌, ◌≤◌, IfOk};
ghost use Rattle.machine_model.specs.History.{greatest_moment};
ghost use Rattle.lab_program.specs.Starting.{BindsBoth, Starts, Tells};

use crate::address::address_of;
use crate::opening::opening_by;
use crate::why::Why;
use engine_ports::{Clock, Door, Failed, Sink};
use engine_text::Text;
use lab_line::{Lab, starting_line};
use lab_ports::Listening;
use std::alloc::Global;

/// A line whose doors listen.
#[derive(Drop)]
pub(crate) struct Started {
    /// The moment of the opening, in milliseconds.
    pub moment: u64,
    /// The daemon's address.
    pub address: Text,
}

/// Binds the daemon's door, and then control's, to the line's addresses.
fn bind_both<D: Door, E: Door>(
    alloc: Global,
    lab: Lab,
    tools: &mut D,
    control: &mut E,
) -> Result<(), Why>
    ensures { BindsBoth lab result (D.opens tools.old) (D.opens tools.new)
        (E.opens control.old) (E.opens control.new) }
{
    let (Ok(listen), Ok(asked)) = (
        address_of(alloc, lab.listen),
        address_of(alloc, lab.control),
    ) else {
        return Err(Why::NoMemory);
    };
    if let Err(Failed) = tools.bind(listen.as_str()) {
        return Err(Why::NoListen);
    }
    match control.bind(asked.as_str()) {
        Ok(()) => Ok(()),
        Err(Failed) => Err(Why::NoControl),
    }
}

/// Writes the line that tells where both doors listen, and answers the daemon's address.
fn tell<K: Sink>(
    alloc: Global,
    lab: Lab,
    moment: u64,
    ports: (Option<u16>, Option<u16>),
    output: &mut K,
) -> Result<Text, Why>
    ensures { Tells lab moment result (K.takes output.old) (K.takes output.new) }
{
    let (Some(listening), Some(asked)) = ports else {
        return Err(Why::Untold);
    };
    let Ok(address) = address_of(alloc, listening) else {
        return Err(Why::NoMemory);
    };
    let Ok(line) = starting_line(alloc, listening, asked, &lab.seed, moment) else {
        return Err(Why::NoMemory);
    };
    match output.write(line.as_str().as_bytes()) {
        Ok(()) => Ok(address),
        Err(Failed) => Err(Why::Untold),
    }
}

/// Binds both doors, asks for the moment of the opening, and tells where the doors listen.
pub(crate) fn start<K: Sink, C: Clock, D: Listening, E: Listening>(
    alloc: Global,
    lab: Lab,
    output: &mut K,
    clock: &mut C,
    tools: &mut D,
    control: &mut E,
) -> Result<Started, Why>
    ensures starts { Starts lab result (C.times clock.old) (C.times clock.new)
        (K.takes output.old) (K.takes output.new) (D.opens tools.old) (D.opens tools.new)
        (E.opens control.old) (E.opens control.new) }
    ensures moment { IfOk result (λ started. started.moment ≤ greatest_moment) }
{
    bind_both(alloc, lab, tools, control)?;
    let moment = opening_by(lab.clock, clock);
    let ports = (tools.port(), control.port());
    let address = tell(alloc, lab, moment, ports, output)?;
    Ok(Started { moment, address })
}
