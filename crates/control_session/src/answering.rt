// What control answers a request.
ghost use Rattle.std.specs.Prelude.{◌≡◌, ◌≤◌, IsSome};
ghost use Rattle.manual_clock.specs.Moves.{greatest_moment};
ghost use Rattle.control_session.specs.Answering as spec;

use crate::journal::write_journal;
use engine_ports::{Clock, Failed, Sink};
use json_answer::Terms;
use lab_control::{Asked, Move, Told, moved, write_description, write_told};
use lab_ports::Linking;
use manual_clock::{GREATEST_MOMENT, SharedTime};
use std::sync::Wait;

/// The moment: the shared clock's, or the system's.
fn moment_by<R: Wait, C: Clock>(rt: &R, time: Option<&SharedTime>, clock: &mut C) -> u64
    ensures { result ≤ greatest_moment }
{
    match time {
        Some(time) => time.moment(rt),
        None => clock.now().min(GREATEST_MOMENT),
    }
}

/// What a move tells; the system's clock isn't moved.
fn moved_by<R: Wait>(rt: &R, time: Option<&SharedTime>, step: Move) -> Told
    ensures { spec.MovesSo time.entry step result }
{
    match time {
        Some(time) => moved(rt, time, step),
        None => Told::Fixed,
    }
}

/// Answers what a request asks for, on these terms.
pub(crate) fn answer<R: Wait, J: Linking, K: Sink, C: Clock>(
    rt: &R,
    time: Option<&SharedTime>,
    links: &J,
    address: &str,
    asked: Asked,
    terms: Terms,
    sink: &mut K,
    clock: &mut C,
) -> Result<(), Failed>
    ensures { spec.Answers time.entry asked terms result (K.takes sink.old) (K.takes sink.new) }
{
    match asked {
        Asked::Moment => {
            let moment = moment_by(rt, time, clock);
            write_told(sink, terms, Told::Moment(moment))
        }
        Asked::Move(step) => {
            let told = moved_by(rt, time, step);
            write_told(sink, terms, told)
        }
        Asked::NoMove => write_told(sink, terms, Told::NoMove),
        Asked::Journal => {
            let mut link = links.link();
            write_journal(&mut link, address, sink, terms)
        }
        Asked::Description => write_description(sink, terms),
        Asked::Stop => write_told(sink, terms, Told::Stopping),
        Asked::Other => write_told(sink, terms, Told::Other),
    }
}
