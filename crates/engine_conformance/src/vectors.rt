// All vectors, one behind the other.
ghost use Rattle.std.specs.Prelude.{IfOk};
ghost use Rattle.engine_conformance.specs.Reports.{Reports, vectors};

mod creates;
mod events;
mod faults;
mod journals;
mod lives;
mod logs;
mod refusals;
mod takeovers;
mod volumes;

use crate::report::Report;
use crate::short::Short;
use engine_text::NoMemory;
use std::alloc::Global;
use std::sync::Wait;
use std::thread::Threads;

/// How many vectors there are.
const COUNT: u32 = 26;

/// Whether the vector of that number comes out as it should.
fn passes<R: Threads + Wait + Sync>(rt: &R, alloc: Global, number: u32) -> Result<bool, Short> {
    match number {
        1 => creates::create_answers_201_with_the_id(rt, alloc),
        2 => creates::a_name_in_use_is_409(rt, alloc),
        3 => creates::a_name_has_two_letters(rt, alloc),
        4 => creates::a_create_of_the_usual_client_is_read(rt, alloc),
        5 => lives::start_of_a_running_container_is_304(rt, alloc),
        6 => lives::a_policy_starts_three_times_again(rt, alloc),
        7 => lives::a_stop_waits_for_its_deadline(rt, alloc),
        8 => lives::a_kill_ends_a_pause(rt, alloc),
        9 => lives::a_removal_times_out(rt, alloc),
        10 => logs::a_line_of_a_log_is_a_frame(rt, alloc),
        11 => Ok(logs::wrong_bytes_end_a_stream_of_frames()),
        12 => logs::four_mebibytes_of_a_log_are_kept(rt, alloc),
        13 => creates::a_part_of_an_id_finds_its_container(rt, alloc),
        14 => volumes::a_volume_in_use_stays(rt, alloc),
        15 => journals::a_full_journal_answers_503(rt, alloc),
        16 => refusals::a_wrong_form_is_refused(rt, alloc),
        17 => events::events_tell_a_kill(rt, alloc),
        18 => journals::a_journal_is_replayed(rt, alloc),
        19 => takeovers::what_is_fed_comes_back(rt, alloc),
        20 => creates::a_list_shows_what_was_created(rt, alloc),
        21 => takeovers::an_exec_starts_once(rt, alloc),
        22 => refusals::a_ping_is_answered(rt, alloc),
        23 => refusals::no_input_is_no_fault(rt, alloc),
        24 => journals::a_moment_never_goes_back(alloc),
        25 => events::a_full_ring_lets_its_first_event_go(alloc),
        26 => faults::a_failing_stream_ends_the_session(rt, alloc),
        _ => Ok(false),
    }
}

// Runs all vectors.
fn run_all<R: Threads + Wait + Sync>(rt: &R, alloc: Global) -> Result<Report, Short>
    ensures { IfOk result (Reports vectors) }
{
    let mut report = Report::new();
    'vectors: for place in 0..COUNT {
        report = report.with(place + 1, passes(rt, alloc, place + 1)?);
    }
    Ok(report)
}

/// Runs all vectors, and tells how many came out as they should, how many didn't, and the least of these.
pub fn run_vectors<R: Threads + Wait + Sync>(rt: &R, alloc: Global) -> Result<Report, NoMemory>
    ensures { IfOk result (Reports vectors) }
{
    match run_all(rt, alloc) {
        Ok(report) => Ok(report),
        Err(Short) => Err(NoMemory),
    }
}
