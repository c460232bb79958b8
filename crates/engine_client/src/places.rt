// What is done at a place, by a body that came whole.
ghost use Rattle.std.specs.Prelude.{false, true, map, decimal, Some};
ghost use Rattle.std.specs.Option.{option_map_or};
ghost use Rattle.client_model.specs.Plans.{goes_on, prints, prints_all, done, ends, fails};
ghost use Rattle.client_model.specs.Bodies as spec;
ghost use Rattle.client_model.specs.declared.fault.Fault.TheVariants as F;
ghost use Rattle.client_model.specs.Commands.Exec as exec;
ghost use Rattle.client_model.specs.Commands.Run.{removes};
ghost use Rattle.client_model.specs.Commands.Watch.{row_line, watched};
ghost use Rattle.engine_client.specs.Places.{GoesOn};
ghost use Rattle.engine_client.specs.Steps as steps;
ghost use Rattle.client_model.specs.Streams.{events_in};

use crate::asking::asks;
use crate::onward::Then;
use crate::printing::{prints, prints_all, prints_code};
use crate::reading::{
    read_container_lines, read_exit_code, read_id, read_status_code, read_volume_names,
};
use crate::rows::Rows;
use crate::step::Step;
use crate::watching::{fold_events, row_lines};
use client_model::{Fault, Showing};
use client_parts::requests::containers::{
    attach_request, remove_request, start_request, wait_request,
};
use client_parts::requests::execs::{exec_inspect_request, exec_start_request};
use engine_text::Text;
use std::alloc::Global;

/// It ends with this status.
pub(crate) fn ends(alloc: Global, status: u8) -> Result<Step, Fault>
    ensures { GoesOn result false (ends status) }
{
    Ok(Step::Writes {
        text: Vec::new(alloc),
        status,
    })
}

// ---- what is printed

/// It prints the id of what was created.
pub(crate) fn prints_id(alloc: Global, body: &Vec<u8>) -> Result<Step, Fault>
    ensures { GoesOn result false (goes_on (λ id. prints id done) (spec.id_in body.now.items)) }
{
    match read_id(alloc, body) {
        Ok(id) => prints(alloc, id.as_slice()),
        Err(fault) => Err(fault),
    }
}

/// It prints a line of each container.
pub(crate) fn prints_containers(alloc: Global, body: &Vec<u8>) -> Result<Step, Fault>
    ensures { GoesOn result false
        (goes_on (λ lines. prints_all lines done) (spec.container_lines_in body.now.items)) }
{
    match read_container_lines(alloc, body) {
        Ok(lines) => prints_all(alloc, lines.as_slice()),
        Err(fault) => Err(fault),
    }
}

/// It prints the name of each volume.
pub(crate) fn prints_volumes(alloc: Global, body: &Vec<u8>) -> Result<Step, Fault>
    ensures { GoesOn result false
        (goes_on (λ names. prints_all names done) (spec.volume_names_in body.now.items)) }
{
    match read_volume_names(alloc, body) {
        Ok(names) => prints_all(alloc, names.as_slice()),
        Err(fault) => Err(fault),
    }
}

/// It prints a container's exit code.
pub(crate) fn prints_exit(alloc: Global, body: &Vec<u8>) -> Result<Step, Fault>
    ensures { GoesOn result false
        (goes_on (λ code. prints (decimal code) done) (spec.status_code_in body.now.items)) }
{
    match read_status_code(alloc, body) {
        Ok(code) => prints_code(alloc, code),
        Err(fault) => Err(fault),
    }
}

/// It prints a line of each row.
fn prints_rows(alloc: Global, rows: &Rows) -> Result<Step, Fault>
    ensures { GoesOn result false (prints_all (map row_line rows.now) done) }
{
    match row_lines(alloc, rows.folds()) {
        Ok(lines) => prints_all(alloc, lines.as_slice()),
        Err(_) => Err(Fault::NoMemory),
    }
}

/// It prints what the events of a body tell.
fn prints_events(alloc: Global, body: &Vec<u8>) -> Result<Step, Fault>
    ensures { GoesOn result false (steps.watches (events_in body.now.items)) }
{
    match fold_events(alloc, body) {
        Ok(rows) => prints_rows(alloc, &rows),
        Err(fault) => Err(fault),
    }
}

/// It prints what the events of a body tell, where these begin with the first.
fn prints_from(alloc: Global, first: u64, body: &Vec<u8>) -> Result<Step, Fault>
    ensures { GoesOn result false (watched (Some first) body.now.items true) }
{
    if first == 0 {
        prints_events(alloc, body)
    } else {
        Err(Fault::EventsGone)
    }
}

/// It prints what the events of a body tell, by the number of their first.
pub(crate) fn prints_watched(
    alloc: Global,
    first: Option<u64>,
    body: &Vec<u8>,
) -> Result<Step, Fault>
    ensures { GoesOn result false (watched first body.now.items true) }
{
    match first {
        None => Err(Fault::Answer),
        Some(first) => prints_from(alloc, first, body),
    }
}

// ---- run

/// It removes the container, and ends with the code.
fn removes_it(alloc: Global, id: &str, code: u8) -> Result<Step, Fault>
    ensures { GoesOn result false (removes true id.now (ends code)) }
{
    asks(
        remove_request(alloc, id, false),
        false,
        Showing::Kept,
        Then::Ends { status: code },
    )
}

/// It ends with the code, and before that removes the container where it is to.
fn removes(alloc: Global, id: &str, remove: bool, code: u8) -> Result<Step, Fault>
    ensures { GoesOn result false (removes remove id.now (ends code)) }
{
    if remove {
        removes_it(alloc, id, code)
    } else {
        ends(alloc, code)
    }
}

/// It ends with the exit code that a wait tells.
pub(crate) fn ends_run(
    alloc: Global,
    id: &Text,
    remove: bool,
    body: &Vec<u8>,
) -> Result<Step, Fault>
    ensures { GoesOn result false
        (goes_on (λ code. removes remove id.now (ends code)) (spec.status_code_in body.now.items)) }
{
    match read_status_code(alloc, body) {
        Ok(code) => removes(alloc, id.as_str(), remove, code),
        Err(fault) => Err(fault),
    }
}

/// It waits for the container's end.
pub(crate) fn waits(alloc: Global, id: &Text, remove: bool) -> Result<Step, Fault>
    ensures { GoesOn result false (steps.waits remove id.now) }
{
    let request = wait_request(alloc, id.as_str());
    let Ok(id) = id.copy(alloc) else {
        return Err(Fault::NoMemory);
    };
    asks(request, false, Showing::Kept, Then::Removes { id, remove })
}

/// It writes what the container writes, with standard input or without, and then waits.
pub(crate) fn attaches(alloc: Global, id: &Text, input: bool, remove: bool) -> Result<Step, Fault>
    ensures { GoesOn result input (steps.attaches input remove id.now) }
{
    let request = attach_request(alloc, id.as_str(), input);
    let Ok(id) = id.copy(alloc) else {
        return Err(Fault::NoMemory);
    };
    asks(request, input, Showing::Demuxed, Then::Waits { id, remove })
}

/// It starts the container of this id.
fn starts_it(alloc: Global, id: Text, input: bool, remove: bool) -> Result<Step, Fault>
    ensures { GoesOn result input (steps.starts input remove id) }
{
    let request = start_request(alloc, id.as_str());
    asks(
        request,
        false,
        Showing::Kept,
        Then::Attaches { id, input, remove },
    )
}

/// It starts the container that was created.
pub(crate) fn starts(
    alloc: Global,
    input: bool,
    remove: bool,
    body: &Vec<u8>,
) -> Result<Step, Fault>
    ensures { GoesOn result input
        (goes_on (λ id. steps.starts input remove id) (spec.id_in body.now.items)) }
{
    match read_id(alloc, body) {
        Ok(id) => starts_it(alloc, id, input, remove),
        Err(fault) => Err(fault),
    }
}

// ---- exec

/// It asks for the exec's exit code.
pub(crate) fn inspects(alloc: Global, id: &Text) -> Result<Step, Fault>
    ensures { GoesOn result false (steps.inspects id.now) }
{
    asks(
        exec_inspect_request(alloc, id.as_str()),
        false,
        Showing::Kept,
        Then::EndsExec,
    )
}

/// It starts the exec of this id, with standard input or without.
fn executes_it(alloc: Global, id: Text, input: bool) -> Result<Step, Fault>
    ensures { GoesOn result input (steps.executes input id) }
{
    let request = exec_start_request(alloc, id.as_str());
    asks(request, input, Showing::Demuxed, Then::Inspects { id })
}

/// It starts the exec that was created.
pub(crate) fn executes(alloc: Global, input: bool, body: &Vec<u8>) -> Result<Step, Fault>
    ensures { GoesOn result input
        (goes_on (λ id. steps.executes input id) (spec.id_in body.now.items)) }
{
    match read_id(alloc, body) {
        Ok(id) => executes_it(alloc, id, input),
        Err(fault) => Err(fault),
    }
}

/// It ends with the exec's exit code.
pub(crate) fn ends_exec(alloc: Global, body: &Vec<u8>) -> Result<Step, Fault>
    ensures { GoesOn result false (goes_on (λ code. option_map_or ends code (fails F.NoCode))
        (exec.exit_code_in body.now.items)) }
{
    match read_exit_code(alloc, body) {
        Ok(Some(code)) => ends(alloc, code),
        Ok(None) => Err(Fault::NoCode),
        Err(fault) => Err(fault),
    }
}
