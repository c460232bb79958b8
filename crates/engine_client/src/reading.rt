// What is read of answers that came whole.
ghost use Rattle.client_model.specs.Bodies as spec;
ghost use Rattle.client_model.specs.Commands.Exec as exec;
ghost use Rattle.client_model.specs.Commands.Health as health;
ghost use Rattle.engine_client.specs.Reading.{ReadsOrFails};

use client_model::{Checked, Fault};
use client_parts::{
    Unread, checked_in, container_lines_in, exit_code_in, id_in, status_code_in, volume_names_in,
};
use engine_text::{Text, Words};
use std::alloc::Global;

/// `Id`: what was created.
pub(crate) fn read_id(alloc: Global, body: &[u8]) -> Result<Text, Fault>
    ensures { ReadsOrFails result (spec.id_in body.now) }
{
    match id_in(alloc, body) {
        Ok(id) => Ok(id),
        Err(Unread::NoForm) => Err(Fault::Answer),
        Err(Unread::NoMemory) => Err(Fault::NoMemory),
    }
}

/// `StatusCode`: a container's exit code.
pub(crate) fn read_status_code(alloc: Global, body: &[u8]) -> Result<u8, Fault>
    ensures { ReadsOrFails result (spec.status_code_in body.now) }
{
    match status_code_in(alloc, body) {
        Ok(code) => Ok(code),
        Err(Unread::NoForm) => Err(Fault::Answer),
        Err(Unread::NoMemory) => Err(Fault::NoMemory),
    }
}

/// `ExitCode`: an exec's exit code, or none yet.
pub(crate) fn read_exit_code(alloc: Global, body: &[u8]) -> Result<Option<u8>, Fault>
    ensures { ReadsOrFails result (exec.exit_code_in body.now) }
{
    match exit_code_in(alloc, body) {
        Ok(code) => Ok(code),
        Err(Unread::NoForm) => Err(Fault::Answer),
        Err(Unread::NoMemory) => Err(Fault::NoMemory),
    }
}

/// A container with its health check, or none where it shows no check.
pub(crate) fn read_checked(alloc: Global, body: &[u8]) -> Result<Option<Checked>, Fault>
    ensures { ReadsOrFails result (health.checked_in body.now) }
{
    match checked_in(alloc, body) {
        Ok(checked) => Ok(checked),
        Err(Unread::NoForm) => Err(Fault::Answer),
        Err(Unread::NoMemory) => Err(Fault::NoMemory),
    }
}

/// A line of each container.
pub(crate) fn read_container_lines(alloc: Global, body: &[u8]) -> Result<Words, Fault>
    ensures { ReadsOrFails result (spec.container_lines_in body.now) }
{
    match container_lines_in(alloc, body) {
        Ok(lines) => Ok(lines),
        Err(Unread::NoForm) => Err(Fault::Answer),
        Err(Unread::NoMemory) => Err(Fault::NoMemory),
    }
}

/// The name of each volume.
pub(crate) fn read_volume_names(alloc: Global, body: &[u8]) -> Result<Words, Fault>
    ensures { ReadsOrFails result (spec.volume_names_in body.now) }
{
    match volume_names_in(alloc, body) {
        Ok(names) => Ok(names),
        Err(Unread::NoForm) => Err(Fault::Answer),
        Err(Unread::NoMemory) => Err(Fault::NoMemory),
    }
}
