// The bodies of requests, and the filters of one.
ghost use Rattle.std.specs.Prelude.{◌≡◌, codes, IfOk, unwrap_or};
ghost use Rattle.serde_json.specs.View.{view};
ghost use Rattle.client_model.specs.Commands.Container as container;
ghost use Rattle.client_model.specs.Commands.Exec as exec;
ghost use Rattle.client_model.specs.Commands.Health as health;
ghost use Rattle.client_model.specs.Commands.Update as update;
ghost use Rattle.client_model.specs.Commands.VolumeCreate as volume;

use client_model::{NewContainer, Restart};
use engine_text::{NoMemory, Text, Words};
use json_objects::Object;
use serde_json::Value;
use std::alloc::{AllocError, Global};

/// A restart policy.
fn policy_value(alloc: Global, policy: &str, most: u64) -> Result<Value, AllocError>
    ensures { IfOk result
        (λ v. view v ≡ container.policy_data (container.restart_of policy.now most)) }
{
    let object = Object::new(alloc).number(alloc, "MaximumRetryCount", most)?;
    let object = object.text(alloc, "Name", policy)?;
    Ok(object.value())
}

/// The policy that is given, or `no`.
fn given_policy(alloc: Global, restart: &Option<Restart>) -> Result<Value, AllocError>
    ensures { IfOk result (λ v. view v ≡ container.policy_data
        (unwrap_or restart.now (container.restart_of (codes "no") 0))) }
{
    match restart {
        Some(restart) => policy_value(alloc, restart.policy.as_str(), restart.most),
        None => policy_value(alloc, "no", 0),
    }
}

/// The body of ContainerUpdate.
pub(crate) fn update_value(alloc: Global, restart: &Restart) -> Result<Value, AllocError>
    ensures { IfOk result (λ v. view v ≡ update.update_data restart.now) }
{
    let policy = policy_value(alloc, restart.policy.as_str(), restart.most)?;
    let object = Object::new(alloc).with(alloc, "RestartPolicy", policy)?;
    Ok(object.value())
}

/// The volumes, and the policy.
fn host_value(alloc: Global, c: &NewContainer) -> Result<Value, AllocError>
    ensures { IfOk result (λ v. view v ≡ container.host_data c.now) }
{
    let policy = given_policy(alloc, &c.restart)?;
    let object = Object::new(alloc).words(alloc, "Binds", c.binds.as_slice())?;
    let object = object.with(alloc, "RestartPolicy", policy)?;
    Ok(object.value())
}

/// The body of ContainerCreate.
pub(crate) fn container_value(alloc: Global, c: &NewContainer) -> Result<Value, AllocError>
    ensures { IfOk result (λ v. view v ≡ container.container_data c.now) }
{
    let host = host_value(alloc, c)?;
    let object = Object::new(alloc).words(alloc, "Cmd", c.words.as_slice())?;
    let object = object.with(alloc, "HostConfig", host)?;
    let object = object.text(alloc, "Image", c.image.as_str())?;
    let object = object.flag(alloc, "OpenStdin", c.input)?;
    let object = object.flag(alloc, "StdinOnce", c.input)?;
    Ok(object.value())
}

/// The body of ContainerExec.
pub(crate) fn exec_value(alloc: Global, words: &[Text], input: bool) -> Result<Value, AllocError>
    ensures { IfOk result (λ v. view v ≡ exec.exec_data words.now input) }
{
    let object = Object::new(alloc).flag(alloc, "AttachStderr", true)?;
    let object = object.flag(alloc, "AttachStdin", input)?;
    let object = object.flag(alloc, "AttachStdout", true)?;
    let object = object.words(alloc, "Cmd", words)?;
    Ok(object.value())
}

/// The body of VolumeCreate.
pub(crate) fn volume_value(alloc: Global, name: &str) -> Result<Value, AllocError>
    ensures { IfOk result (λ v. view v ≡ volume.volume_data name.now) }
{
    let object = Object::new(alloc).text(alloc, "Name", name)?;
    Ok(object.value())
}

/// The filter of a container's events.
pub(crate) fn filter_value(alloc: Global, id: &str) -> Result<Value, NoMemory>
    ensures { IfOk result (λ v. view v ≡ health.container_filter id.now) }
{
    let mut ids = Words::new(alloc);
    ids.push(alloc, Text::of(alloc, id)?)?;
    let object = Object::new(alloc).words(alloc, "container", ids.as_slice())?;
    Ok(object.value())
}
