// What a create asks of the host (Docker Engine API v1.43, HostConfig and RestartPolicy).
ghost use Rattle.std.specs.Prelude.{◌≡◌, MatchResult, Ok, Err, option_map};
ghost use Rattle.serde_json.specs.View.{view};
ghost use Rattle.engine_text.specs.Policy.{read_policy};
ghost use Rattle.api_json.specs.Fault.{Answers};
ghost use Rattle.api_json.specs.Fields.{whole_field};
ghost use Rattle.api_json.specs.HostConfig as spec;

use super::fault::{BodyFault, BodyKey, Refused};
use super::fields::{flag, object_field, text_field, whole_field};
use super::mount_forms::read_mounts;
use engine_text::{Mounts, Policy, read_policy};
use serde_json::Value;
use std::alloc::Global;

/// What a create asks of the host.
#[derive(Drop)]
pub struct Host {
    pub mounts: Mounts,
    pub policy: Policy,
    pub auto_remove: bool,
}

/// The policy of that name with that maximum.
pub fn policy_named(name: &str, maximum: i64) -> Result<Policy, BodyFault>
    ensures { result ≡ spec.policy_or_fault (read_policy name.now maximum) }
{
    match read_policy(name, maximum) {
        Ok(policy) => Ok(policy),
        Err(_) => Err(BodyFault::BadRestartPolicy),
    }
}

// The policy of an object: the kinds of its fields, and then what they mean.
fn policy_in(value: &Value) -> Result<Policy, BodyFault>
    ensures { result ≡ spec.policy_in (view value.now) }
{
    let name = text_field(value, BodyKey::Name)?;
    let maximum = whole_field(value, BodyKey::MaximumRetryCount)?;
    policy_named(name.unwrap_or(""), maximum.unwrap_or(0))
}

// The restart policy, `no` where it is absent.
fn policy_of(host: &Value) -> Result<Policy, BodyFault>
    ensures { result ≡ spec.policy_of (view host.now) }
{
    match object_field(host, BodyKey::RestartPolicy)? {
        None => Ok(Policy::No),
        Some(value) => policy_in(value),
    }
}

// Whether the container is removed by itself, which excludes that it is restarted.
fn auto_remove_of(policy: Policy, host: &Value) -> Result<bool, BodyFault>
    ensures { result ≡ spec.auto_remove_of policy (view host.now) }
{
    let auto_remove = flag(host, BodyKey::AutoRemove)?;
    if auto_remove && !policy.is_no() {
        return Err(BodyFault::AutoRemoveExcludes);
    }
    Ok(auto_remove)
}

// The four fields that are read, in their order.
fn host_in(alloc: Global, host: &Value) -> Result<Host, Refused>
    ensures { Answers (spec.host_in (view host.now)) result }
{
    let mounts = read_mounts(alloc, host)?;
    let policy = policy_of(host)?;
    let auto_remove = auto_remove_of(policy, host)?;
    Ok(Host {
        mounts,
        policy,
        auto_remove,
    })
}

/// The host config of a create; without one there are no mounts, and no restarts.
pub fn read_host(alloc: Global, body: &Value) -> Result<Host, Refused>
    ensures { Answers (spec.host_of (view body.now)) result }
{
    match object_field(body, BodyKey::HostConfig)? {
        None => Ok(Host {
            mounts: Mounts::new(alloc),
            policy: Policy::No,
            auto_remove: false,
        }),
        Some(host) => host_in(alloc, host),
    }
}
