// The body of an update (Docker Engine API v1.43, ContainerUpdate).
ghost use Rattle.std.specs.Prelude.{◌≡◌};
ghost use Rattle.serde_json.specs.View.{view};
ghost use Rattle.api_json.specs.Fault.{Answers};
ghost use Rattle.api_json.specs.Update as spec;

use super::fault::{BodyFault, BodyKey, Refused};
use super::fields::{object_field, read_body, text_field, whole_field};
use super::host_config::policy_named;
use engine_text::Policy;
use serde_json::Value;
use std::alloc::Global;

// The policy of that name with that maximum; an empty name with no maximum gives none.
#[tactic(auto, unfolding(crate::specs::Update::given_policy))]
fn given_policy(name: &str, maximum: i64) -> Result<Option<Policy>, BodyFault>
    ensures { result ≡ spec.given_policy name.now maximum }
{
    if name.is_empty() && maximum == 0 {
        return Ok(None);
    }
    let policy = policy_named(name, maximum)?;
    Ok(Some(policy))
}

// The policy of an object: the kinds of its fields, and then what they mean.
fn given_in(value: &Value) -> Result<Option<Policy>, BodyFault>
    ensures { result ≡ spec.given_in (view value.now) }
{
    let name = text_field(value, BodyKey::Name)?;
    let maximum = whole_field(value, BodyKey::MaximumRetryCount)?;
    given_policy(name.unwrap_or(""), maximum.unwrap_or(0))
}

// The policy of an update's object.
fn update_in(body: &Value) -> Result<Option<Policy>, BodyFault>
    ensures { result ≡ spec.update_in (view body.now) }
{
    match object_field(body, BodyKey::RestartPolicy)? {
        None => Ok(None),
        Some(value) => given_in(value),
    }
}

/// Reads the body of an update: the policy of `RestartPolicy`, and none where it is absent, or has
/// an empty name and no maximum; other fields are passed over.
#[tactic(auto, unfolding(crate::specs::Update::update_of))]
pub fn read_update(alloc: Global, body: &[u8]) -> Result<Option<Policy>, Refused>
    ensures { Answers (spec.update_of body.now) result }
{
    let body = read_body(alloc, body)?;
    Ok(update_in(&body)?)
}
