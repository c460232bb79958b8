// Fields of a body, each of one kind; an absent field and null are the same.
ghost use Rattle.std.specs.Prelude.{◌≡◌, IfOk, MatchResult, Ok, Err, option_map, option_copied};
ghost use Rattle.serde_json.specs.View.{view};
ghost use Rattle.api_json.specs.Fault.{IsRefusal};
ghost use Rattle.api_json.specs.Fields as spec;

use super::fault::{BodyFault, BodyKey, Refused};
use json_laws::value_of_text;
use serde_json::Value;
use std::alloc::Global;

/// The object that a body is.
#[tactic(auto, unfolding(crate::specs::Fields::body_of))]
pub fn read_body(alloc: Global, body: &[u8]) -> Result<Value, Refused>
    ensures { MatchResult result
        (λ v. spec.body_of body.now ≡ Ok (view v)) (λ e. IsRefusal (spec.body_of body.now) e) }
{
    let Some(value) = value_of_text(alloc, body)? else {
        return Err(Refused::BadBody(BodyFault::BadJson));
    };
    if value.is_object() {
        return Ok(value);
    }
    Err(Refused::BadBody(BodyFault::BadJson))
}

/// The field of a key, unless it is absent or null.
pub fn field<'v>(body: &'v Value, key: BodyKey) -> Option<&'v Value>
    ensures { option_map (λ v. view v.now) result ≡ spec.field key (view body.now) }
{
    match body.get(key.text()) {
        Some(value) if !value.is_null() => Some(value),
        _ => None,
    }
}

/// A field that is a text.
pub fn text_field<'v>(body: &'v Value, key: BodyKey) -> Result<Option<&'v str>, BodyFault>
    ensures { MatchResult result
        (λ found. spec.text_field key (view body.now) ≡ Ok (option_copied found))
        (λ fault. spec.text_field key (view body.now) ≡ Err fault) }
{
    match field(body, key) {
        None => Ok(None),
        Some(value) => match value.as_str() {
            None => Err(BodyFault::BadField(key)),
            Some(text) => Ok(Some(text)),
        },
    }
}

/// A field that is a text and must be there.
pub fn needed_text<'v>(body: &'v Value, key: BodyKey) -> Result<&'v str, BodyFault>
    ensures { MatchResult result
        (λ text. spec.needed_text key (view body.now) ≡ Ok text.now)
        (λ fault. spec.needed_text key (view body.now) ≡ Err fault) }
{
    match text_field(body, key)? {
        None => Err(BodyFault::BadField(key)),
        Some(text) => Ok(text),
    }
}

/// A field that is a truth value, false where it is absent.
pub fn flag(body: &Value, key: BodyKey) -> Result<bool, BodyFault>
    ensures { result ≡ spec.flag key (view body.now) }
{
    match field(body, key) {
        None => Ok(false),
        Some(value) => value.as_bool().ok_or(BodyFault::BadField(key)),
    }
}

// A whole number; one past the greatest counts as that.
fn whole_number(value: &Value) -> Option<i64>
    ensures { result ≡ spec.whole_number (view value.now) }
{
    match value.as_i64() {
        Some(number) => Some(number),
        None => { if value.is_u64() { Some(i64::MAX) } else { None } }
    }
}

/// A field that is a whole number; one past the greatest of 64 bits with a sign counts as that.
pub fn whole_field(body: &Value, key: BodyKey) -> Result<Option<i64>, BodyFault>
    ensures { result ≡ spec.whole_field key (view body.now) }
{
    match field(body, key) {
        None => Ok(None),
        Some(value) => match whole_number(value) {
            None => Err(BodyFault::BadField(key)),
            Some(number) => Ok(Some(number)),
        },
    }
}

/// A truth value that must not be true, else the fault.
pub fn unset_flag(body: &Value, key: BodyKey, fault: BodyFault) -> Result<bool, BodyFault>
    ensures { result ≡ spec.unset_flag fault key (view body.now) }
{
    let on = flag(body, key)?;
    if on { Err(fault) } else { Ok(on) }
}

/// A field that is an object.
pub fn object_field<'v>(body: &'v Value, key: BodyKey) -> Result<Option<&'v Value>, BodyFault>
    ensures { MatchResult result
        (λ found. spec.object_field key (view body.now) ≡ Ok (option_map (λ v. view v.now) found))
        (λ fault. spec.object_field key (view body.now) ≡ Err fault) }
{
    match field(body, key) {
        None => Ok(None),
        Some(value) => {
            if value.is_object() {
                Ok(Some(value))
            } else {
                Err(BodyFault::BadField(key))
            }
        }
    }
}
