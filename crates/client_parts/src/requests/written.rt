// A request, whole.
ghost use Rattle.std.specs.Prelude.{◌≡◌, ◌++◌, ◌<◌, flat_map, length, map, false, OnOk, IfOk};
ghost use Rattle.serde_json.specs.View.{view};
ghost use Rattle.serde_json.specs.Written.{has_float};
ghost use Rattle.client_model.specs.Requests as spec;
ghost use Rattle.client_parts.specs.Heads as head;

use super::escaped::{put_path, put_query};
use super::pieces::put;
use client_model::Manner;
use engine_text::{NoMemory, Pair};
use itoa::Buffer;
use serde_json::Value;
use std::alloc::Global;

/// What stands between the target and the fields of a body.
fn behind_target(manner: Manner) -> &'static [u8]
    ensures { result.now ≡ head.behind_target manner }
{
    match manner {
        Manner::Closes => b" HTTP/1.1\r\nHost: engine\r\nConnection: close\r\n",
        Manner::Upgrades => b" HTTP/1.1\r\nHost: engine\r\nConnection: Upgrade\r\nUpgrade: tcp\r\n",
    }
}

/// The fields of a body that isn't empty.
fn put_sized(out: &mut Vec<u8>, body: &[u8]) -> Result<(), NoMemory>
    requires { 0 < length body.now }
    ensures { OnOk result
        (out.new.items ≡ out.old.items ++ flat_map spec.field_line (spec.body_fields body.now)) }
{
    let mut digits = Buffer::new();
    put(out, b"Content-Length: ")?;
    put(out, digits.format(body.len()).as_bytes())?;
    put(out, b"\r\nContent-Type: application/json\r\n")?;
    Ok(())
}

/// The fields of a body.
fn put_body_fields(out: &mut Vec<u8>, body: &[u8]) -> Result<(), NoMemory>
    ensures { OnOk result
        (out.new.items ≡ out.old.items ++ flat_map spec.field_line (spec.body_fields body.now)) }
{
    match body {
        [] => Ok(()),
        [_, ..] => put_sized(out, body),
    }
}

/// A request by its method, its manner, its path, its query and its body.
fn request(
    alloc: Global,
    method: &str,
    manner: Manner,
    path: &[&str],
    query: &[Pair],
    body: &[u8],
) -> Result<Vec<u8>, NoMemory>
    ensures { IfOk result (λ r. r.items ≡ spec.request_bytes
        (spec.request_of method.now manner (map (λ s. s.now) path.now) query.now body.now)) }
{
    let mut out = Vec::new(alloc);
    put(&mut out, method.as_bytes())?;
    put(&mut out, b" /v1.43")?;
    put_path(&mut out, path)?;
    put_query(alloc, &mut out, query)?;
    put(&mut out, behind_target(manner))?;
    put_body_fields(&mut out, body)?;
    put(&mut out, b"\r\n")?;
    put(&mut out, body)?;
    Ok(out)
}

/// A GET.
pub(crate) fn get(alloc: Global, path: &[&str], query: &[Pair]) -> Result<Vec<u8>, NoMemory>
    ensures { IfOk result
        (λ r. r.items ≡ spec.request_bytes (spec.get (map (λ s. s.now) path.now) query.now)) }
{
    request(alloc, "GET", Manner::Closes, path, query, &[])
}

/// A DELETE.
pub(crate) fn delete(alloc: Global, path: &[&str], query: &[Pair]) -> Result<Vec<u8>, NoMemory>
    ensures { IfOk result
        (λ r. r.items ≡ spec.request_bytes (spec.delete (map (λ s. s.now) path.now) query.now)) }
{
    request(alloc, "DELETE", Manner::Closes, path, query, &[])
}

/// A POST without a body.
pub(crate) fn post(alloc: Global, path: &[&str], query: &[Pair]) -> Result<Vec<u8>, NoMemory>
    ensures { IfOk result
        (λ r. r.items ≡ spec.request_bytes (spec.post (map (λ s. s.now) path.now) query.now)) }
{
    request(alloc, "POST", Manner::Closes, path, query, &[])
}

/// A POST whose answer takes the connection over.
pub(crate) fn take_over(alloc: Global, path: &[&str], query: &[Pair]) -> Result<Vec<u8>, NoMemory>
    ensures { IfOk result (λ r. r.items ≡ spec.request_bytes
        (spec.take_over (map (λ s. s.now) path.now) query.now)) }
{
    request(alloc, "POST", Manner::Upgrades, path, query, &[])
}

/// A POST with a body.
pub(crate) fn post_body(
    alloc: Global,
    path: &[&str],
    query: &[Pair],
    body: &Value,
) -> Result<Vec<u8>, NoMemory>
    requires { has_float (view body.now) ≡ false }
    ensures { IfOk result (λ r. r.items ≡ spec.request_bytes
        (spec.post_body (map (λ s. s.now) path.now) query.now (view body.now))) }
{
    let text = body.to_vec(alloc)?;
    request(alloc, "POST", Manner::Closes, path, query, &text)
}
