// Paths and queries (RFC 3986, section 2.1; the URL Standard, section 5).
ghost use Rattle.std.specs.Prelude.{◌≡◌, ◌++◌, [], flat_map, map, OnOk, IfOk};
ghost use Rattle.api_json.specs.Values.{pairs_of};
ghost use Rattle.form_urlencoded.specs.Form as form;
ghost use Rattle.client_model.specs.Requests as spec;
ghost use Rattle.client_parts.specs.Heads.{segment_text};

use super::pieces::put;
use engine_text::{NoMemory, Pair, Text};
use form_urlencoded::Serializer;
use percent_encoding::percent_encode_byte;
use std::alloc::Global;

/// A byte that stands for itself in a segment.
fn is_unchanged(byte: u8) -> bool
    ensures { result ≡ form.is_unchanged byte }
{
    matches!(byte, b'*' | b'-' | b'.' | b'0'..=b'9' | b'A'..=b'Z' | b'_' | b'a'..=b'z')
}

/// A byte of a segment.
fn put_byte(out: &mut Vec<u8>, byte: u8) -> Result<(), NoMemory>
    ensures { OnOk result (out.new.items ≡ out.old.items ++ spec.escaped_byte byte) }
{
    if is_unchanged(byte) {
        put(out, &[byte])
    } else {
        put(out, percent_encode_byte(byte).as_bytes())
    }
}

/// The bytes of a segment.
fn put_bytes(out: &mut Vec<u8>, segment: &[u8]) -> Result<(), NoMemory>
    ensures { OnOk result
        (out.new.items ≡ out.old.items ++ flat_map spec.escaped_byte segment.now) }
{
    'bytes: for byte in segment {
        put_byte(out, *byte)?;
    }
    Ok(())
}

/// A segment, with its slash.
fn put_segment(out: &mut Vec<u8>, segment: &str) -> Result<(), NoMemory>
    ensures { OnOk result (out.new.items ≡ out.old.items ++ segment_text segment.now) }
{
    put(out, b"/")?;
    put_bytes(out, segment.as_bytes())
}

/// A path.
pub(crate) fn put_path(out: &mut Vec<u8>, path: &[&str]) -> Result<(), NoMemory>
    ensures { OnOk result
        (out.new.items ≡ out.old.items ++ spec.path_text (map (λ s. s.now) path.now)) }
{
    'path: for segment in path {
        put_segment(out, segment)?;
    }
    Ok(())
}

/// The keys and values of a query.
fn form_of(alloc: Global, query: &[Pair]) -> Result<Text, NoMemory>
    ensures { IfOk result (λ t. t ≡ form.extend_pairs [] (pairs_of query.now)) }
{
    let mut form = Serializer::new(String::new(alloc));
    'query: for pair in query {
        form.append_pair(pair.key.as_str(), pair.value.as_str())?;
    }
    Ok(Text::from_string(form.finish()))
}

/// A query, with its question mark.
pub(crate) fn put_query(alloc: Global, out: &mut Vec<u8>, query: &[Pair]) -> Result<(), NoMemory>
    ensures { OnOk result (out.new.items ≡ out.old.items ++ spec.query_text query.now) }
{
    match query {
        [] => Ok(()),
        [_, ..] => {
            let form = form_of(alloc, query)?;
            put(out, b"?")?;
            put(out, form.as_slice())
        }
    }
}
