// What the fields of a request ask for.
ghost use Rattle.std.specs.Prelude.{◌≡◌, ◌≢◌, ◌<◌, ◌≤◌, ℕ, List, length, map, All, slice_index, take};
ghost use Rattle.httparse.specs.Spans.{IsHeaderWithin, header_bytes};
ghost use Rattle.httparse.specs.Grammar.{trim_ows, is_ows};
ghost use Rattle.http_edge.specs.Message.{is_same_text};
ghost use Rattle.http_edge.specs.Asks.{has_token, fits, has_field};

use httparse::spans::HeaderSpan;

/// How a field's value is compared.
#[derive(Clone, Copy, Debug, PartialEq, Eq)]
pub enum Want {
    /// As a whole.
    Value,
    /// By what it begins with.
    Front,
    /// As a list of tokens between commas.
    Token,
}

/// Whether a field of this name has such a value.
pub(crate) fn has_field(
    bytes: &[u8],
    fields: &[HeaderSpan],
    name: &[u8],
    kind: Want,
    want: &[u8],
) -> bool
    requires { All (IsHeaderWithin (length bytes.now)) fields.now }
    ensures { result ≡ has_field name.now kind want.now (map (header_bytes bytes.now) fields.now) }
{
    for field in fields {
        if is_same_text(field.name.of(bytes), name) && fits(kind, want, field.value.of(bytes)) {
            return true;
        }
    }
    false
}

/// Whether the value is this one, begins with it, or holds it as a token.
fn fits(kind: Want, want: &[u8], value: &[u8]) -> bool
    ensures { result ≡ fits kind want.now value.now }
{
    match kind {
        Want::Value => is_same_text(value, want),
        Want::Front => begins_with(value, want),
        Want::Token => has_token(want, value),
    }
}

/// Whether the value begins with this text, in any case of its ASCII letters.
fn begins_with(value: &[u8], front: &[u8]) -> bool
    ensures { result ≡ is_same_text (take (length front.now) value.now) front.now }
{
    if value.len() < front.len() {
        return is_same_text(value, front);
    }
    is_same_text(&value[..front.len()], front)
}

/// Whether the texts are the same, in any case of their ASCII letters.
fn is_same_text(a: &[u8], b: &[u8]) -> bool
    ensures { result ≡ is_same_text a.now b.now }
{
    a.eq_ignore_ascii_case(b)
}

/// Whether one of the parts between commas is the token.
fn has_token(token: &[u8], value: &[u8]) -> bool
    ensures { result ≡ has_token token.now value.now }
{
    let mut rest = value;
    'parts: loop {
        let end = first_comma(rest);
        if is_same_text(trim(&rest[..end]), token) {
            return true;
        }
        if end == rest.len() {
            return false;
        }
        let tail = &rest[end..];
        rest = &tail[1..];
    }
}

/// The place of the first comma, or the length where there is none.
fn first_comma(bytes: &[u8]) -> usize
    ensures within { result ≤ length bytes.now }
    ensures before { (k : ℕ) → k < result → slice_index bytes.now k ≢ 44 }
    ensures found { result < length bytes.now → slice_index bytes.now result ≡ 44 }
{
    for (i, byte) in bytes.iter().enumerate() {
        if *byte == b',' {
            return i;
        }
    }
    bytes.len()
}

/// The bytes without the spaces and tabs at both ends.
fn trim(bytes: &[u8]) -> &[u8]
    ensures { result.now ≡ trim_ows bytes.now }
{
    let mut start = 0;
    let mut end = bytes.len();
    while start < end && is_blank(bytes[start]) {
        start += 1;
    }
    while start < end && is_blank(bytes[end - 1]) {
        end -= 1;
    }
    &bytes[start..end]
}

/// Whether this is a space or a tab.
fn is_blank(byte: u8) -> bool
    ensures { result ≡ is_ows byte }
{
    byte == b' ' || byte == b'\t'
}
