// A list of the one container of a name is handed on without filters.
ghost use Rattle.std.specs.Prelude.{◌≡◌, ◌≤◌, length, option_map, option_and_then};
ghost use Rattle.http_edge.specs.Reader.{request_of};
ghost use Rattle.lab_front.specs.Rows.{path_of};
ghost use Rattle.lab_handed.specs.Exact as spec;

use crate::keys::are_ascii;
use http_edge::RequestView;
use lab_front::{path_of, query_in, query_of, value_of};

fn is_name_byte(byte: u8) -> bool
    ensures { result ≡ spec.is_name_byte byte }
{
    byte.is_ascii_alphanumeric() || byte == b'_' || byte == b'.' || byte == b'-'
}

fn are_name_bytes(bytes: &[u8]) -> bool
    ensures { result ≡ spec.are_name_bytes bytes.now }
{
    bytes.iter().all(|byte| is_name_byte(*byte))
}

/// Whether bytes are a name.
fn is_name(bytes: &[u8]) -> bool
    ensures { result ≡ spec.is_name bytes.now }
{
    if are_name_bytes(bytes) {
        return 0 < bytes.len() && bytes.len() <= 200;
    }
    false
}

/// What stands between so many bytes at the front and at the back.
fn middle(value: &[u8], front: usize, back: usize) -> &[u8]
    ensures { result.now ≡ spec.middle front back value.now }
{
    let behind = &value[front.min(value.len())..];
    &behind[..behind.len().saturating_sub(back)]
}

/// The name between two texts that a value begins and ends with.
fn between<'v>(front: &[u8], back: &[u8], value: &'v [u8]) -> Option<&'v [u8]>
    ensures { option_map (λ v. v.now) result ≡ spec.between front.now back.now value.now }
{
    if value.starts_with(front) && value.ends_with(back) {
        let name = middle(value, front.len(), back.len());
        if is_name(name) {
            return Some(name);
        }
    }
    None
}

/// The name that filters ask for behind a slash.
fn behind_slash(value: &[u8]) -> Option<&[u8]>
    ensures { option_map (λ v. v.now) result ≡ spec.behind_slash value.now }
{
    if let Some(name) = between(b"%7B%22name%22%3A%5B%22%5E%2F", b"%24%22%5D%7D", value) {
        return Some(name);
    }
    if let Some(name) = between(b"%7B%22name%22%3A+%5B%22%5E%2F", b"%24%22%5D%7D", value) {
        return Some(name);
    }
    between(
        b"%7B%22name%22%3A%7B%22%5E%2F",
        b"%24%22%3Atrue%7D%7D",
        value,
    )
}

/// The name that filters ask for without a slash.
fn without_slash(value: &[u8]) -> Option<&[u8]>
    ensures { option_map (λ v. v.now) result ≡ spec.without_slash value.now }
{
    if let Some(name) = between(b"%7B%22name%22%3A%5B%22%5E", b"%24%22%5D%7D", value) {
        return Some(name);
    }
    if let Some(name) = between(b"%7B%22name%22%3A+%5B%22%5E", b"%24%22%5D%7D", value) {
        return Some(name);
    }
    between(b"%7B%22name%22%3A%7B%22%5E", b"%24%22%3Atrue%7D%7D", value)
}

/// The name that filters ask for, where they ask for the container of one name alone.
fn exact_in(value: &[u8]) -> Option<&[u8]>
    ensures { option_map (λ v. v.now) result ≡ spec.exact_in value.now }
{
    if let Some(name) = behind_slash(value) {
        return Some(name);
    }
    without_slash(value)
}

/// The name that a query's filters ask for.
fn name_of(query: &[u8]) -> Option<&[u8]>
    ensures { option_map (λ v. v.now) result ≡ spec.name_of query.now }
{
    match value_of(b"filters", query) {
        Some(value) => exact_in(value),
        None => None,
    }
}

fn is_target_of_list(target: &str) -> bool
    ensures { result ≡ spec.is_path_of_list (path_of target.now) }
{
    match path_of(target) {
        Some(path) => path == "containers/json",
        None => false,
    }
}

/// Whether a value sets no limit.
fn is_unlimited(value: Option<&[u8]>) -> bool
    ensures { result ≡ spec.is_unlimited (option_map (λ v. v.now) value.entry) }
{
    match value {
        Some(value) => value == b"".as_slice()
            || value == b"0".as_slice()
            || value == b"-1".as_slice(),
        None => true,
    }
}

/// Whether a query asks for the container of a name, without a limit.
fn asks_exact(query: &[u8]) -> bool
    ensures { result ≡ spec.asks_exact query.now }
{
    if is_unlimited(value_of(b"limit", query)) {
        return name_of(query).is_some();
    }
    false
}

/// Whether such a list is asked for by this target.
fn is_target_exact(target: &str) -> bool
    ensures { result ≡ spec.is_target_exact target.now }
{
    if is_target_of_list(target) && are_ascii(target.as_bytes()) {
        return target.len() <= 512 && asks_exact(query_of(target).as_bytes());
    }
    false
}

/// Whether a request asks for the list of the one container of a name.
pub(crate) fn takes_exact(request: &RequestView<'_>) -> bool
    ensures { result ≡ spec.takes_exact (request_of request.now) }
{
    if request.method() == "GET" {
        return is_target_exact(request.target());
    }
    false
}

/// The key of no filters, before other keys.
pub(crate) fn no_filters() -> &'static [u8]
    ensures text { result.now ≡ spec.no_filters }
    ensures short { length result.now ≤ 32 }
{
    b"filters=&"
}

/// The name that is asked for by a request that begins with these bytes and was handed on so.
pub fn exact_by(bytes: &[u8]) -> Option<&[u8]>
    ensures { option_map (λ v. v.now) result ≡ spec.exact_by bytes.now }
{
    let query = query_in(bytes);
    if query.starts_with(no_filters()) {
        return name_of(&query[9..]);
    }
    None
}
