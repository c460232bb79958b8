// Which requests are asked of networks.
ghost use Rattle.std.specs.Prelude.{◌≡◌, ◌==◌, option_map};
ghost use Rattle.http_edge.specs.Reader.{request_of};
ghost use Rattle.lab_networks.specs.Asking as spec;

use http_edge::RequestView;
use lab_front::{cut_at, path_of};

/// What is asked of networks.
#[derive(Clone, Copy, Debug, PartialEq, Eq)]
pub enum Kind {
    /// The list.
    Lists,
    /// One of them.
    Reads,
    /// One to be made.
    Makes,
    /// One to be removed.
    Removes,
    /// A container to be joined to one, or parted from it.
    Joins,
    /// All to be removed in which nothing is.
    Prunes,
}

/// What stands before the first slash, and behind it.
fn cut(path: &str) -> (&str, &str)
    ensures front { result.0.now ≡ spec.first_of path.now }
    ensures back { result.1.now ≡ spec.rest_of path.now }
{
    cut_at(path, '/')
}

/// What stands behind the first slash.
fn rest_of(path: &str) -> &str
    ensures { result.now ≡ spec.rest_of path.now }
{
    let (_, rest) = cut(path);
    rest
}

fn get_kind(rest: &str) -> Option<Kind>
    ensures { result ≡ spec.get_kind rest.now }
{
    if rest == "" {
        return Some(Kind::Lists);
    }
    if rest_of(rest) == "" {
        return Some(Kind::Reads);
    }
    None
}

/// Whether this is the last segment of a join.
fn is_join(last: &str) -> bool
    ensures { result ≡ spec.is_join last.now }
{
    last == "connect" || last == "disconnect"
}

fn post_kind(rest: &str) -> Option<Kind>
    ensures { result ≡ spec.post_kind rest.now }
{
    if rest == "create" {
        return Some(Kind::Makes);
    }
    if rest == "prune" {
        return Some(Kind::Prunes);
    }
    if is_join(rest_of(rest)) {
        return Some(Kind::Joins);
    }
    None
}

fn delete_kind(rest: &str) -> Option<Kind>
    ensures { result ≡ spec.delete_kind rest.now }
{
    if rest == "" {
        return None;
    }
    if rest_of(rest) == "" {
        return Some(Kind::Removes);
    }
    None
}

fn method_kind(method: &str, rest: &str) -> Option<Kind>
    ensures { result ≡ spec.method_kind method.now rest.now }
{
    if method == "GET" {
        return get_kind(rest);
    }
    if method == "POST" {
        return post_kind(rest);
    }
    if method == "DELETE" {
        return delete_kind(rest);
    }
    None
}

fn kind_by(method: &str, path: &str) -> Option<Kind>
    ensures { result ≡ spec.kind_by method.now path.now }
{
    let (first, rest) = cut(path);
    if first == "networks" {
        return method_kind(method, rest);
    }
    None
}

/// What a request asks of networks, if it does. It takes no memory.
pub fn kind_of(request: &RequestView<'_>) -> Option<Kind>
    ensures { result ≡ spec.kind_of (request_of request.now) }
{
    kind_by(request.method(), path_of(request.target())?)
}

/// The name or id in a path behind `networks`.
fn called_in(path: &str) -> &str
    ensures { result.now ≡ spec.first_of (spec.rest_of path.now) }
{
    let (called, _) = cut(rest_of(path));
    called
}

/// The name or id that a target tells.
pub(crate) fn called_of(target: &str) -> &str
    ensures { result.now ≡ spec.called_of target.now }
{
    match path_of(target) {
        Some(path) => called_in(path),
        None => "",
    }
}
