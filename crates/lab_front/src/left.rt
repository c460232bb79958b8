// What the daemon leaves out, and what one without a swarm doesn't keep.
ghost use Rattle.std.specs.Prelude.{◌≡◌};
ghost use Rattle.lab_front.specs.Left as spec;

use crate::path::cut_at;
use crate::table::Row;

/// A call of a container that the daemon leaves out.
#[derive(Clone, Copy, Debug, PartialEq, Eq)]
pub enum LeftOut {
    Top,
    Stats,
    Changes,
    Export,
    Archive,
    /// Also that of an exec.
    Resize,
    /// Of containers, and of volumes with filters.
    Prune,
}

/// Whether a path is that of what managers of a swarm keep.
fn is_of_swarm(path: &str) -> bool
    ensures { result ≡ spec.is_of_swarm path.now }
{
    let (first, _) = cut_at(path, '/');
    first == "swarm"
        || first == "nodes"
        || first == "services"
        || first == "tasks"
        || first == "secrets"
        || first == "configs"
}

/// What is read of a container.
fn left_get(path: &str) -> Option<LeftOut>
    ensures { result ≡ spec.left_get path.now }
{
    let bytes = path.as_bytes();
    if bytes.ends_with(b"/top") {
        return Some(LeftOut::Top);
    }
    if bytes.ends_with(b"/stats") {
        return Some(LeftOut::Stats);
    }
    if bytes.ends_with(b"/changes") {
        return Some(LeftOut::Changes);
    }
    if bytes.ends_with(b"/export") {
        return Some(LeftOut::Export);
    }
    if bytes.ends_with(b"/archive") {
        return Some(LeftOut::Archive);
    }
    None
}

fn is_resize(path: &str) -> bool
    ensures { result ≡ spec.is_resize path.now }
{
    let bytes = path.as_bytes();
    bytes.ends_with(b"/resize")
        && (bytes.starts_with(b"containers/") || bytes.starts_with(b"exec/"))
}

/// What is read beside images, networks and the daemon.
pub(crate) fn other_get(path: &str) -> Option<Row>
    ensures { result ≡ spec.other_get path.now }
{
    if path == "plugins" {
        return Some(Row::Plugins);
    }
    if is_of_swarm(path) {
        return Some(Row::NoSwarm);
    }
    if path.as_bytes().starts_with(b"containers/") {
        return Some(Row::LeftOut(left_get(path)?));
    }
    None
}

/// What is asked for beside images, networks and builds.
pub(crate) fn other_post(path: &str) -> Option<Row>
    ensures { result ≡ spec.other_post path.now }
{
    if path == "containers/prune" {
        return Some(Row::LeftOut(LeftOut::Prune));
    }
    if is_resize(path) {
        return Some(Row::LeftOut(LeftOut::Resize));
    }
    None
}

/// The answer to a call that is left out.
pub(crate) fn left_text(left: LeftOut) -> &'static str
    ensures { result.now ≡ spec.left_text left }
{
    match left {
        LeftOut::Top => "{\"message\":\"top is left out\"}",
        LeftOut::Stats => "{\"message\":\"stats is left out\"}",
        LeftOut::Changes => "{\"message\":\"changes is left out\"}",
        LeftOut::Export => "{\"message\":\"export is left out\"}",
        LeftOut::Archive => "{\"message\":\"archive is left out\"}",
        LeftOut::Resize => "{\"message\":\"resize is left out\"}",
        LeftOut::Prune => "{\"message\":\"prune is left out\"}",
    }
}

/// What a daemon that is in no swarm answers.
#[tactic(auto, unfolding(crate::specs::Left::no_swarm_text))]
pub(crate) fn no_swarm_text() -> &'static str
    ensures { result.now ≡ spec.no_swarm_text }
{
    "{\"message\":\"This node is not a swarm manager. Use \\\"docker swarm init\\\" or \
     \\\"docker swarm join\\\" to connect this node to swarm and try again.\"}"
}
