// The requests that are answered the same at each time.
ghost use Rattle.std.specs.Prelude.{◌≡◌};
ghost use Rattle.http_edge.specs.Reader.{request_of};
ghost use Rattle.lab_front.specs.Rows as spec;

use crate::images::{list_row, pull_row};
use crate::left::{LeftOut, other_get, other_post};
use crate::naming::{image_delete, image_get};
use crate::path::path_of;
use crate::pruning::volumes_row;
use crate::query::query_of;
use http_edge::RequestView;

/// A network, in which nothing is.
#[derive(Clone, Copy, Debug, PartialEq, Eq)]
pub enum Network {
    Bridge,
    Host,
    None,
}

/// A request that is answered the same at each time.
#[derive(Clone, Copy, Debug, PartialEq, Eq)]
pub enum Row {
    /// What the daemon is.
    Info,
    /// What is used of the disk.
    DiskUse,
    /// The list of images.
    Images,
    /// The same, where filters leave the one image out; or of what a registry has.
    NoImages,
    /// The one image.
    Image,
    /// Its layers.
    Layers,
    /// The one image, to be removed.
    ImageStays,
    /// Another image.
    NoImage,
    /// The one image, to be fetched.
    Pulled,
    /// Another image, to be fetched.
    NoPull,
    /// The list of networks.
    Networks,
    Network(Network),
    /// Another network.
    NoNetwork,
    PrunedImages,
    PrunedNetworks,
    PrunedBuilds,
    /// Volumes without a name, of which there is none.
    PrunedVolumes,
    /// The list of plugins.
    Plugins,
    /// What managers of a swarm keep.
    NoSwarm,
    /// A call of a container that the daemon leaves out.
    LeftOut(LeftOut),
}

fn network_row(path: &str) -> Row
    ensures { result ≡ spec.network_row path.now }
{
    if path == "networks/bridge" {
        return Row::Network(Network::Bridge);
    }
    if path == "networks/host" {
        return Row::Network(Network::Host);
    }
    if path == "networks/none" {
        return Row::Network(Network::None);
    }
    Row::NoNetwork
}

fn get_row(path: &str, query: &str) -> Option<Row>
    ensures { result ≡ spec.get_row path.now query.now }
{
    if path == "info" {
        return Some(Row::Info);
    }
    if path == "system/df" {
        return Some(Row::DiskUse);
    }
    if path == "images/json" {
        return Some(list_row(query));
    }
    if path == "networks" {
        return Some(Row::Networks);
    }
    if path == "images/search" {
        return Some(Row::NoImages);
    }
    if path.as_bytes().starts_with(b"images/") {
        return image_get(path);
    }
    if path.as_bytes().starts_with(b"networks/") {
        return Some(network_row(path));
    }
    other_get(path)
}

fn post_row(path: &str, query: &str) -> Option<Row>
    ensures { result ≡ spec.post_row path.now query.now }
{
    if path == "images/create" {
        return pull_row(query);
    }
    if path == "images/prune" {
        return Some(Row::PrunedImages);
    }
    if path == "networks/prune" {
        return Some(Row::PrunedNetworks);
    }
    if path == "build/prune" {
        return Some(Row::PrunedBuilds);
    }
    if path == "volumes/prune" {
        return Some(volumes_row(query));
    }
    other_post(path)
}

fn row_by(method: &str, query: &str, path: &str) -> Option<Row>
    ensures { result ≡ spec.row_by method.now query.now path.now }
{
    if method == "GET" {
        return get_row(path, query);
    }
    if method == "POST" {
        return post_row(path, query);
    }
    if method == "DELETE" {
        return image_delete(path);
    }
    None
}

/// The row of a request, if it has one. It takes no memory.
pub fn row_of(request: &RequestView<'_>) -> Option<Row>
    ensures { result ≡ spec.row_of (request_of request.now) }
{
    let target = request.target();
    row_by(request.method(), query_of(target), path_of(target)?)
}
