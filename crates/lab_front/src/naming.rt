// What the path of a request says of an image.
ghost use Rattle.std.specs.Prelude.{◌≡◌};
ghost use Rattle.lab_front.specs.Naming as spec;

use crate::table::Row;

/// Whether a path is the one image's itself.
fn is_bare(path: &str) -> bool
    ensures { result ≡ spec.is_bare path.now }
{
    path == "images/engine/tools:latest"
        || path == "images/engine/tools"
        || path == "images/sha256:dc2452a28ddfa42c3d90bbaea861195fde1209aa4b1575039c91db3968531778"
        || path == "images/dc2452a28ddfa42c3d90bbaea861195fde1209aa4b1575039c91db3968531778"
}

/// Whether a path asks for the one image.
fn is_image(path: &str) -> bool
    ensures { result ≡ spec.is_image path.now }
{
    path == "images/engine/tools:latest/json"
        || path == "images/engine/tools/json"
        || path
            == "images/sha256:dc2452a28ddfa42c3d90bbaea861195fde1209aa4b1575039c91db3968531778/json"
        || path == "images/dc2452a28ddfa42c3d90bbaea861195fde1209aa4b1575039c91db3968531778/json"
}

/// Whether a path asks for the one image's layers.
fn is_history(path: &str) -> bool
    ensures { result ≡ spec.is_history path.now }
{
    path == "images/engine/tools:latest/history"
        || path == "images/engine/tools/history"
        || path
            == "images/sha256:dc2452a28ddfa42c3d90bbaea861195fde1209aa4b1575039c91db3968531778/history"
        || path == "images/dc2452a28ddfa42c3d90bbaea861195fde1209aa4b1575039c91db3968531778/history"
}

/// Whether a path asks so for some image.
fn names_image(path: &str) -> bool
    ensures { result ≡ spec.names_image path.now }
{
    let bytes = path.as_bytes();
    bytes.ends_with(b"/json") || bytes.ends_with(b"/history")
}

/// What is read of an image.
pub(crate) fn image_get(path: &str) -> Option<Row>
    ensures { result ≡ spec.image_get path.now }
{
    if is_image(path) {
        return Some(Row::Image);
    }
    if is_history(path) {
        return Some(Row::Layers);
    }
    if names_image(path) {
        return Some(Row::NoImage);
    }
    None
}

/// An image to be removed.
pub(crate) fn image_delete(path: &str) -> Option<Row>
    ensures { result ≡ spec.image_delete path.now }
{
    if is_bare(path) {
        return Some(Row::ImageStays);
    }
    if path.as_bytes().starts_with(b"images/") {
        return Some(Row::NoImage);
    }
    None
}
