// Requests on volumes.
ghost use Rattle.std.specs.Prelude.{◌≡◌, IfOk};
ghost use Rattle.client_model.specs.Requests.{request_bytes};
ghost use Rattle.client_model.specs.Commands.VolumeCreate as create;
ghost use Rattle.client_model.specs.Commands.VolumeInspect as inspect;
ghost use Rattle.client_model.specs.Commands.VolumeList as list;
ghost use Rattle.client_model.specs.Commands.VolumeRemove as remove;

use super::bodies::volume_value;
use super::written::{delete, get, post_body};
use engine_text::NoMemory;
use std::alloc::Global;

/// `POST /volumes/create`.
pub fn volume_create_request(alloc: Global, name: &str) -> Result<Vec<u8>, NoMemory>
    ensures { IfOk result (λ r. r.items ≡ request_bytes (create.volume_create_request name.now)) }
{
    let body = volume_value(alloc, name)?;
    post_body(alloc, &["volumes", "create"], &[], &body)
}

/// `GET /volumes/NAME`.
pub fn volume_inspect_request(alloc: Global, name: &str) -> Result<Vec<u8>, NoMemory>
    ensures { IfOk result (λ r. r.items ≡ request_bytes (inspect.volume_inspect_request name.now)) }
{
    get(alloc, &["volumes", name], &[])
}

/// `DELETE /volumes/NAME`.
pub fn volume_remove_request(alloc: Global, name: &str) -> Result<Vec<u8>, NoMemory>
    ensures { IfOk result (λ r. r.items ≡ request_bytes (remove.volume_remove_request name.now)) }
{
    delete(alloc, &["volumes", name], &[])
}

/// `GET /volumes`.
pub fn volume_list_request(alloc: Global) -> Result<Vec<u8>, NoMemory>
    ensures { IfOk result (λ r. r.items ≡ request_bytes list.volume_list_request) }
{
    get(alloc, &["volumes"], &[])
}
