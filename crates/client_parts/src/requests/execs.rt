// Requests on an exec.
ghost use Rattle.std.specs.Prelude.{◌≡◌, IfOk};
ghost use Rattle.client_model.specs.Requests.{request_bytes};
ghost use Rattle.client_model.specs.Commands.Exec as exec;

use super::bodies::exec_value;
use super::written::{get, post_body, take_over};
use engine_text::{NoMemory, Text};
use std::alloc::Global;

/// `POST /containers/REF/exec`.
pub fn exec_create_request(
    alloc: Global,
    target: &str,
    words: &[Text],
    input: bool,
) -> Result<Vec<u8>, NoMemory>
    ensures { IfOk result
        (λ r. r.items ≡ request_bytes (exec.exec_create_request target.now words.now input)) }
{
    let body = exec_value(alloc, words, input)?;
    post_body(alloc, &["containers", target, "exec"], &[], &body)
}

/// `POST /exec/ID/start`.
pub fn exec_start_request(alloc: Global, id: &str) -> Result<Vec<u8>, NoMemory>
    ensures { IfOk result (λ r. r.items ≡ request_bytes (exec.exec_start_request id.now)) }
{
    take_over(alloc, &["exec", id, "start"], &[])
}

/// `GET /exec/ID/json`.
pub fn exec_inspect_request(alloc: Global, id: &str) -> Result<Vec<u8>, NoMemory>
    ensures { IfOk result (λ r. r.items ≡ request_bytes (exec.exec_inspect_request id.now)) }
{
    get(alloc, &["exec", id, "json"], &[])
}
