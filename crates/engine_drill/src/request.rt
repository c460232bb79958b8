// The request that a word asks for.
ghost use Rattle.std.specs.Prelude.{◌≡◌, ◌<◌, IfOk, string_bytes};
ghost use Rattle.drill_model.specs.Requests.{create_body, post_box, post_create, post_rename, delete_box, request_by, request_of};

use super::deed::{box_of, deed_of, next_box, program_of};
use drill_model::{Deed, Program};
use std::alloc::{AllocError, Global};

/// The body of a create.
fn create_body(program: Program) -> &'static str
    ensures { result.now ≡ create_body program }
{
    match program {
        Program::Deaf => r#"{"Cmd":["deaf"],"Image":"engine/tools"}"#,
        Program::Exit => r#"{"Cmd":["exit","3"],"Image":"engine/tools"}"#,
        Program::Tick => r#"{"Cmd":["tick","5","20"],"Image":"engine/tools"}"#,
        Program::Flaky => {
            r#"{"Cmd":["flaky","2"],"HostConfig":{"RestartPolicy":{"MaximumRetryCount":5,"Name":"on-failure"}},"Image":"engine/tools"}"#
        }
    }
}

/// A create of box k, with a body.
fn post_create(alloc: Global, k: u32, body: &str) -> Result<String, AllocError>
    ensures { IfOk result (λ s. string_bytes s ≡ post_create k body.now) }
{
    let length = body.len();
    format!(in alloc;
        "POST /v1.43/containers/create?name=box-{k} HTTP/1.1\r\nHost: x\r\nContent-Length: {length}\r\n\r\n{body}"
    )
}

/// A POST to box k's operation.
fn post_box(alloc: Global, k: u32, operation: &str) -> Result<String, AllocError>
    ensures { IfOk result (λ s. string_bytes s ≡ post_box k operation.now) }
{
    format!(in alloc; "POST /v1.43/containers/box-{k}{operation} HTTP/1.1\r\nHost: x\r\n\r\n")
}

/// A DELETE of box k, with a query.
fn delete_box(alloc: Global, k: u32, query: &str) -> Result<String, AllocError>
    ensures { IfOk result (λ s. string_bytes s ≡ delete_box k query.now) }
{
    format!(in alloc; "DELETE /v1.43/containers/box-{k}{query} HTTP/1.1\r\nHost: x\r\n\r\n")
}

/// A rename of box k to the name of another.
fn post_rename(alloc: Global, k: u32, next: u32) -> Result<String, AllocError>
    ensures { IfOk result (λ s. string_bytes s ≡ post_rename k next) }
{
    format!(in alloc;
        "POST /v1.43/containers/box-{k}/rename?name=box-{next} HTTP/1.1\r\nHost: x\r\n\r\n"
    )
}

/// A list of all containers.
fn list_request(alloc: Global) -> Result<String, AllocError>
    ensures { IfOk result (λ s. string_bytes s ≡ request_by Deed.ListAll 0 Program.Deaf) }
{
    format!(in alloc; "GET /v1.43/containers/json?all=1 HTTP/1.1\r\nHost: x\r\n\r\n")
}

/// An inspect of box k.
fn inspect_request(alloc: Global, k: u32) -> Result<String, AllocError>
    ensures { IfOk result (λ s. string_bytes s ≡ request_by Deed.Inspect k Program.Deaf) }
{
    format!(in alloc; "GET /v1.43/containers/box-{k}/json HTTP/1.1\r\nHost: x\r\n\r\n")
}

/// The request of a deed on box k, with a program.
fn request_by(alloc: Global, deed: Deed, k: u32, program: Program) -> Result<String, AllocError>
    requires { k < 32 }
    ensures { IfOk result (λ s. string_bytes s ≡ request_by deed k program) }
{
    match deed {
        Deed::Create => post_create(alloc, k, create_body(program)),
        Deed::Start => post_box(alloc, k, "/start"),
        Deed::Stop => post_box(alloc, k, "/stop?t=1"),
        Deed::Kill => post_box(alloc, k, "/kill"),
        Deed::Pause => post_box(alloc, k, "/pause"),
        Deed::Unpause => post_box(alloc, k, "/unpause"),
        Deed::Restart => post_box(alloc, k, "/restart?t=1"),
        Deed::Rename => post_rename(alloc, k, next_box(k)),
        Deed::Remove => delete_box(alloc, k, ""),
        Deed::RemoveByForce => delete_box(alloc, k, "?force=1"),
        Deed::ListAll => list_request(alloc),
        Deed::Inspect => inspect_request(alloc, k),
    }
}

/// The request that a word asks for.
pub fn request_of(alloc: Global, word: u32) -> Result<String, AllocError>
    ensures { IfOk result (λ s. string_bytes s ≡ request_of word) }
{
    request_by(alloc, deed_of(word), box_of(word), program_of(word))
}
