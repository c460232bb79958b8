// Vectors of what is refused, and of answers that ask nothing of the machine.
use crate::answers::tells;
use crate::asking::requests;
use crate::running::{STDIO, run};
use crate::short::Short;
use std::alloc::Global;
use std::sync::Wait;
use std::thread::Threads;

/// The usage line.
const USAGE: &str = "usage: engined --stdio | --listen ADDR | --drill N [--seed HEX] \
[--clock START:STEP] [--connections N] [--journal N]\n";

/// The answer of a ping, behind its body's place.
const PONG_HEAD: &str = "HTTP/1.1 200 OK\r\nApi-Version: 1.43\r\nContent-Length: 2\r\n\
Content-Type: text/plain; charset=utf-8\r\nServer: engined\r\n\r\n";

// Whether the session over these bytes ends with this status, and is answered by these lines.
fn ends_so<R: Threads + Wait + Sync>(
    rt: &R,
    alloc: Global,
    input: &[u8],
    status: u8,
    told: &str,
) -> Result<bool, Short> {
    let ran = run(rt, alloc, STDIO, input)?;
    Ok(ran.status == status && tells(alloc, ran.out.bytes(), told)?)
}

/// Requests that are refused for their form or their version, and one that is cut.
pub fn a_wrong_form_is_refused<R: Threads + Wait + Sync>(
    rt: &R,
    alloc: Global,
) -> Result<bool, Short> {
    let too_long =
        b"POST /containers/create HTTP/1.1\r\nHost: x\r\nContent-Length: 1048577\r\n\r\n";
    let no_host = b"GET /_ping HTTP/1.1\r\n\r\n";
    let too_new = b"GET /v1.44/_ping HTTP/1.1\r\nHost: x\r\n\r\n";
    let older = b"GET /_ping HTTP/1.0\r\nHost: x\r\n\r\n";
    let new =
        r#"400 {"message":"client version 1.44 is too new. Maximum supported API version is 1.43"}"#;
    let cut = run(rt, alloc, STDIO, b"GET /_ping HT")?;
    Ok(
        cut.is(3, b"")
            && ends_so(rt, alloc, too_long, 3, "413")?
            && ends_so(rt, alloc, no_host, 3, "400")?
            && ends_so(rt, alloc, too_new, 0, new)?
            && ends_so(rt, alloc, older, 3, "505")?,
    )
}

/// A ping, one that asks for its head alone, and a path that is none.
pub fn a_ping_is_answered<R: Threads + Wait + Sync>(rt: &R, alloc: Global) -> Result<bool, Short> {
    let ping = requests(alloc, "GET /_ping")?;
    let head = requests(alloc, "HEAD /_ping")?;
    let nothing = requests(alloc, "GET /nothing")?;
    let pong = format!(in alloc; "{PONG_HEAD}OK")?;
    let pinged = run(rt, alloc, STDIO, &ping)?;
    let headed = run(rt, alloc, STDIO, &head)?;
    Ok(
        pinged.is(0, pong.as_bytes())
            && headed.is(0, PONG_HEAD.as_bytes())
            && ends_so(
                rt,
                alloc,
                &nothing,
                0,
                r#"404 {"message":"page not found"}"#,
            )?,
    )
}

/// No input, and words that are no line.
pub fn no_input_is_no_fault<R: Threads + Wait + Sync>(
    rt: &R,
    alloc: Global,
) -> Result<bool, Short> {
    let nothing = run(rt, alloc, STDIO, b"")?;
    let wrong = run(rt, alloc, "--stdio --listen 127.0.0.1:1", b"")?;
    Ok(nothing.is(0, b"") && wrong.is(2, USAGE.as_bytes()))
}
