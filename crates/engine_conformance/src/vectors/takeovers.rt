// Vectors of takeovers.
use crate::answers::tells;
use crate::asking::requests;
use crate::running::{STDIO, run};
use crate::short::Short;
use std::alloc::Global;
use std::sync::Wait;
use std::thread::Threads;

/// An attach with standard input, and what is behind it.
const FED: &str =
    "POST /v1.43/containers/web/attach?stream=1&stdin=1&stdout=1 HTTP/1.1\r\nHost: x\r\n\
Upgrade: tcp\r\nConnection: Upgrade\r\n\r\nabc\n";

/// What a container is fed comes back as a frame.
pub fn what_is_fed_comes_back<R: Threads + Wait + Sync>(
    rt: &R,
    alloc: Global,
) -> Result<bool, Short> {
    let asked =
        r#"POST /v1.43/containers/create?name=web {"Image":"engine/tools","Cmd":["cat"],"OpenStdin":true,"StdinOnce":true}
POST /v1.43/containers/web/start"#;
    let mut input = requests(alloc, asked)?;
    input.extend_from_slice(FED.as_bytes())?;
    let ran = run(rt, alloc, STDIO, &input)?;
    let told = "201\n204\n101 UPGRADED .. \u{1}\0\0\0\0\0\0\u{4}abc";
    Ok(ran.status == 0 && tells(alloc, ran.out.bytes(), told)?)
}

/// An exec that a session takes over, and one that is detached.
pub fn an_exec_starts_once<R: Threads + Wait + Sync>(rt: &R, alloc: Global) -> Result<bool, Short> {
    let before = r#"POST /v1.43/containers/create?name=web {"Image":"engine/tools","Cmd":["deaf"]}
POST /v1.43/containers/web/start
POST /v1.43/containers/web/exec {"AttachStdout":true,"Cmd":["echo","x"]}
GET /v1.43/exec/ID1/json"#;
    let taken = r#"POST /v1.43/exec/ID1/start {"Detach":false,"Tty":false}"#;
    let detached = r#"POST /v1.43/exec/ID1/start {"Detach":true,"Tty":false}
GET /v1.43/exec/ID1/json
POST /v1.43/exec/ID1/start {"Detach":true,"Tty":false}
POST /v1.43/containers/web/pause
POST /v1.43/containers/web/exec {"AttachStdout":true,"Cmd":["echo","x"]}"#;
    let made = "201\n204\n201 {\"Id\":\"ID1\"}\n200 \"ExitCode\":null";
    let first = requests(alloc, &format!(in alloc; "{before}\n{taken}")?)?;
    let second = requests(alloc, &format!(in alloc; "{before}\n{detached}")?)?;
    let attached = run(rt, alloc, STDIO, &first)?;
    let alone = run(rt, alloc, STDIO, &second)?;
    let told = format!(in alloc; "{made}\n200 \u{1}\0\0\0\0\0\0\u{2}x")?;
    let behind = format!(in alloc; "{made}\n200\n200 \"ExitCode\":0\n409\n204\n409")?;
    Ok(
        attached.status == 0
            && tells(alloc, attached.out.bytes(), &told)?
            && alone.status == 0
            && tells(alloc, alone.out.bytes(), &behind)?,
    )
}
