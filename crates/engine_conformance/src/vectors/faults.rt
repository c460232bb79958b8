// Vectors of streams that fail.
use crate::asking::requests;
use crate::running::{STDIO, run_failing};
use crate::short::Short;
use std::alloc::Global;
use std::sync::Wait;
use std::thread::Threads;

/// The first read fails; the first write fails.
pub fn a_failing_stream_ends_the_session<R: Threads + Wait + Sync>(
    rt: &R,
    alloc: Global,
) -> Result<bool, Short> {
    let asked = r#"POST /v1.43/containers/create?name=web {"Image":"engine/tools:latest"}"#;
    let input = requests(alloc, asked)?;
    let unread = run_failing(rt, alloc, STDIO, &input, &[0], &[])?;
    let unwritten = run_failing(rt, alloc, STDIO, &input, &[], &[0])?;
    Ok(unread.is(4, b"") && unwritten.status == 4)
}
