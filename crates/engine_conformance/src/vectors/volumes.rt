// Vectors of volumes.
use crate::answers::tells;
use crate::asking::requests;
use crate::running::{STDIO, run};
use crate::short::Short;
use std::alloc::Global;
use std::sync::Wait;
use std::thread::Threads;

/// A volume is removed once nobody refers to it.
pub fn a_volume_in_use_stays<R: Threads + Wait + Sync>(
    rt: &R,
    alloc: Global,
) -> Result<bool, Short> {
    let asked =
        r#"POST /v1.43/containers/create?name=web {"Image":"engine/tools","HostConfig":{"Binds":["data1:/d"]}}
DELETE /v1.43/volumes/data1
DELETE /v1.43/containers/web
DELETE /v1.43/volumes/data1
DELETE /v1.43/volumes/data1"#;
    let input = requests(alloc, asked)?;
    let ran = run(rt, alloc, STDIO, &input)?;
    Ok(ran.status == 0 && tells(alloc, ran.out.bytes(), "201\n409\n204\n204\n404")?)
}
