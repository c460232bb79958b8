// Vectors of what containers go through.
use crate::answers::tells;
use crate::asking::requests;
use crate::running::{STDIO, run};
use crate::short::Short;
use std::alloc::Global;
use std::sync::Wait;
use std::thread::Threads;

// Whether the requests of these lines are answered by these.
fn answers_so<R: Threads + Wait + Sync>(
    rt: &R,
    alloc: Global,
    asked: &str,
    told: &str,
) -> Result<bool, Short> {
    let input = requests(alloc, asked)?;
    let ran = run(rt, alloc, STDIO, &input)?;
    Ok(ran.status == 0 && tells(alloc, ran.out.bytes(), told)?)
}

/// A start of what runs, and a stop of what was never started.
pub fn start_of_a_running_container_is_304<R: Threads + Wait + Sync>(
    rt: &R,
    alloc: Global,
) -> Result<bool, Short> {
    let asked = r#"POST /v1.43/containers/create?name=web {"Image":"engine/tools","Cmd":["deaf"]}
POST /v1.43/containers/web/start
POST /v1.43/containers/web/start
POST /v1.43/containers/create?name=db {"Image":"engine/tools"}
POST /v1.43/containers/db/stop"#;
    answers_so(rt, alloc, asked, "201\n204\n304\n201\n304")
}

/// A policy that starts three times again.
pub fn a_policy_starts_three_times_again<R: Threads + Wait + Sync>(
    rt: &R,
    alloc: Global,
) -> Result<bool, Short> {
    let asked =
        r#"POST /v1.43/containers/create?name=web {"Image":"engine/tools","Cmd":["exit","1"],"HostConfig":{"RestartPolicy":{"Name":"on-failure","MaximumRetryCount":3}}}
POST /v1.43/containers/web/start
POST /v1.43/containers/web/wait
GET /v1.43/containers/web/json
GET /v1.43/events?since=0&until=1700000000.7"#;
    let told = r#"201
204
200 {"StatusCode":1}
200 "RestartCount":3,"State":{"Dead":false,"Error":"","ExitCode":1,"FinishedAt":"2023-11-14T22:13:20.700000000Z","OOMKilled":false,"Paused":false,"Pid":0,"Restarting":false,"Running":false,"StartedAt":"2023-11-14T22:13:20.700000000Z","Status":"exited"}
200 "Action":"die" .. "timeNano":1700000000000000000 .. "Action":"die" .. "timeNano":1700000000100000000 .. "Action":"die" .. "timeNano":1700000000300000000 .. "Action":"die" .. "timeNano":1700000000700000000"#;
    answers_so(rt, alloc, asked, told)
}

/// Stops of a container that ends by the signal, and of one that hears none.
pub fn a_stop_waits_for_its_deadline<R: Threads + Wait + Sync>(
    rt: &R,
    alloc: Global,
) -> Result<bool, Short> {
    let asked = r#"POST /v1.43/containers/create?name=trap {"Image":"engine/tools","Cmd":["trap"]}
POST /v1.43/containers/trap/start
POST /v1.43/containers/trap/stop?t=1
GET /v1.43/events?since=0&until=1700000000.5
GET /v1.43/containers/trap/logs?stdout=1&timestamps=1
POST /v1.43/containers/create?name=deaf {"Image":"engine/tools","Cmd":["deaf"]}
POST /v1.43/containers/deaf/start
POST /v1.43/containers/deaf/stop?t=1
GET /v1.43/events?since=1700000000.6&until=1700000001.5"#;
    let told = r#"201
204
204
200 "Action":"start" .. "Action":"kill" .. "signal":"15" .. "Action":"die" .. "exitCode":"0" .. "timeNano":1700000000500000000 .. "Action":"stop"
200 2023-11-14T22:13:20.500000000Z bye
201
204
204
200 "Action":"kill" .. "signal":"9" .. "Action":"die" .. "exitCode":"137" .. "timeNano":1700000001500000000 .. "Action":"stop""#;
    answers_so(rt, alloc, asked, told)
}

/// A pause, what it refuses, and a kill that ends it.
pub fn a_kill_ends_a_pause<R: Threads + Wait + Sync>(rt: &R, alloc: Global) -> Result<bool, Short> {
    let asked =
        r#"POST /v1.43/containers/create?name=web {"Image":"engine/tools","Cmd":["sleep","60000"]}
POST /v1.43/containers/web/start
POST /v1.43/containers/web/pause
POST /v1.43/containers/web/pause
GET /v1.43/containers/web/json
POST /v1.43/containers/web/start
POST /v1.43/containers/web/kill
GET /v1.43/containers/web/json
GET /v1.43/events?since=0&until=1700000000"#;
    let told = r#"201
204
204
409
200 "Paused":true,"Pid":1001 .. "Running":true .. "Status":"paused"
409
204
200 "ExitCode":137 .. "Status":"exited"
200 "Action":"create" .. "Action":"start" .. "Action":"pause" .. "Action":"kill" .. "signal":"9" .. "Action":"unpause" .. "Action":"die" .. "exitCode":"137""#;
    answers_so(rt, alloc, asked, told)
}

/// A forced removal that times out, and what is left of it.
pub fn a_removal_times_out<R: Threads + Wait + Sync>(rt: &R, alloc: Global) -> Result<bool, Short> {
    let asked =
        r#"POST /v1.43/containers/create?name=web {"Image":"engine/tools","Cmd":["stuck","30000"]}
POST /v1.43/containers/web/start
DELETE /v1.43/containers/web?force=1
GET /v1.43/containers/web/json
POST /v1.43/containers/web/wait
GET /v1.43/containers/web/json
DELETE /v1.43/containers/web"#;
    let told = r#"201
204
409 {"message":"removal of container ID0 timed out"}
200 "Status":"dead"
200 {"StatusCode":137}
200 "FinishedAt":"2023-11-14T22:13:50.000000000Z"
204"#;
    answers_so(rt, alloc, asked, told)
}
