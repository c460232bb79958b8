// Vectors of creates, references and lists.
use crate::answers::tells;
use crate::asking::{id_text, requests};
use crate::running::{STDIO, run};
use crate::short::Short;
use std::alloc::Global;
use std::sync::Wait;
use std::thread::Threads;

/// A create of the container `web`.
const WEB: &str = r#"POST /v1.43/containers/create?name=web {"Image":"engine/tools:latest"}"#;

/// What the first create of a daemon is answered.
const CREATED: &str = "HTTP/1.1 201 Created\r\nApi-Version: 1.43\r\nContent-Length: 87\r\n\
Content-Type: application/json\r\nServer: engined\r\n\r\n\
{\"Id\":\"76b8e0ada0f13d90405d6ae55386bd28bdd219b8a08ded1a0000000000000000\",\"Warnings\":[]}";

/// The body of a create as the usual client writes it.
const USUAL: &str =
    r#"POST /v1.43/containers/create?name=web {"Hostname":"","Domainname":"","User":"","AttachStdin":false,"AttachStdout":true,"AttachStderr":true,"Tty":false,"OpenStdin":false,"StdinOnce":false,"Env":null,"Cmd":["echo","hi"],"Image":"engine/tools:latest","Volumes":{},"WorkingDir":"","Entrypoint":null,"OnBuild":null,"Labels":{},"HostConfig":{"Binds":null,"ContainerIDFile":"","LogConfig":{"Type":"","Config":{}},"NetworkMode":"default","PortBindings":{},"RestartPolicy":{"Name":"no","MaximumRetryCount":0},"AutoRemove":false,"VolumeDriver":"","VolumesFrom":null,"ConsoleSize":[24,80],"CapAdd":null,"CapDrop":null,"Dns":[],"DnsOptions":[],"DnsSearch":[],"ExtraHosts":null,"IpcMode":"","Links":null,"OomScoreAdj":0,"PidMode":"","Privileged":false,"ReadonlyRootfs":false,"SecurityOpt":null,"Memory":0,"NanoCpus":0,"PidsLimit":0,"Ulimits":null},"NetworkingConfig":{"EndpointsConfig":{}}}"#;

/// The list behind a create.
const LISTED: &str =
    r#"200 [{"Command":"hello","Created":1700000000,"Id":"ID0","Image":"engine/tools:latest","Labels":{},"Mounts":[],"Names":["/web"],"Ports":[],"State":"created","Status":"Created"}]"#;

/// A create, byte for byte.
pub fn create_answers_201_with_the_id<R: Threads + Wait + Sync>(
    rt: &R,
    alloc: Global,
) -> Result<bool, Short> {
    let input = requests(alloc, WEB)?;
    let ran = run(rt, alloc, STDIO, &input)?;
    Ok(ran.is(0, CREATED.as_bytes()))
}

/// The same name twice, and then none.
pub fn a_name_in_use_is_409<R: Threads + Wait + Sync>(
    rt: &R,
    alloc: Global,
) -> Result<bool, Short> {
    let asked = r#"POST /v1.43/containers/create?name=web {"Image":"engine/tools:latest"}
POST /v1.43/containers/create?name=web {"Image":"engine/tools:latest"}
POST /v1.43/containers/create {"Image":"engine/tools:latest"}
GET /v1.43/containers/ID1/json"#;
    let told = r#"201 {"Id":"ID0","Warnings":[]}
409 {"message":"Conflict. The container name \"/web\" is already in use by container \"ID0\". You have to remove (or rename) that container to be able to reuse that name."}
201 {"Id":"ID1","Warnings":[]}
200 "Name":"/anon-1""#;
    let input = requests(alloc, asked)?;
    let ran = run(rt, alloc, STDIO, &input)?;
    Ok(ran.status == 0 && tells(alloc, ran.out.bytes(), told)?)
}

/// Names of one letter, of two, and of two behind a slash.
pub fn a_name_has_two_letters<R: Threads + Wait + Sync>(
    rt: &R,
    alloc: Global,
) -> Result<bool, Short> {
    let asked = r#"POST /v1.43/containers/create?name=a {"Image":"engine/tools"}
POST /v1.43/containers/create?name=ab {"Image":"engine/tools"}
POST /v1.43/containers/create?name=%2Fab {"Image":"engine/tools"}"#;
    let input = requests(alloc, asked)?;
    let ran = run(rt, alloc, STDIO, &input)?;
    Ok(ran.status == 0 && tells(alloc, ran.out.bytes(), "400\n201\n409")?)
}

/// A create as the usual client writes it, and its log.
pub fn a_create_of_the_usual_client_is_read<R: Threads + Wait + Sync>(
    rt: &R,
    alloc: Global,
) -> Result<bool, Short> {
    let behind = "POST /containers/web/start\nPOST /containers/web/wait\n\
GET /containers/web/logs?stdout=1";
    let asked = format!(in alloc; "{USUAL}\n{behind}")?;
    let input = requests(alloc, &asked)?;
    let ran = run(rt, alloc, STDIO, &input)?;
    let told = "201\n204\n200 {\"StatusCode\":0}\n200 \u{1}\0\0\0\0\0\0\u{3}hi";
    Ok(ran.status == 0 && tells(alloc, ran.out.bytes(), told)?)
}

// The first digit that begins two ids of so many.
fn digit_of_two(alloc: Global, count: u64) -> Result<Option<u8>, Short> {
    let mut seen = Vec::new(alloc);
    for number in 0..count {
        let id = id_text(alloc, number)?;
        let digit = id.as_bytes().first().copied().unwrap_or(0);
        if seen.as_slice().contains(&digit) {
            return Ok(Some(digit));
        }
        seen.push(digit)?;
    }
    Ok(None)
}

// A reference that begins two ids of seventeen containers.
fn is_refused_prefix<R: Threads + Wait + Sync>(rt: &R, alloc: Global) -> Result<bool, Short> {
    let Some(digit) = digit_of_two(alloc, 17)? else {
        return Ok(false);
    };
    let mut asked = String::new(alloc);
    let mut told = String::new(alloc);
    for _ in 0..17 {
        asked.push_str("POST /v1.43/containers/create {\"Image\":\"engine/tools\"}\n")?;
        told.push_str("201\n")?;
    }
    write!(asked, "GET /v1.43/containers/{}/json", char::from(digit))?;
    told.push_str("400 multiple IDs found with provided prefix")?;
    let input = requests(alloc, &asked)?;
    let ran = run(rt, alloc, STDIO, &input)?;
    Ok(tells(alloc, ran.out.bytes(), &told)?)
}

/// References by a part of an id, by one that begins two ids, and by a name that looks like one.
pub fn a_part_of_an_id_finds_its_container<R: Threads + Wait + Sync>(
    rt: &R,
    alloc: Global,
) -> Result<bool, Short> {
    let asked = r#"POST /v1.43/containers/create?name=web {"Image":"engine/tools"}
GET /v1.43/containers/7/json
POST /v1.43/containers/create?name=76 {"Image":"engine/tools"}
GET /v1.43/containers/76/json"#;
    let told = "201\n200 \"Id\":\"ID0\"\n201\n200 \"Id\":\"ID1\" .. \"Name\":\"/76\"";
    let input = requests(alloc, asked)?;
    let ran = run(rt, alloc, STDIO, &input)?;
    Ok(tells(alloc, ran.out.bytes(), told)? && is_refused_prefix(rt, alloc)?)
}

/// Lists of none and of one.
pub fn a_list_shows_what_was_created<R: Threads + Wait + Sync>(
    rt: &R,
    alloc: Global,
) -> Result<bool, Short> {
    let asked = format!(in alloc; "GET /containers/json\n{WEB}\nGET /containers/json?all=1")?;
    let told = format!(in alloc; "200 Content-Length: 2 .. []\n201\n{LISTED}")?;
    let input = requests(alloc, &asked)?;
    let ran = run(rt, alloc, STDIO, &input)?;
    Ok(ran.status == 0 && tells(alloc, ran.out.bytes(), &told)?)
}
