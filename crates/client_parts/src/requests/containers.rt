// Requests on a container.
ghost use Rattle.std.specs.Prelude.{◌≡◌, IfOk};
ghost use Rattle.client_model.specs.Requests.{request_bytes};
ghost use Rattle.client_model.specs.Commands.Attach as attach;
ghost use Rattle.client_model.specs.Commands.Container as create;
ghost use Rattle.client_model.specs.Commands.Inspect as inspect;
ghost use Rattle.client_model.specs.Commands.Kill as kill;
ghost use Rattle.client_model.specs.Commands.Logs as logs;
ghost use Rattle.client_model.specs.Commands.Pause as pause;
ghost use Rattle.client_model.specs.Commands.Remove as remove;
ghost use Rattle.client_model.specs.Commands.Rename as rename;
ghost use Rattle.client_model.specs.Commands.Restart as restart;
ghost use Rattle.client_model.specs.Commands.Start as start;
ghost use Rattle.client_model.specs.Commands.Stop as stop;
ghost use Rattle.client_model.specs.Commands.Unpause as unpause;
ghost use Rattle.client_model.specs.Commands.Update as update;
ghost use Rattle.client_model.specs.Commands.Wait as wait;

use super::bodies::{container_value, update_value};
use super::keys::{key, key_if, key_set};
use super::written::{delete, get, post, post_body, take_over};
use client_model::{NewContainer, Restart};
use engine_text::{NoMemory, Pairs, Text};
use std::alloc::Global;

/// `POST /containers/create?name=NAME`.
pub fn create_request(alloc: Global, c: &NewContainer) -> Result<Vec<u8>, NoMemory>
    ensures { IfOk result (λ r. r.items ≡ request_bytes (create.create_request c.now)) }
{
    let mut query = Pairs::new(alloc);
    key_if(alloc, &mut query, "name", &c.name)?;
    let body = container_value(alloc, c)?;
    post_body(alloc, &["containers", "create"], query.as_slice(), &body)
}

/// `POST /containers/REF/start`.
pub fn start_request(alloc: Global, target: &str) -> Result<Vec<u8>, NoMemory>
    ensures { IfOk result (λ r. r.items ≡ request_bytes (start.start_request target.now)) }
{
    post(alloc, &["containers", target, "start"], &[])
}

/// `POST /containers/REF/pause`.
pub fn pause_request(alloc: Global, target: &str) -> Result<Vec<u8>, NoMemory>
    ensures { IfOk result (λ r. r.items ≡ request_bytes (pause.pause_request target.now)) }
{
    post(alloc, &["containers", target, "pause"], &[])
}

/// `POST /containers/REF/unpause`.
pub fn unpause_request(alloc: Global, target: &str) -> Result<Vec<u8>, NoMemory>
    ensures { IfOk result (λ r. r.items ≡ request_bytes (unpause.unpause_request target.now)) }
{
    post(alloc, &["containers", target, "unpause"], &[])
}

/// `POST /containers/REF/stop?t=N`.
pub fn stop_request(
    alloc: Global,
    target: &str,
    seconds: &Option<Text>,
) -> Result<Vec<u8>, NoMemory>
    ensures { IfOk result
        (λ r. r.items ≡ request_bytes (stop.stop_request target.now seconds.now)) }
{
    let mut query = Pairs::new(alloc);
    key_if(alloc, &mut query, "t", seconds)?;
    post(alloc, &["containers", target, "stop"], query.as_slice())
}

/// `POST /containers/REF/restart?t=N`.
pub fn restart_request(
    alloc: Global,
    target: &str,
    seconds: &Option<Text>,
) -> Result<Vec<u8>, NoMemory>
    ensures { IfOk result
        (λ r. r.items ≡ request_bytes (restart.restart_request target.now seconds.now)) }
{
    let mut query = Pairs::new(alloc);
    key_if(alloc, &mut query, "t", seconds)?;
    post(alloc, &["containers", target, "restart"], query.as_slice())
}

/// `POST /containers/REF/kill?signal=SIG`.
pub fn kill_request(alloc: Global, target: &str, signal: &Option<Text>) -> Result<Vec<u8>, NoMemory>
    ensures { IfOk result (λ r. r.items ≡ request_bytes (kill.kill_request target.now signal.now)) }
{
    let mut query = Pairs::new(alloc);
    key_if(alloc, &mut query, "signal", signal)?;
    post(alloc, &["containers", target, "kill"], query.as_slice())
}

/// `DELETE /containers/REF`.
pub fn remove_request(alloc: Global, target: &str, force: bool) -> Result<Vec<u8>, NoMemory>
    ensures { IfOk result (λ r. r.items ≡ request_bytes (remove.remove_request target.now force)) }
{
    let mut query = Pairs::new(alloc);
    key_set(alloc, &mut query, "force", force)?;
    delete(alloc, &["containers", target], query.as_slice())
}

/// `POST /containers/REF/rename?name=NAME`.
pub fn rename_request(alloc: Global, target: &str, name: &str) -> Result<Vec<u8>, NoMemory>
    ensures { IfOk result
        (λ r. r.items ≡ request_bytes (rename.rename_request target.now name.now)) }
{
    let mut query = Pairs::new(alloc);
    key(alloc, &mut query, "name", name)?;
    post(alloc, &["containers", target, "rename"], query.as_slice())
}

/// `POST /containers/REF/update`.
pub fn update_request(alloc: Global, target: &str, restart: &Restart) -> Result<Vec<u8>, NoMemory>
    ensures { IfOk result
        (λ r. r.items ≡ request_bytes (update.update_request target.now restart.now)) }
{
    let body = update_value(alloc, restart)?;
    post_body(alloc, &["containers", target, "update"], &[], &body)
}

/// `GET /containers/REF/json`.
pub fn inspect_request(alloc: Global, target: &str) -> Result<Vec<u8>, NoMemory>
    ensures { IfOk result (λ r. r.items ≡ request_bytes (inspect.inspect_request target.now)) }
{
    get(alloc, &["containers", target, "json"], &[])
}

/// `GET /containers/REF/logs?stdout=1&stderr=1`.
pub fn logs_request(alloc: Global, target: &str, follow: bool) -> Result<Vec<u8>, NoMemory>
    ensures { IfOk result (λ r. r.items ≡ request_bytes (logs.logs_request target.now follow)) }
{
    let mut query = Pairs::new(alloc);
    key(alloc, &mut query, "stdout", "1")?;
    key(alloc, &mut query, "stderr", "1")?;
    key_set(alloc, &mut query, "follow", follow)?;
    get(alloc, &["containers", target, "logs"], query.as_slice())
}

/// `POST /containers/REF/attach?logs=1&stream=1&stdout=1&stderr=1`, with input `&stdin=1`.
pub fn attach_request(alloc: Global, target: &str, input: bool) -> Result<Vec<u8>, NoMemory>
    ensures { IfOk result (λ r. r.items ≡ request_bytes (attach.attach_request target.now input)) }
{
    let mut query = Pairs::new(alloc);
    key(alloc, &mut query, "logs", "1")?;
    key(alloc, &mut query, "stream", "1")?;
    key(alloc, &mut query, "stdout", "1")?;
    key(alloc, &mut query, "stderr", "1")?;
    key_set(alloc, &mut query, "stdin", input)?;
    take_over(alloc, &["containers", target, "attach"], query.as_slice())
}

/// `POST /containers/REF/wait?condition=not-running`.
pub fn wait_request(alloc: Global, target: &str) -> Result<Vec<u8>, NoMemory>
    ensures { IfOk result (λ r. r.items ≡ request_bytes (wait.wait_request target.now)) }
{
    let mut query = Pairs::new(alloc);
    key(alloc, &mut query, "condition", "not-running")?;
    post(alloc, &["containers", target, "wait"], query.as_slice())
}
