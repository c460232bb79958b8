// The text of a container (Docker Engine API v1.43, ContainerInspect).
ghost use Rattle.std.specs.Prelude.{◌≡◌, ◌≤◌, ◌++◌, IfOk, codes, option_map};
ghost use Rattle.engine_text.specs.Moment.{IsMoment};
ghost use Rattle.api_json.specs.Container as spec;
ghost use Rattle.api_json.specs.Values.{text};
ghost use Rattle.api_json.specs.Views.{container_shown};
ghost use Rattle.api_json.specs.Written.{Appends, tokens_of, member_tokens};
ghost use Rattle.api_json.specs.Container.{health_tokens};

use super::mount::mounts_member;
use super::status::{is_dead, is_paused, is_restarting, status_word};
use super::values::{IMAGE_NAME, first_word, later_words, slash_name};
use super::written::{
    command_member, flag_member, integer_member, moment_member, nanoseconds_member, number_member,
    pairs_member, text_member, words_member, written_text,
};
use engine_text::{
    HealthSpec, Mounts, NoMemory, Pairs, Policy, Signal, Status, Text, Words, signal_name,
};
use json::Writer;
use std::alloc::{AllocError, Global};

/// What the text of a container tells: moments in milliseconds, `stop_after` in seconds, and `pid`
/// 0 where no process lives.
#[derive(Clone, Copy, Drop)]
pub struct ContainerView<'a> {
    pub id: &'a str,
    pub name: &'a str,
    pub words: &'a Words,
    pub labels: &'a Pairs,
    pub policy: &'a Policy,
    pub stop_signal: Signal,
    pub stop_after: i32,
    pub open_stdin: bool,
    pub stdin_once: bool,
    pub mounts: &'a Mounts,
    pub created: u64,
    pub started: Option<u64>,
    pub finished: Option<u64>,
    pub restarts: u64,
    pub status: Status,
    pub pid: u64,
    pub code: u8,
    pub auto_remove: bool,
    pub health: Option<&'a HealthSpec>,
}

fn policy_word(policy: &Policy) -> &'static str
    ensures { result.now ≡ spec.policy_word policy.now }
{
    match policy {
        Policy::No => "no",
        Policy::Always => "always",
        Policy::UnlessStopped => "unless-stopped",
        Policy::OnFailure(_) => "on-failure",
    }
}

// How often it is tried again at most.
fn most_retries(policy: &Policy) -> u32
    ensures { result ≡ spec.most_retries policy.now }
{
    match policy {
        Policy::OnFailure(most) => *most,
        Policy::No | Policy::Always | Policy::UnlessStopped => 0,
    }
}

// Running: a process lives, or the status is restarting.
fn is_running(pid: u64, status: Status) -> bool
    ensures { result ≡ spec.is_running pid status }
{
    pid != 0 || is_restarting(status)
}

// Writes a health check: its times in nanoseconds, and its words behind `CMD`.
fn check_member(out: &mut Writer, health: &HealthSpec) -> Result<(), AllocError>
    ensures { Appends result out.old out.new
        (member_tokens (codes "Healthcheck") (spec.health_data health.now)) }
{
    out.key("Healthcheck")?;
    out.begin_object()?;
    nanoseconds_member(out, "Interval", health.interval)?;
    number_member(out, "Retries", u64::from(health.retries))?;
    nanoseconds_member(out, "StartPeriod", health.start_period)?;
    command_member(out, "Test", "CMD", health.words.as_slice())?;
    nanoseconds_member(out, "Timeout", health.timeout)?;
    out.end_object()
}

// Writes the health check, if there is one.
fn health_member(out: &mut Writer, health: Option<&HealthSpec>) -> Result<(), AllocError>
    ensures { Appends result out.old out.new
        (health_tokens (option_map (λ h. h.now) health.entry)) }
{
    match health {
        None => Ok(()),
        Some(health) => check_member(out, health),
    }
}

// Writes what was asked of the container.
fn config_member(
    alloc: Global,
    out: &mut Writer,
    container: &ContainerView<'_>,
) -> Result<(), AllocError>
    ensures { Appends result out.old out.new
        (member_tokens (codes "Config") (spec.config_data (container_shown container.now))) }
{
    out.key("Config")?;
    out.begin_object()?;
    words_member(out, "Cmd", container.words.as_slice())?;
    health_member(out, container.health)?;
    text_member(out, "Image", IMAGE_NAME)?;
    pairs_member(alloc, out, "Labels", container.labels.as_slice())?;
    flag_member(out, "OpenStdin", container.open_stdin)?;
    flag_member(out, "StdinOnce", container.stdin_once)?;
    text_member(out, "StopSignal", signal_name(container.stop_signal))?;
    integer_member(out, "StopTimeout", container.stop_after)?;
    flag_member(out, "Tty", false)?;
    out.end_object()
}

// Writes the restart policy.
fn policy_member(out: &mut Writer, policy: &Policy) -> Result<(), AllocError>
    ensures { Appends result out.old out.new
        (member_tokens (codes "RestartPolicy") (spec.policy_data policy.now)) }
{
    out.key("RestartPolicy")?;
    out.begin_object()?;
    number_member(out, "MaximumRetryCount", u64::from(most_retries(policy)))?;
    text_member(out, "Name", policy_word(policy))?;
    out.end_object()
}

// Writes what was asked of the host.
fn host_config_member(
    out: &mut Writer,
    auto_remove: bool,
    policy: &Policy,
) -> Result<(), AllocError>
    ensures { Appends result out.old out.new
        (member_tokens (codes "HostConfig") (spec.host_config_data auto_remove policy.now)) }
{
    out.key("HostConfig")?;
    out.begin_object()?;
    flag_member(out, "AutoRemove", auto_remove)?;
    policy_member(out, policy)?;
    out.end_object()
}

// Writes the state that the container is in.
fn state_member(
    alloc: Global,
    out: &mut Writer,
    container: &ContainerView<'_>,
) -> Result<(), AllocError>
    requires started { IsMoment container.now.started }
    requires finished { IsMoment container.now.finished }
    ensures { Appends result out.old out.new
        (member_tokens (codes "State") (spec.state_data (container_shown container.now))) }
{
    let status = container.status;
    out.key("State")?;
    out.begin_object()?;
    flag_member(out, "Dead", is_dead(status))?;
    text_member(out, "Error", "")?;
    number_member(out, "ExitCode", u64::from(container.code))?;
    moment_member(alloc, out, "FinishedAt", container.finished)?;
    flag_member(out, "OOMKilled", false)?;
    flag_member(out, "Paused", is_paused(status))?;
    number_member(out, "Pid", container.pid)?;
    flag_member(out, "Restarting", is_restarting(status))?;
    flag_member(out, "Running", is_running(container.pid, status))?;
    moment_member(alloc, out, "StartedAt", container.started)?;
    text_member(out, "Status", status_word(status))?;
    out.end_object()
}

// Writes the name of a container, with a slash before it.
fn name_member(alloc: Global, out: &mut Writer, name: &str) -> Result<(), AllocError>
    ensures { Appends result out.old out.new
        (member_tokens (codes "Name") (text (codes "/" ++ name.now))) }
{
    let name = slash_name(alloc, name)?;
    text_member(out, "Name", name.as_str())
}

// Writes a container.
fn write_container(
    alloc: Global,
    out: &mut Writer,
    container: &ContainerView<'_>,
) -> Result<(), AllocError>
    requires created { container.now.created ≤ 9_000_000_000_000 }
    requires started { IsMoment container.now.started }
    requires finished { IsMoment container.now.finished }
    ensures { Appends result out.old out.new
        (tokens_of (spec.container_data (container_shown container.now))) }
{
    let words = container.words.as_slice();
    out.begin_object()?;
    words_member(out, "Args", later_words(words))?;
    config_member(alloc, out, container)?;
    moment_member(alloc, out, "Created", Some(container.created))?;
    host_config_member(out, container.auto_remove, container.policy)?;
    text_member(out, "Id", container.id)?;
    text_member(out, "Image", IMAGE_NAME)?;
    mounts_member(alloc, out, "Mounts", container.mounts.as_slice())?;
    name_member(alloc, out, container.name)?;
    text_member(out, "Path", first_word(words))?;
    number_member(out, "RestartCount", container.restarts)?;
    state_member(alloc, out, container)?;
    out.end_object()
}

/// The text of a container; its moments are at most 9,000,000,000,000.
pub fn container_body(alloc: Global, container: &ContainerView<'_>) -> Result<Text, NoMemory>
    requires created { container.now.created ≤ 9_000_000_000_000 }
    requires started { IsMoment container.now.started }
    requires finished { IsMoment container.now.finished }
    ensures { IfOk result (λ text. text ≡ spec.container_text (container_shown container.now)) }
{
    let mut out = Writer::new(Vec::new(alloc));
    write_container(alloc, &mut out, container)?;
    Ok(written_text(out))
}
