// Why a body or a line is refused, and the text that the client is told (own; after Moby's errors).
ghost use Rattle.std.specs.Prelude.{◌≡◌};
ghost use Rattle.api_json.specs.Fault.{key_text, fault_text};

use engine_text::NoMemory;
use std::alloc::AllocError;

/// A key of a body that is read.
#[derive(Clone, Copy, PartialEq, Eq, Debug, Drop)]
pub enum BodyKey {
    Image,
    Entrypoint,
    Cmd,
    Tty,
    OpenStdin,
    StdinOnce,
    StopSignal,
    StopTimeout,
    Labels,
    Volumes,
    HostConfig,
    Binds,
    Mounts,
    Type,
    Source,
    Target,
    ReadOnly,
    RestartPolicy,
    Name,
    MaximumRetryCount,
    AutoRemove,
    AttachStdin,
    AttachStdout,
    AttachStderr,
    Detach,
    Driver,
    Healthcheck,
    Test,
    Interval,
    Timeout,
    StartPeriod,
    Retries,
}

/// Why a body, a filter or an event line is refused: one variant a text.
#[derive(Clone, Copy, PartialEq, Eq, Debug, Drop)]
pub enum BodyFault {
    BadJson,
    BadField(BodyKey),
    TtyLeftOut,
    AnonymousVolumes,
    BadMount,
    BadRestartPolicy,
    AutoRemoveExcludes,
    BadVolumeName,
    BadDriver,
    InvalidFilter,
    BadEventLine,
}

/// A refusal: the fault, or want of memory.
#[derive(Clone, Copy, PartialEq, Eq, Debug, Drop)]
pub enum Refused {
    BadBody(BodyFault),
    NoMemory,
}

impl From<BodyFault> for Refused {
    ghost use Rattle.std.specs.Prelude.{◌≡◌};
    ghost use Rattle.api_json.specs.declared.fault.Refused.TheVariants.{BadBody};

    ghost from_gives = { λ fault refused. refused ≡ BadBody fault };

    fn from(fault: BodyFault) -> Refused {
        Refused::BadBody(fault)
    }
}

impl From<NoMemory> for Refused {
    ghost use Rattle.std.specs.Prelude.{◌≡◌};
    ghost use Rattle.api_json.specs.declared.fault.Refused.TheVariants as refusal;

    ghost from_gives = { λ _ refused. refused ≡ refusal.NoMemory };

    fn from(_: NoMemory) -> Refused {
        Refused::NoMemory
    }
}

impl From<AllocError> for Refused {
    ghost use Rattle.std.specs.Prelude.{◌≡◌};
    ghost use Rattle.api_json.specs.declared.fault.Refused.TheVariants as refusal;

    ghost from_gives = { λ _ refused. refused ≡ refusal.NoMemory };

    fn from(_: AllocError) -> Refused {
        Refused::NoMemory
    }
}

impl BodyKey {
    /// The key as a body has it.
    pub fn text(self) -> &'static str
        ensures { result.now ≡ key_text self }
    {
        match self {
            BodyKey::Image => "Image",
            BodyKey::Entrypoint => "Entrypoint",
            BodyKey::Cmd => "Cmd",
            BodyKey::Tty => "Tty",
            BodyKey::OpenStdin => "OpenStdin",
            BodyKey::StdinOnce => "StdinOnce",
            BodyKey::StopSignal => "StopSignal",
            BodyKey::StopTimeout => "StopTimeout",
            BodyKey::Labels => "Labels",
            BodyKey::Volumes => "Volumes",
            BodyKey::HostConfig => "HostConfig",
            BodyKey::Binds => "Binds",
            BodyKey::Mounts => "Mounts",
            BodyKey::Type => "Type",
            BodyKey::Source => "Source",
            BodyKey::Target => "Target",
            BodyKey::ReadOnly => "ReadOnly",
            BodyKey::RestartPolicy => "RestartPolicy",
            BodyKey::Name => "Name",
            BodyKey::MaximumRetryCount => "MaximumRetryCount",
            BodyKey::AutoRemove => "AutoRemove",
            BodyKey::AttachStdin => "AttachStdin",
            BodyKey::AttachStdout => "AttachStdout",
            BodyKey::AttachStderr => "AttachStderr",
            BodyKey::Detach => "Detach",
            BodyKey::Driver => "Driver",
            BodyKey::Healthcheck => "Healthcheck",
            BodyKey::Test => "Test",
            BodyKey::Interval => "Interval",
            BodyKey::Timeout => "Timeout",
            BodyKey::StartPeriod => "StartPeriod",
            BodyKey::Retries => "Retries",
        }
    }
}

// The text for a field of another kind than it should have.
fn bad_field(key: BodyKey) -> &'static str
    ensures { result.now ≡ fault_text (BodyFault.BadField key) }
{
    match key {
        BodyKey::Image => "bad field Image",
        BodyKey::Entrypoint => "bad field Entrypoint",
        BodyKey::Cmd => "bad field Cmd",
        BodyKey::Tty => "bad field Tty",
        BodyKey::OpenStdin => "bad field OpenStdin",
        BodyKey::StdinOnce => "bad field StdinOnce",
        BodyKey::StopSignal => "bad field StopSignal",
        BodyKey::StopTimeout => "bad field StopTimeout",
        BodyKey::Labels => "bad field Labels",
        BodyKey::Volumes => "bad field Volumes",
        BodyKey::HostConfig => "bad field HostConfig",
        BodyKey::Binds => "bad field Binds",
        BodyKey::Mounts => "bad field Mounts",
        BodyKey::Type => "bad field Type",
        BodyKey::Source => "bad field Source",
        BodyKey::Target => "bad field Target",
        BodyKey::ReadOnly => "bad field ReadOnly",
        BodyKey::RestartPolicy => "bad field RestartPolicy",
        BodyKey::Name => "bad field Name",
        BodyKey::MaximumRetryCount => "bad field MaximumRetryCount",
        BodyKey::AutoRemove => "bad field AutoRemove",
        BodyKey::AttachStdin => "bad field AttachStdin",
        BodyKey::AttachStdout => "bad field AttachStdout",
        BodyKey::AttachStderr => "bad field AttachStderr",
        BodyKey::Detach => "bad field Detach",
        BodyKey::Driver => "bad field Driver",
        BodyKey::Healthcheck => "bad field Healthcheck",
        BodyKey::Test => "bad field Test",
        BodyKey::Interval => "bad field Interval",
        BodyKey::Timeout => "bad field Timeout",
        BodyKey::StartPeriod => "bad field StartPeriod",
        BodyKey::Retries => "bad field Retries",
    }
}

impl BodyFault {
    /// The text that the client is told, with status 400.
    pub fn text(self) -> &'static str
        ensures { result.now ≡ fault_text self }
    {
        match self {
            BodyFault::BadJson => "bad JSON",
            BodyFault::BadField(key) => bad_field(key),
            BodyFault::TtyLeftOut => "TTY is left out",
            BodyFault::AnonymousVolumes => "anonymous volumes are left out",
            BodyFault::BadMount => "bad mount",
            BodyFault::BadRestartPolicy => "bad restart policy",
            BodyFault::AutoRemoveExcludes => "AutoRemove excludes a restart policy",
            BodyFault::BadVolumeName => "bad volume name",
            BodyFault::BadDriver => "bad driver",
            BodyFault::InvalidFilter => "invalid filter",
            BodyFault::BadEventLine => "bad event line",
        }
    }
}
