// Why a request is refused by its bytes alone (own: the messages).
ghost use Rattle.std.specs.Prelude.{◌≡◌, ◌++◌, List, ℕ, IfOk};
ghost use Rattle.api_routes.specs.Fault as spec;

use api_json::BodyFault;
use engine_text::{NoMemory, Text};
use std::alloc::Global;

/// Why a request is refused by its bytes alone.
#[derive(Drop)]
pub enum Fault {
    /// A version below the lowest one, as it was given.
    VersionTooOld(Text),
    /// A version above the current one, as it was given.
    VersionTooNew(Text),
    /// No route fits the method and the path.
    PageNotFound,
    /// The path's parameter has a bad escape, or isn't UTF-8.
    BadPath,
    /// The name of a container or a new one, as it was given.
    InvalidName(Text),
    /// A signal, as it was given.
    InvalidSignal(Text),
    BadSeconds,
    BadLimit,
    BadTail,
    BadCondition,
    BadTime,
    /// Neither stdout nor stderr is asked for.
    NoStream,
    LinksLeftOut,
    /// A fault of the body, or of the filters of the query.
    Body(BodyFault),
}

// The three parts, one after the other.
fn joined(alloc: Global, start: &str, middle: &str, end: &str) -> Result<Text, NoMemory>
    ensures { IfOk result (λ t. t ≡ start.now ++ middle.now ++ end.now) }
{
    let mut string = String::from_str(alloc, start)?;
    string.push_str(middle)?;
    string.push_str(end)?;
    Ok(Text::from_string(string))
}

impl Fault {
    /// The status of its answer.
    pub fn status(&self) -> u16
        ensures { result ≡ spec.status_of self.now }
    {
        match self {
            Fault::PageNotFound => 404,
            _ => 400,
        }
    }

    /// The message of its answer.
    pub fn message(&self, alloc: Global) -> Result<Text, NoMemory>
        ensures { IfOk result (λ t. t ≡ spec.message_of self.now) }
    {
        match self {
            Fault::VersionTooOld(version) => too_old(alloc, version.as_str()),
            Fault::VersionTooNew(version) => too_new(alloc, version.as_str()),
            Fault::PageNotFound => Text::of(alloc, "page not found"),
            Fault::BadPath => Text::of(alloc, "bad path"),
            Fault::InvalidName(name) => invalid_name(alloc, name.as_str()),
            Fault::InvalidSignal(signal) => invalid_signal(alloc, signal.as_str()),
            Fault::BadSeconds => Text::of(alloc, "bad t"),
            Fault::BadLimit => Text::of(alloc, "bad limit"),
            Fault::BadTail => Text::of(alloc, "bad tail"),
            Fault::BadCondition => Text::of(alloc, "bad condition"),
            Fault::BadTime => Text::of(alloc, "bad time"),
            Fault::NoStream => Text::of(alloc, "you must choose at least one stream"),
            Fault::LinksLeftOut => Text::of(alloc, "links are left out"),
            Fault::Body(fault) => Text::of(alloc, fault.text()),
        }
    }
}

// The message of a version below the lowest one.
fn too_old(alloc: Global, version: &str) -> Result<Text, NoMemory>
    ensures { IfOk result (λ t. t ≡ spec.too_old version.now) }
{
    let end = " is too old. Minimum supported API version is 1.24";
    joined(alloc, "client version ", version, end)
}

// The message of a version above the current one.
fn too_new(alloc: Global, version: &str) -> Result<Text, NoMemory>
    ensures { IfOk result (λ t. t ≡ spec.too_new version.now) }
{
    let end = " is too new. Maximum supported API version is 1.43";
    joined(alloc, "client version ", version, end)
}

// The message of a name that isn't one.
fn invalid_name(alloc: Global, name: &str) -> Result<Text, NoMemory>
    ensures { IfOk result (λ t. t ≡ spec.invalid_name name.now) }
{
    joined(alloc, "Invalid container name (", name, ")")
}

// The message of a signal that isn't one.
fn invalid_signal(alloc: Global, signal: &str) -> Result<Text, NoMemory>
    ensures { IfOk result (λ t. t ≡ spec.invalid_signal signal.now) }
{
    joined(alloc, "Invalid signal: ", signal, "")
}
