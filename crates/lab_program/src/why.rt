// Why the program ends, and with which status.
ghost use Rattle.std.specs.Prelude.{◌≡◌};
ghost use Rattle.lab_program.specs.Whys as spec;

use session_model::Worst;

/// Why the program ends.
#[derive(Clone, Copy, Debug, PartialEq, Eq)]
pub enum Why {
    /// Control was asked for it.
    Asked,
    /// Standard input is at its end.
    InputEnded,
    /// The daemon's address couldn't be bound.
    NoListen,
    /// Control's address couldn't be bound.
    NoControl,
    /// The starting line couldn't be written.
    Untold,
    /// Taking connections in failed.
    Failed,
    /// Memory was refused.
    NoMemory,
}

/// What taking control's connections in came to.
#[derive(Clone, Copy, Debug, PartialEq, Eq)]
pub enum Control {
    /// One of them asked for the program's end.
    Asked,
    /// No more come.
    Shut,
    /// It failed.
    Failed,
    /// Memory was refused.
    NoMemory,
}

/// Why the program ends, by the worst that the daemon's sessions call for, by whether its door failed, and by what
/// control came to.
pub(crate) fn why_by(worst: Worst, failed: bool, control: Control) -> Why
    ensures { result ≡ spec.why_by worst failed control }
{
    match worst {
        Worst::NoMemory => Why::NoMemory,
        Worst::Fault | Worst::Stopped | Worst::Refused | Worst::Closed => why_of(failed, control),
    }
}

/// The same, where memory wasn't refused to any session.
fn why_of(failed: bool, control: Control) -> Why
    ensures { result ≡ spec.why_of failed control }
{
    if failed {
        return Why::Failed;
    }
    match control {
        Control::Asked => Why::Asked,
        Control::Shut => Why::InputEnded,
        Control::Failed => Why::Failed,
        Control::NoMemory => Why::NoMemory,
    }
}

/// The status that the program ends with.
pub(crate) fn status_by(why: Why) -> u8
    ensures { result ≡ spec.status_by why }
{
    match why {
        Why::Asked | Why::InputEnded => 0,
        Why::NoListen | Why::NoControl | Why::Untold | Why::Failed => 4,
        Why::NoMemory => 6,
    }
}

/// The line that tells why it ends.
pub(crate) fn text_by(why: Why) -> &'static str
    ensures { result.now ≡ spec.text_by why }
{
    match why {
        Why::Asked => "enginelab: control stopped it\n",
        Why::InputEnded => "enginelab: standard input ended\n",
        Why::NoListen => "enginelab: the address of --listen can't be bound\n",
        Why::NoControl => "enginelab: the address of --control can't be bound\n",
        Why::Untold => "enginelab: standard output takes no line\n",
        Why::Failed => "enginelab: taking connections in failed\n",
        Why::NoMemory => "enginelab: memory was refused\n",
    }
}
