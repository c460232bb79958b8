// What a request asks for whose answer is shown otherwise.
ghost use Rattle.std.specs.Prelude.{◌≡◌};
ghost use Rattle.lab_shown.specs.Asked as spec;

use lab_front::is_forced;
use lab_handed::exact_by;

/// What a request asks for whose answer is shown otherwise.
#[derive(Clone, Copy, Debug, PartialEq, Eq)]
pub enum Asked {
    /// Something is read.
    Read,
    /// Something is done, as a start.
    Done,
    /// Something is removed with force.
    Removed,
    /// The list of the one container of a name is read.
    Listed,
    /// The same, where its head was kept back, behind which the connection may close.
    Behind(bool),
}

/// What is read by a request that begins with these bytes.
fn read_by(bytes: &[u8]) -> Asked
    ensures { result ≡ spec.read_by bytes.now }
{
    match exact_by(bytes) {
        Some(_) => Asked::Listed,
        None => Asked::Read,
    }
}

/// What a request asks for that begins with these bytes, where its answer is shown otherwise.
pub fn asked_by(bytes: &[u8]) -> Option<Asked>
    ensures { result ≡ spec.asked_by bytes.now }
{
    if bytes.starts_with(b"GET ") {
        return Some(read_by(bytes));
    }
    if bytes.starts_with(b"POST ") {
        return Some(Asked::Done);
    }
    if bytes.starts_with(b"DELETE ") && is_forced(bytes) {
        return Some(Asked::Removed);
    }
    None
}
