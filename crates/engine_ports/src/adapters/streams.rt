// The three standard streams of a process, held from its beginning.
use std::fs::{Files, OpenOptions};
use std::os::fd::AsRawFd;

/// What stands in place of the standard streams that were closed when the process began: nothing that is
/// opened later, as a connection, becomes one of them.
#[derive(Drop)]
pub struct HeldStreams<F> {
    first: Option<F>,
    second: Option<F>,
    third: Option<F>,
}

/// The lowest descriptor that is free, where it is that of a standard stream. It gives no bytes and takes none.
fn held<R: Files>(files: &R) -> Option<R::File>
where
    R::File: AsRawFd,
{
    let file = OpenOptions::new().read(true).open(files, "/dev/null").ok()?;
    if file.as_raw_fd() <= 2 {
        Some(file)
    } else {
        None
    }
}

impl<F> HeldStreams<F> {
    /// Holds them as long as the value lives; called before anything is opened.
    pub fn new<R: Files<File = F>>(files: &R) -> HeldStreams<F>
    where
        F: AsRawFd,
    {
        HeldStreams {
            first: held(files),
            second: held(files),
            third: held(files),
        }
    }
}
