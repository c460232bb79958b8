// What is done with a body as it comes.

/// How a body is shown.
#[derive(Clone, Copy, Debug, PartialEq, Eq)]
pub enum Showing {
    /// It is kept, and not shown.
    Kept,
    /// It goes to standard output.
    Copied,
    /// The payloads of its frames go to standard output and standard error.
    Demuxed,
}
