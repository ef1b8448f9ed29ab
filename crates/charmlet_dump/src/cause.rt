//! The text on standard error besides the line that says why there is no dump.

use std::io::ErrorKind;
use std::{fmt, io};

/// The known cause of a failure, beyond the line that reports it.
#[derive(Drop)]
pub(crate) enum Cause<'a> {
    /// The disk in this folder failed.
    Folder(&'a str, io::Error),
    /// Standard output failed.
    Output(io::Error),
}

impl Cause<'_> {
    /// Whether the cause is that nobody reads standard output any more. Then nothing is said, as by
    /// programs that a signal ends in that case.
    pub(crate) fn is_closed_pipe(&self) -> bool {
        matches!(self, Cause::Output(error) if error.kind() == ErrorKind::BrokenPipe)
    }
}

/// Writes the cause without a line feed.
impl fmt::Display for Cause<'_> {
    fn fmt<W: fmt::Write>(&self, f: &mut fmt::Formatter<W>) -> fmt::Result {
        match self {
            Cause::Folder(name, error) => write!(f, "{name}: {error}"),
            Cause::Output(error) => write!(f, "cannot write output: {error}"),
        }
    }
}
