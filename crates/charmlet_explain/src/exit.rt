//! The end of the program: its exit status, and its text on standard error.

ghost use Rattle.std.specs.Prelude.{◌≡◌};
ghost use Rattle.charmlet_explain.specs.Ending.{exit_status};

use std::alloc::AllocError;
use std::io;
use std::io::Write;
use thiserror::Error;

/// Why the program says nothing of a script.
#[derive(Clone, Copy, Debug, PartialEq, Eq, Error)]
pub(crate) enum Failure {
    #[error("explain: it takes a script, or - for standard input; before it --restart if the \
         script is for a restart, --workers if it is run so, and --line if only the line's number \
         is to be told")]
    BadLine,
    /// The script isn't there, or can't be read.
    #[error("cannot read script")]
    Unread,
    /// Memory or the output failed.
    #[error("cannot go on")]
    CannotGoOn,
}

impl From<AllocError> for Failure {
    fn from(_error: AllocError) -> Failure {
        Failure::CannotGoOn
    }
}

impl From<io::Error> for Failure {
    fn from(_error: io::Error) -> Failure {
        Failure::CannotGoOn
    }
}

/// The exit status: 0 if no line is malformed, 1 if memory or the output failed, and otherwise 2.
fn exit_status(told: &Result<Option<u64>, Failure>) -> u8
    ensures { result ≡ exit_status told.now }
{
    match told {
        Ok(None) => 0,
        Err(Failure::CannotGoOn) => 1,
        Ok(Some(_)) | Err(Failure::BadLine | Failure::Unread) => 2,
    }
}

/// Writes to `errors`, the program's standard error, why nothing is said of the script, in that
/// case. Returns the exit status, and whether the write succeeded.
pub(crate) fn end_program<W: Write>(
    told: &Result<Option<u64>, Failure>,
    errors: &mut W,
) -> (u8, io::Result<()>)
    ensures { result.0 ≡ exit_status told.now }
{
    let status = exit_status(told);
    match told {
        Ok(_) => (status, Ok(())),
        Err(failure) => (status, writeln!(errors, "{failure}")),
    }
}
