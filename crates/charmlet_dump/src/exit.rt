//! The end of the program: its exit status, and its text on standard error.

ghost use Rattle.std.specs.Prelude.{◌≡◌, IfErr, IsOk, OnOk};
ghost use Rattle.charmlet_dump.specs.Ending.{Says, exit_status};

use crate::arguments::BadLine;
use crate::dump::DumpError;
use std::alloc::AllocError;
use std::io::Write;
use std::{fmt, io};

/// Why the program ends without a dump.
#[derive(Drop)]
pub enum Failure<'a> {
    /// The command line is bad, or calls for help.
    BadLine(BadLine<'a>),
    /// No store was dumped. The output says why.
    NotDumped,
    /// Memory or the output failed.
    CannotGoOn,
}

impl<'a> Failure<'a> {
    ghost use Rattle.std.specs.Prelude.{◌≡◌};
    ghost use Rattle.charmlet_dump.specs.Ending.{failure_status};

    /// The exit status: 2 for a bad command line or a call for help, otherwise 1.
    fn exit_status(&self) -> u8
        ensures { result ≡ failure_status self.now }
    {
        match self {
            Failure::BadLine(_) => 2,
            Failure::NotDumped | Failure::CannotGoOn => 1,
        }
    }
}

/// Writes the text for standard error, without a line feed.
impl<'a> fmt::Display for Failure<'a> {
    ghost use Rattle.std.specs.Prelude.{Some};
    ghost use Rattle.charmlet_dump.specs.Ending.{failure_text};

    ghost output = { λ failure. Some (failure_text failure) };

    fn fmt<W: fmt::Write>(&self, f: &mut fmt::Formatter<W>) -> fmt::Result {
        match self {
            Failure::BadLine(bad) => write!(f, "{bad}"),
            Failure::NotDumped => write!(f, "cannot dump store"),
            Failure::CannotGoOn => write!(f, "cannot go on"),
        }
    }
}

impl<'a> From<BadLine<'a>> for Failure<'a> {
    ghost use Rattle.std.specs.Prelude.{◌≡◌};
    ghost use Rattle.charmlet_dump.specs.declared.exit.Failure.TheVariants as failures;

    ghost from_gives = { λ bad failure. failure ≡ failures.BadLine bad };

    fn from(bad: BadLine<'a>) -> Failure<'a> {
        Failure::BadLine(bad)
    }
}

impl<'a> From<DumpError> for Failure<'a> {
    ghost use Rattle.std.specs.Prelude.{◌≡◌};
    ghost use Rattle.charmlet_dump.specs.Ending.{failure_of};

    ghost from_gives = { λ error failure. failure ≡ failure_of error };

    fn from(error: DumpError) -> Failure<'a> {
        match error {
            DumpError::Refused(_) => Failure::NotDumped,
            DumpError::Output(_) => Failure::CannotGoOn,
        }
    }
}

impl<'a> From<AllocError> for Failure<'a> {
    ghost use Rattle.std.specs.Prelude.{◌≡◌};
    ghost use Rattle.charmlet_dump.specs.declared.exit.Failure.TheVariants.{CannotGoOn};

    ghost from_gives = { λ _ failure. failure ≡ CannotGoOn };

    fn from(_error: AllocError) -> Failure<'a> {
        Failure::CannotGoOn
    }
}

impl<'a> From<io::Error> for Failure<'a> {
    ghost use Rattle.std.specs.Prelude.{◌≡◌};
    ghost use Rattle.charmlet_dump.specs.declared.exit.Failure.TheVariants.{CannotGoOn};

    ghost from_gives = { λ _ failure. failure ≡ CannotGoOn };

    fn from(_error: io::Error) -> Failure<'a> {
        Failure::CannotGoOn
    }
}

/// Writes to `errors`, the program's standard error, why there is no dump, if there is none.
/// Returns the exit status, and whether the write succeeded. The status is 0 if the store was
/// dumped, and otherwise that of the failure, even if `errors` fails.
pub fn end_program<W: Write>(ran: &Result<(), Failure<'_>>, errors: &mut W) -> (u8, io::Result<()>)
    ensures status { result.0 ≡ exit_status ran.now }
    ensures said { OnOk result.1 (IfErr ran.now
        (λ failure. Says failure (W.contents errors.old) (W.contents errors.new))) }
    ensures silent { OnOk ran.now ((errors.new ≡ errors.old) × IsOk result.1) }
{
    match ran {
        Ok(()) => (0, Ok(())),
        Err(failure) => (failure.exit_status(), writeln!(errors, "{failure}")),
    }
}
