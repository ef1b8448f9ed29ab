//! The end of the program: its exit status, and its text on standard error.

ghost use Rattle.std.specs.Prelude.{◌≡◌, IfErr, IsOk, OnOk};
ghost use Rattle.charmlet_cli.specs.Failure.{Says, exit_status};

use crate::command::CommandError;
use charmlet_script_output::ExitReason;
use std::io;
use std::io::Write;

/// Why the program doesn't run a script to its end.
#[derive(Debug, Drop)]
pub enum Failure {
    /// The command line is bad, or calls for help; clap's text says which.
    Command(clap::Error),
    /// The program stops before its work is done.
    Stopped(ExitReason),
}

impl Failure {
    ghost use Rattle.std.specs.Prelude.{◌≡◌, OnOk};
    ghost use Rattle.charmlet_cli.specs.Failure.{Says, failure_status};

    /// The exit status: 2 for a bad command line or a call for help, otherwise that of the stop.
    fn exit_status(&self) -> u8
        ensures { result ≡ failure_status self.now }
    {
        match self {
            Failure::Command(_) => 2,
            Failure::Stopped(stop) => stop.exit_status(),
        }
    }

    /// Writes the reason: clap's text as it is, or a stop in a line. It takes no memory.
    fn say<W: Write>(&self, errors: &mut W) -> io::Result<()>
        ensures { OnOk result (Says self.now (W.contents errors.old) (W.contents errors.new)) }
    {
        match self {
            Failure::Command(error) => write!(errors, "{error}"),
            Failure::Stopped(stop) => {
                writeln!(errors, "{stop}")?;
                errors.flush()
            }
        }
    }
}

impl From<CommandError> for Failure {
    ghost use Rattle.std.specs.Prelude.{◌≡◌};
    ghost use Rattle.charmlet_cli.specs.Failure.{failure_of};

    ghost from_gives = { λ error failure. failure ≡ failure_of error };

    fn from(error: CommandError) -> Failure {
        match error {
            CommandError::Memory => Failure::Stopped(ExitReason::CannotGoOn),
            CommandError::Line(error) => Failure::Command(error),
        }
    }
}

impl From<ExitReason> for Failure {
    ghost use Rattle.std.specs.Prelude.{◌≡◌};
    ghost use Rattle.charmlet_cli.specs.declared.exit.Failure.TheVariants.{Stopped};

    ghost from_gives = { λ stop failure. failure ≡ Stopped stop };

    fn from(stop: ExitReason) -> Failure {
        Failure::Stopped(stop)
    }
}

impl From<io::Error> for Failure {
    ghost use Rattle.std.specs.Prelude.{◌≡◌};
    ghost use Rattle.charmlet_cli.specs.declared.exit.Failure.TheVariants.{Stopped};
    ghost use Rattle.charmlet_script_output.specs.declared.exit_reason.ExitReason.TheVariants.{CannotGoOn};

    ghost from_gives = { λ _ failure. failure ≡ Stopped CannotGoOn };

    fn from(_error: io::Error) -> Failure {
        Failure::Stopped(ExitReason::CannotGoOn)
    }
}

/// Writes to `errors`, the program's standard error, why it failed, if it did. Returns its exit
/// status, and whether the write succeeded. The status is 0 if the script ran to its end, 2 for a
/// bad command line or a call for help, and otherwise that of the stop, even if `errors` fails.
pub fn end_program<W: Write>(ran: &Result<(), Failure>, errors: &mut W) -> (u8, io::Result<()>)
    ensures status { result.0 ≡ exit_status ran.now }
    ensures said { OnOk result.1 (IfErr ran.now
        (λ failure. Says failure (W.contents errors.old) (W.contents errors.new))) }
    ensures silent { OnOk ran.now ((errors.new ≡ errors.old) × IsOk result.1) }
{
    match ran {
        Ok(()) => (0, Ok(())),
        Err(failure) => (failure.exit_status(), failure.say(errors)),
    }
}
