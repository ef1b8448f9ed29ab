//! Why the program stops before its work is done.

ghost use Rattle.std.specs.Prelude.{◌≡◌};
ghost use Rattle.charmlet_script_output.specs.ExitReason.{advice_of};

use charmlet_model::Refusal;
use charmlet_script::ReadError;
use std::alloc::{AllocError, AllocFailed};
use std::error::Error;
use std::{fmt, io};

/// Why the program stops.
#[derive(Clone, Copy, Debug, PartialEq, Eq)]
pub enum ExitReason {
    /// Memory or the output failed outside a step.
    CannotGoOn,
    /// The store wasn't created, for this reason, and no line was run. The output says why.
    NotCreated(Refusal),
    /// No store was restarted, for this reason, and no line was run. The output says why.
    NotRestarted(Refusal),
    /// No store was shown, for this reason. The output says why.
    NotShown(Refusal),
    /// The laboratory found bad outcomes. The output says how many.
    NotSurvived,
    /// A line was refused in a strict run, and no later one was run. The output says why.
    AtRefusal,
    /// The script isn't there, is a folder, or a read of it failed.
    UnreadableScript,
    /// The script's first malformed line. Lines count from 1.
    MalformedLine(u64),
}

impl ExitReason {
    ghost use Rattle.std.specs.Prelude.{◌≡◌};
    ghost use Rattle.charmlet_script_output.specs.ExitReason.{status_of};

    /// The program's exit status. It is 1 if the program can't go on, has no store, shows none,
    /// found bad outcomes, or stopped at a refusal, and 2 for a script that can't be run.
    pub fn exit_status(&self) -> u8
        ensures { result ≡ status_of self.now }
    {
        match self {
            ExitReason::CannotGoOn
            | ExitReason::NotCreated(_)
            | ExitReason::NotRestarted(_)
            | ExitReason::NotShown(_)
            | ExitReason::NotSurvived
            | ExitReason::AtRefusal => 1,
            ExitReason::UnreadableScript | ExitReason::MalformedLine(_) => 2,
        }
    }
}

/// The advice if there is no store for this reason, to follow `cannot create store` and its like.
/// It is empty if the refusal's own line is enough.
fn advice(refusal: &Refusal) -> &'static str
    ensures { result.now ≡ advice_of refusal.now }
{
    match refusal {
        Refusal::AlreadyHere => { ": the folder has one; go on with 'charmlet restart DIR SCRIPT'" }
        Refusal::NothingHere => {
            ": the folder has none; 'charmlet run SCRIPT --dir DIR' makes one"
        }
        Refusal::BadPes => ": a store has 1 to 64 processors",
        Refusal::Damaged { .. } => ": see 'Damaged' in docs/OPERATING.md",
        _ => "",
    }
}

/// Writes the text for standard error, without a line feed: why the program stops, and what to do.
impl fmt::Display for ExitReason {
    ghost use Rattle.std.specs.Prelude.{Some};
    ghost use Rattle.charmlet_script_output.specs.ExitReason.{stop_text};

    ghost output = { λ stop. Some (stop_text stop) };

    fn fmt<W: fmt::Write>(&self, f: &mut fmt::Formatter<W>) -> fmt::Result {
        match self {
            ExitReason::CannotGoOn => write!(f, "cannot go on"),
            ExitReason::NotCreated(refusal) => {
                let advice = advice(refusal);
                write!(f, "cannot create store{advice}")
            }
            ExitReason::NotRestarted(refusal) => {
                let advice = advice(refusal);
                write!(f, "cannot restart store{advice}")
            }
            ExitReason::NotShown(refusal) => {
                let advice = advice(refusal);
                write!(f, "cannot show store{advice}")
            }
            ExitReason::NotSurvived => write!(f, "cannot survive each crash"),
            ExitReason::AtRefusal => write!(f, "stopped at a refusal"),
            ExitReason::UnreadableScript => write!(f, "cannot read script"),
            ExitReason::MalformedLine(line) => write!(f, "script line {line}"),
        }
    }
}

impl Error for ExitReason {}

impl From<ReadError> for ExitReason {
    ghost use Rattle.std.specs.Prelude.{◌≡◌};
    ghost use Rattle.charmlet_script_output.specs.ExitReason.{stop_of};

    ghost from_gives = { λ error stop. stop ≡ stop_of error };

    fn from(error: ReadError) -> ExitReason {
        match error {
            ReadError::Memory => ExitReason::CannotGoOn,
            ReadError::Failed(_) => ExitReason::UnreadableScript,
            ReadError::Malformed(line) => ExitReason::MalformedLine(line),
        }
    }
}

impl From<AllocError> for ExitReason {
    ghost use Rattle.std.specs.Prelude.{◌≡◌};
    ghost use Rattle.charmlet_script_output.specs.declared.exit_reason.ExitReason.TheVariants.{CannotGoOn};

    ghost from_gives = { λ _ stop. stop ≡ CannotGoOn };

    fn from(_error: AllocError) -> ExitReason {
        ExitReason::CannotGoOn
    }
}

impl<T: Drop> From<AllocFailed<T>> for ExitReason {
    ghost use Rattle.std.specs.Prelude.{◌≡◌};
    ghost use Rattle.charmlet_script_output.specs.declared.exit_reason.ExitReason.TheVariants.{CannotGoOn};

    ghost from_gives = { λ _ stop. stop ≡ CannotGoOn };

    fn from(_error: AllocFailed<T>) -> ExitReason {
        ExitReason::CannotGoOn
    }
}

impl From<io::Error> for ExitReason {
    ghost use Rattle.std.specs.Prelude.{◌≡◌};
    ghost use Rattle.charmlet_script_output.specs.declared.exit_reason.ExitReason.TheVariants.{CannotGoOn};

    ghost from_gives = { λ _ stop. stop ≡ CannotGoOn };

    fn from(_error: io::Error) -> ExitReason {
        ExitReason::CannotGoOn
    }
}
