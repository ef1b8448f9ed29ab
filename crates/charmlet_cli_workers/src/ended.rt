//! The end of a run by workers.

use charmlet_disk::Disk;
use charmlet_model::Refusal;
use charmlet_runtime::Wanted;
use charmlet_script_output::ExitReason;
use std::io;

/// Why a script wasn't run to its last line by workers. `T` is the type of the objects that were
/// handed in.
#[derive(Drop)]
pub enum WorkersError<T: Drop> {
    /// A line of the script is `deliver`, which names what one thread delivers next. All objects
    /// come back, and nothing was written.
    Delivers(T),
    /// There are fewer objects of a kind than the script supplies. All objects come back, and
    /// nothing was written.
    TooFewBlanks(T),
    /// Memory ran out before there was to be a store. Nothing was written.
    Memory,
    /// The store wasn't created, for this reason. Only its line was written, and no line was run.
    NotCreated(Refusal),
    /// No store was restarted, for this reason. Only its line was written, and no line was run.
    NotRestarted(Refusal),
    /// There is a store, but no memory for its workers' seats. Nothing was printed, and no line was
    /// run.
    NoSeats,
    /// A line couldn't be written: the output failed, or there was no memory for its text. A
    /// beginning of the output was written.
    Output(io::Error),
    /// Each line was run and written, but the runtime wasn't taken apart, since a lent seat or pass
    /// wasn't handed in. So the disk doesn't come back. In fact all of them are handed in, but the
    /// list of lent ones stands under a lock, so no clause says so.
    NotClosed,
}

/// The result of a script's run by workers.
#[derive(Drop)]
pub struct RanByWorkers<D: Disk, T: Drop> {
    /// The disk, which comes back unless the runtime wasn't taken apart.
    pub disk: Option<D>,
    /// Whether each line was run.
    pub result: Result<(), WorkersError<T>>,
    /// How many blanks of each kind were wanted by the messages that were pending when the store
    /// was restarted, before any line was run: those that construct an element that wasn't there.
    /// `None` if no store was restarted, including the case of a new store.
    pub constructions: Option<Wanted>,
}

impl<T: Drop> From<WorkersError<T>> for ExitReason {
    ghost use Rattle.std.specs.Prelude.{◌≡◌};
    ghost use Rattle.charmlet_cli_workers.specs.Ended.{stop_after};

    ghost from_gives = { λ error stop. stop ≡ stop_after error };

    fn from(error: WorkersError<T>) -> ExitReason {
        match error {
            WorkersError::NotCreated(refusal) => ExitReason::NotCreated(refusal),
            WorkersError::NotRestarted(refusal) => ExitReason::NotRestarted(refusal),
            WorkersError::Delivers(_)
            | WorkersError::TooFewBlanks(_)
            | WorkersError::Memory
            | WorkersError::NoSeats
            | WorkersError::Output(_)
            | WorkersError::NotClosed => ExitReason::CannotGoOn,
        }
    }
}
