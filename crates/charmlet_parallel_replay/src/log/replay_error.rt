//! Why the replay of a log stopped early.

ghost use Rattle.std.specs.Prelude.{◌≡◌};
ghost use Rattle.charmlet_record.specs.declared.reader.ReadError.TheVariants as errors;

use charmlet_record::ReadError;
use std::alloc::AllocError;

/// Why the events of a log weren't repeated to its end.
#[derive(Clone, Copy, Debug, PartialEq, Eq)]
pub enum ReplayError {
    /// A record is faulty, or memory was refused.
    Read(ReadError),
    /// The log says that an event constructs its receiver, and no blank was left for it.
    OutOfBlanks,
}

impl From<ReadError> for ReplayError {
    ghost use Rattle.std.specs.Prelude.{◌≡◌};
    ghost use Rattle.charmlet_parallel_replay.specs.declared.log.replay_error.ReplayError.TheVariants.{Read};

    ghost from_gives = { λ why replay_error. replay_error ≡ Read why };

    fn from(why: ReadError) -> ReplayError {
        ReplayError::Read(why)
    }
}

impl From<AllocError> for ReplayError {
    ghost use Rattle.std.specs.Prelude.{◌≡◌};
    ghost use Rattle.charmlet_record.specs.declared.reader.ReadError.TheVariants.{Memory};
    ghost use Rattle.charmlet_parallel_replay.specs.declared.log.replay_error.ReplayError.TheVariants.{Read};

    ghost from_gives = { λ _ replay_error. replay_error ≡ Read Memory };

    fn from(_refused: AllocError) -> ReplayError {
        ReplayError::Read(ReadError::Memory)
    }
}
