//! The first malformed line of a script.

ghost use Rattle.std.specs.Prelude.{◌≡◌, IfOk};
ghost use Rattle.charmlet_explain.specs.Finding.{malformed_line};

use crate::exit::Failure;
use charmlet_script::{Purpose, ReadError, Runner, read_restart_script, read_script};
use std::alloc::Global;

/// The number of the first malformed line of a script with these bytes, if there is one.
pub(crate) fn first_malformed(
    alloc: Global,
    bytes: &[u8],
    purpose: Purpose,
    runner: Runner,
) -> Result<Option<u64>, Failure>
    ensures { IfOk result (λ line. line ≡ malformed_line purpose runner bytes.now) }
{
    let mut reader = bytes;
    let error = match purpose {
        Purpose::Run => read_script(alloc, &mut reader, runner).err(),
        Purpose::Restart => read_restart_script(alloc, &mut reader, runner).err(),
    };
    match error {
        None => Ok(None),
        Some(ReadError::Malformed(line)) => Ok(Some(line)),
        Some(ReadError::Failed(_)) => Err(Failure::Unread),
        Some(ReadError::Memory) => Err(Failure::CannotGoOn),
    }
}
