//! Scripts in files.

use charmlet_cli::ExitReason;
use std::fs::File;
use std::rt::Files;

/// Opens a script's file, to be read from its beginning. `ExitReason::UnreadableScript` if there is
/// none, or it can't be opened.
pub fn open_script<R: Files>(rt: &R, path: &str) -> Result<R::File, ExitReason> {
    match File::open(rt, path) {
        Ok(file) => Ok(file),
        Err(_) => Err(ExitReason::UnreadableScript),
    }
}
