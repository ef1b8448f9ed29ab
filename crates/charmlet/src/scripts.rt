//! Scripts in files.

use crate::cause::Cause;
use charmlet_cli::ExitReason;
use charmlet_script::{Purpose, ReadError, RestartScript, Runner, Script, ScriptText, Setting};
use std::fs::{File, OpenFile};
use std::io;

/// A script's text, and how many bytes it has, if it is in a regular file.
#[derive(Drop)]
struct Source {
    text: ScriptText,
    length: Option<u64>,
}

/// The text of the script in a file. Why it can't be read is noted.
fn source_in<'a>(
    rt: HostRuntime,
    path: &'a str,
    cause: &mut Option<Cause<'a>>,
) -> Result<Source, ExitReason> {
    let mut file = match File::open(&rt, path) {
        Ok(file) => file,
        Err(error) => return Err(unreadable(path, error, cause)),
    };
    match ScriptText::read(rt.alloc(), &mut file) {
        Ok(text) => Ok(Source {
            text,
            length: length_of(&file),
        }),
        Err(ReadError::Failed(error)) => Err(unreadable(path, error, cause)),
        Err(error) => Err(ExitReason::from(error)),
    }
}

/// How many bytes a regular file has.
fn length_of<F: OpenFile>(file: &F) -> Option<u64> {
    let found = file.metadata().ok()?;
    if found.is_file() {
        Some(found.len())
    } else {
        None
    }
}

/// The stop at a script that can't be read, for this reason.
fn unreadable<'a>(path: &'a str, error: io::Error, cause: &mut Option<Cause<'a>>) -> ExitReason {
    *cause = Some(Cause::Script(path, error));
    ExitReason::UnreadableScript
}

/// The stop at a script that wasn't read. Why a line is malformed is noted.
fn unread(
    source: Source,
    purpose: Purpose,
    runner: Runner,
    error: ReadError,
    cause: &mut Option<Cause<'_>>,
) -> ExitReason {
    let Source { text, length } = source;
    if let ReadError::Malformed(line) = &error {
        *cause = Some(Cause::Malformed {
            text,
            line: *line,
            setting: Setting {
                purpose,
                runner,
                length,
            },
        });
    }
    ExitReason::from(error)
}

/// The script in a file.
pub(crate) fn script_in<'a>(
    rt: HostRuntime,
    path: &'a str,
    runner: Runner,
    cause: &mut Option<Cause<'a>>,
) -> Result<Script, ExitReason> {
    let source = source_in(rt, path, cause)?;
    match source.text.script(rt.alloc(), runner) {
        Ok(script) => Ok(script),
        Err(error) => Err(unread(source, Purpose::Run, runner, error, cause)),
    }
}

/// The script of a restart in a file.
pub(crate) fn restart_script_in<'a>(
    rt: HostRuntime,
    path: &'a str,
    runner: Runner,
    cause: &mut Option<Cause<'a>>,
) -> Result<RestartScript, ExitReason> {
    let source = source_in(rt, path, cause)?;
    match source.text.restart_script(rt.alloc(), runner) {
        Ok(script) => Ok(script),
        Err(error) => Err(unread(source, Purpose::Restart, runner, error, cause)),
    }
}
