//! The text of a script, as it is read.

use crate::exit::Failure;
use charmlet_script::MAX_LENGTH;
use std::alloc::Global;
use std::fs::{File, OpenFile};
use std::io;
use std::io::{ErrorKind, Read};
use std::rt::Files;

/// How many bytes past a script's greatest length are read of a file, to be shown. Of anything
/// else, which need not end, it is one byte.
const MORE: u64 = 200;

/// The text of a script, up to its greatest length, and a part of the bytes past it.
#[derive(Debug, Drop)]
pub(crate) struct Text {
    pub bytes: Vec<u8>,
    /// How many bytes the script has, if it is a file.
    pub length: Option<u64>,
}

/// Why a script isn't read.
fn failure_of(error: io::Error) -> Failure {
    match error.kind() {
        ErrorKind::OutOfMemory => Failure::CannotGoOn,
        _ => Failure::Unread,
    }
}

/// The file of a script by its name on the command line.
fn path_of<'a>(script: &'a str) -> &'a str {
    if script == "-" { "/dev/stdin" } else { script }
}

/// Reads a script. An interrupted read is tried again.
fn read_script<R: Files + AllocGlobal>(rt: &R, path: &str) -> io::Result<Text> {
    let mut file = File::open(rt, path)?;
    let metadata = file.metadata()?;
    let length = if metadata.is_file() {
        Some(metadata.len())
    } else {
        None
    };
    let more = if length.is_some() { MORE } else { 1 };
    let mut bytes = Vec::new(rt.alloc());
    Read::take(&mut file, MAX_LENGTH as u64 + more).read_to_end(&mut bytes)?;
    Ok(Text { bytes, length })
}

/// A script that can't be read: its name on the command line, and why.
#[derive(Clone, Copy)]
pub(crate) struct Unread<'a> {
    pub name: &'a str,
    pub error: io::Error,
}

/// Reads the script of this name. Why it can't be read is noted.
pub(crate) fn read_text<'a, R: Files + AllocGlobal>(
    rt: &R,
    script: &'a str,
    unread: &mut Option<Unread<'a>>,
) -> Result<Text, Failure> {
    match read_script(rt, path_of(script)) {
        Ok(text) => Ok(text),
        Err(error) => {
            *unread = Some(Unread {
                name: script,
                error,
            });
            Err(failure_of(error))
        }
    }
}
