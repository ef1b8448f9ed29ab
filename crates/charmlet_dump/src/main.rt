//! `charmlet_dump`: shows the whole contents of a store in a folder, and changes nothing.
#![tactic(auto)]

mod arguments;
mod cause;
mod constructions;
mod dump;
mod exit;
mod found;
mod json;
mod lines;
mod output;
mod world_lines;

use crate::arguments::{Request, arguments_of};
use crate::cause::Cause;
use crate::dump::{DumpError, dump_store};
use crate::exit::{Failure, end_program};
use charmlet_disk::FileDisk;
use std::io::{BufWriter, Write};
use std::process::ExitCode;
use std::rt::Runtime;
use std::{env, io};

/// The words of the command line, the first of which is the program's name.
fn words<R: Runtime + AllocGlobal>(rt: &R) -> io::Result<Vec<String>> {
    Ok(env::args(rt)?.collect(rt.alloc())?)
}

/// Dumps the store in the two files of a folder on standard output. The cause of a failure is
/// noted, if it is known.
fn dump_folder<'a>(
    rt: HostRuntime,
    request: Request<'a>,
    cause: &mut Option<Cause<'a>>,
) -> Result<(), Failure<'a>> {
    let alloc = rt.alloc();
    let mut writer = BufWriter::new(alloc, io::writer(&rt))?;
    let mut disk = FileDisk::new(rt, request.folder)?;
    let dumped = dump_store(
        alloc,
        &mut disk,
        request.processors,
        request.form,
        &mut writer,
    );
    if let Some(error) = disk.cause() {
        *cause = Some(Cause::Folder(request.folder, error));
    }
    let written = match &dumped {
        Err(DumpError::Output(error)) => Err(*error),
        _ => writer.flush(),
    };
    if let Err(error) = written {
        *cause = Some(Cause::Output(error));
    }
    written?;
    Ok(dumped?)
}

/// Does what the words ask for. The cause of a failure is noted, if it is known.
fn charmlet_dump<'a>(
    rt: HostRuntime,
    words: &'a [String],
    cause: &mut Option<Cause<'a>>,
) -> Result<(), Failure<'a>> {
    dump_folder(rt, arguments_of(words)?, cause)
}

/// Does what these words ask for, and ends the program.
fn end_of(rt: HostRuntime, words: &[String]) -> ExitCode {
    let mut cause = None;
    let ran = charmlet_dump(rt, words, &mut cause);
    end(rt, &ran, &cause)
}

fn main(rt: HostRuntime) -> ExitCode {
    match words(&rt) {
        Ok(words) => end_of(rt, words.as_slice()),
        Err(error) => end(rt, &Err(Failure::from(error)), &None),
    }
}

/// Writes why there is no dump, if there is none, and ends the program. If nobody reads the dump
/// any more, nothing is said.
fn end(rt: HostRuntime, ran: &Result<(), Failure<'_>>, cause: &Option<Cause<'_>>) -> ExitCode {
    if matches!(cause, Some(cause) if cause.is_closed_pipe()) {
        return ExitCode::from(1);
    }
    // If nothing can be written, only the status tells of the failure.
    let (status, _) = end_program(ran, &mut rt.stderr());
    if let Some(cause) = cause {
        let _told = eprintln!(rt; "{cause}");
    }
    ExitCode::from(status)
}
