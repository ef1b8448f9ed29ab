//! `charmlet`: runs scripts over a new or restarted store of migratable objects, shows a store, and
//! tries the crashes of a script.
#![tactic(auto)]

mod blanks;
mod cause;
mod lab;
mod lab_tasks;
mod output;
mod runs;
mod scripts;
mod workers;

use crate::cause::{Cause, note_command, note_folder, warn_of_spare};
use crate::lab::lab;
use crate::output::Output;
use crate::runs::{restart, run};
use crate::workers::{restart_by_workers, run_by_workers};
use charmlet_cli::{
    Command, ExitReason, Failure, command_of, end_program, look_at_spare, show_store, write_line,
};
use charmlet_disk::AnyDisk;
use charmlet_model::{Answer, Refusal};
use std::io::{BufWriter, Write};
use std::process::ExitCode;
use std::sync::Wait;
use std::thread::Threads;
use std::{env, io};

/// Shows the store in the two files of a folder. Why its disk failed is noted.
fn show_in<'a, W: Write>(
    rt: HostRuntime,
    dir: &'a str,
    writer: &mut W,
    cause: &mut Option<Cause<'a>>,
) -> Result<(), ExitReason> {
    let mut disk = AnyDisk::folder(rt, dir)?;
    let shown = show_disk(rt, dir, &mut disk, writer);
    note_folder(cause, dir, disk.cause());
    shown
}

/// Shows the store on a folder's disk, and warns of the half that isn't taken.
fn show_disk<W: Write>(
    rt: HostRuntime,
    dir: &str,
    disk: &mut AnyDisk,
    writer: &mut W,
) -> Result<(), ExitReason> {
    let alloc = rt.alloc();
    let Ok(spare) = look_at_spare(disk) else {
        write_line(alloc, writer, &Answer::Refused(Refusal::Device))?;
        return Err(ExitReason::NotShown(Refusal::Device));
    };
    show_store(alloc, disk, writer)?;
    warn_of_spare(rt, dir, spare);
    Ok(())
}

/// Shows the store in the two files of a folder, on standard output.
fn show<'a>(
    rt: HostRuntime,
    dir: &'a str,
    cause: &mut Option<Cause<'a>>,
) -> Result<(), ExitReason> {
    let mut output = Output::new(BufWriter::new(rt.alloc(), io::writer(&rt))?, false);
    let shown = show_in(rt, dir, &mut output, cause);
    output.end(shown, cause)
}

/// The words of the command line, the first of which is the program's name.
fn words(rt: HostRuntime) -> io::Result<Vec<String>> {
    Ok(env::args(&rt)?.collect(rt.alloc())?)
}

/// Does what the words of the command line ask for. Workers run in threads of `threads`. The cause
/// of a failure is noted, if it is known.
fn charmlet<'a, R: Threads + Wait + Sync>(
    rt: HostRuntime,
    threads: &R,
    words: &'a [String],
    cause: &mut Option<Cause<'a>>,
) -> Result<(), Failure> {
    let command = command_of(rt.alloc(), words);
    if command.is_err() {
        note_command(cause, words);
    }
    match command? {
        Command::Run {
            script,
            dir,
            workers: false,
            strict,
        } => run(rt, script, dir, strict, cause)?,
        Command::Run {
            script,
            dir,
            strict,
            ..
        } => run_by_workers(rt, threads, script, dir, strict, cause)?,
        Command::Show { dir } => show(rt, dir, cause)?,
        Command::Restart {
            dir,
            script,
            processors,
            workers: false,
            strict,
        } => restart(rt, threads, dir, script, processors, strict, cause)?,
        Command::Restart {
            dir,
            script,
            processors,
            strict,
            ..
        } => restart_by_workers(rt, threads, dir, script, processors, strict, cause)?,
        Command::Lab { script } => lab(rt, threads, script, cause)?,
    }
    Ok(())
}

/// Ends the program. If nothing can be written, only the status tells of the failure.
fn end(rt: HostRuntime, ran: &Result<(), Failure>, cause: &Option<Cause<'_>>) -> ExitCode {
    match cause {
        Some(cause) if cause.is_closed_pipe() => ExitCode::from(1),
        Some(cause) => {
            let (status, _) = end_program(ran, &mut rt.stderr());
            cause.tell(rt);
            ExitCode::from(status)
        }
        None => {
            let (status, _) = end_program(ran, &mut rt.stderr());
            ExitCode::from(status)
        }
    }
}

/// Does what these words ask for, and ends the program.
fn end_of<R: Threads + Wait + Sync>(rt: HostRuntime, threads: &R, words: &[String]) -> ExitCode {
    let mut cause = None;
    let ran = charmlet(rt, threads, words, &mut cause);
    end(rt, &ran, &cause)
}

fn main(rt: HostRuntime) -> ExitCode {
    match words(rt) {
        Ok(words) => end_of(rt, &rt, words.as_slice()),
        Err(error) => end(rt, &Err(Failure::from(error)), &None),
    }
}
