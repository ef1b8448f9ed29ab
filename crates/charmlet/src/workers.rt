//! Runs of scripts by workers.

ghost use Rattle.std.specs.Thread.{IsSync};
ghost use Rattle.charmlet_disk.specs.AnyDisk.AnyDisk.{files_of, is_honest};
ghost use Rattle.charmlet_disk.specs.Disk.{IsSettled};

use crate::blanks::{Object, Task, with_blanks};
use crate::cause::{Cause, warn_of_constructions, warn_of_spare};
use crate::output::{Output, block};
use crate::runs::{Ended, constructions_in, ended_in, refuse_restart};
use crate::scripts::{restart_script_in, script_in};
use charmlet_cli::{ExitReason, Wanted, find_blanks, look_at_spare};
use charmlet_cli_workers::{RanByWorkers, restart_workers, run_workers};
use charmlet_disk::AnyDisk;
use charmlet_model::Kind;
use charmlet_script::{RestartScript, Runner, Script};
use std::alloc::Global;
use std::io;
use std::io::{BufWriter, Write};
use std::sync::Wait;
use std::thread::Threads;

/// The end of a script's run by workers, and why its disk failed first, if it came back and did.
fn ended_by_workers<T: Drop>(ran: RanByWorkers<AnyDisk, T>) -> Ended {
    let RanByWorkers {
        disk,
        result,
        constructions,
    } = ran;
    let failure = match &disk {
        Some(disk) => disk.cause(),
        None => None,
    };
    Ended {
        result: result.map_err(ExitReason::from),
        failure,
        constructions,
    }
}

/// A run of a script by workers over a new store on this disk, with its lines written.
#[derive(Drop)]
struct WorkersRun<'a, R: Threads + Wait + Sync, W: Write> {
    threads: &'a R,
    alloc: Global,
    disk: AnyDisk,
    script: &'a Script,
    writer: &'a mut W,
}

impl<R: Threads + Wait + Sync, W: Write> Task for WorkersRun<'_, R, W> {
    type Answer = Ended;

    ghost may_begin = { λ run. IsSync R.row
        × (is_honest run.disk → IsSettled (files_of run.disk)) };

    fn blanks(&self, _kind: Kind) -> u64 {
        0
    }

    fn supplies(&self, kind: Kind) -> u64 {
        self.script.blanks(kind)
    }

    fn begin(self, _blanks: Vec<Object>, supplies: Vec<Object>) -> Ended {
        let WorkersRun {
            threads,
            alloc,
            disk,
            script,
            writer,
        } = self;
        let ran = run_workers(threads, alloc, disk, script, supplies, writer);
        ended_by_workers(ran)
    }
}

/// Runs a script by workers over a new store in the two files of a folder, or in memory without
/// one.
fn run_in<R: Threads + Wait + Sync, W: Write>(
    rt: HostRuntime,
    threads: &R,
    script: &Script,
    dir: Option<&str>,
    writer: &mut W,
) -> Result<Ended, ExitReason> {
    let alloc = rt.alloc();
    let disk = match dir {
        Some(dir) => AnyDisk::folder(rt, dir)?,
        None => AnyDisk::memory(alloc),
    };
    let run = WorkersRun {
        threads,
        alloc,
        disk,
        script,
        writer,
    };
    Ok(with_blanks(alloc, run)?)
}

/// Reads a script, and then runs it by workers over a new store in the two files of a folder, or in
/// memory without one. If it is strict, it runs up to the first refused line.
pub(crate) fn run_by_workers<'a, R: Threads + Wait + Sync>(
    rt: HostRuntime,
    threads: &R,
    path: &'a str,
    dir: Option<&'a str>,
    is_strict: bool,
    cause: &mut Option<Cause<'a>>,
) -> Result<(), ExitReason> {
    let script = script_in(rt, path, Runner::Workers, cause)?;
    let writer = BufWriter::with_capacity(rt.alloc(), block(rt), io::writer(&rt))?;
    let mut output = Output::new(writer, is_strict);
    let ran = run_in(rt, threads, &script, dir, &mut output);
    let ran = ended_in(ran, dir, cause);
    output.end(ran, cause)
}

/// A run of a script by workers over the store on this disk, which is restarted on this number of
/// processors, with the blanks that the restart wants.
#[derive(Drop)]
struct WorkersRestart<'a, R: Threads + Wait + Sync, W: Write> {
    threads: &'a R,
    alloc: Global,
    disk: AnyDisk,
    processors: u16,
    script: &'a RestartScript,
    wanted: Wanted,
    writer: &'a mut W,
}

impl<R: Threads + Wait + Sync, W: Write> Task for WorkersRestart<'_, R, W> {
    type Answer = Ended;

    ghost may_begin = { λ _. IsSync R.row };

    fn blanks(&self, kind: Kind) -> u64 {
        self.wanted.of(kind)
    }

    fn supplies(&self, kind: Kind) -> u64 {
        self.script.blanks(kind)
    }

    fn begin(self, blanks: Vec<Object>, supplies: Vec<Object>) -> Ended {
        let WorkersRestart {
            threads,
            alloc,
            disk,
            processors,
            script,
            writer,
            ..
        } = self;
        let ran = restart_workers(
            threads, alloc, disk, processors, script, blanks, supplies, writer,
        );
        ended_by_workers(ran)
    }
}

/// Runs a script by workers over the store in the two files of a folder, which is restarted on
/// `processors` processors.
fn restart_in<R: Threads + Wait + Sync, W: Write>(
    rt: HostRuntime,
    threads: &R,
    dir: &str,
    script: &RestartScript,
    processors: u16,
    writer: &mut W,
) -> Result<Ended, ExitReason> {
    let alloc = rt.alloc();
    let mut disk = AnyDisk::folder(rt, dir)?;
    let wanted = match find_blanks(alloc, &mut disk, processors, writer) {
        Ok(wanted) => wanted,
        Err(error) => {
            return Ok(Ended::before_its_lines(ExitReason::from(error), disk.cause()));
        }
    };
    match look_at_spare(&mut disk) {
        Ok(spare) => warn_of_spare(rt, dir, spare),
        Err(_) => {
            let stop = refuse_restart(alloc, writer);
            return Ok(Ended::before_its_lines(stop, disk.cause()));
        }
    }
    let restart = WorkersRestart {
        threads,
        alloc,
        disk,
        processors,
        script,
        wanted,
        writer,
    };
    Ok(with_blanks(alloc, restart)?)
}

/// Reads a script, and then runs it by workers over the store in the two files of a folder, which
/// is restarted on `processors` processors. If it is strict, it runs up to the first refused line.
pub(crate) fn restart_by_workers<'a, R: Threads + Wait + Sync>(
    rt: HostRuntime,
    threads: &R,
    dir: &'a str,
    path: &'a str,
    processors: u16,
    is_strict: bool,
    cause: &mut Option<Cause<'a>>,
) -> Result<(), ExitReason> {
    let script = restart_script_in(rt, path, Runner::Workers, cause)?;
    let writer = BufWriter::with_capacity(rt.alloc(), block(rt), io::writer(&rt))?;
    let mut output = Output::new(writer, is_strict);
    let ran = restart_in(rt, threads, dir, &script, processors, &mut output);
    let constructions = constructions_in(&ran);
    let ran = ended_in(ran, Some(dir), cause);
    let end = output.end(ran, cause);
    warn_of_constructions(rt, constructions, &script);
    end
}
