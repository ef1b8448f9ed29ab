//! Runs of scripts over a new or restarted store.

ghost use Rattle.std.specs.Thread.{IsSync};
ghost use Rattle.charmlet_disk.specs.AnyDisk.AnyDisk.{files_of, is_honest};
ghost use Rattle.charmlet_disk.specs.Disk.{IsSettled};

use crate::blanks::{Object, Task, with_blanks};
use crate::cause::{Cause, note_folder, warn_of_constructions, warn_of_spare};
use crate::output::{Output, block};
use crate::scripts::{restart_script_in, script_in};
use charmlet_cli::{
    ExitReason, Ran, RestartError, Restarted, RunError, Wanted, find_blanks, look_at_spare,
    restart_script, run_script, write_line,
};
use charmlet_disk::AnyDisk;
use charmlet_model::{Answer, Kind, Refusal};
use charmlet_script::{RestartScript, Runner, Script};
use std::alloc::Global;
use std::io;
use std::io::{BufWriter, Write};
use std::thread::Threads;

/// The end of a script's run.
#[derive(Drop)]
pub(crate) struct Ended {
    pub(crate) result: Result<(), ExitReason>,
    /// Why its disk failed first, if it did.
    pub(crate) failure: Option<io::Error>,
    /// How many blanks of each kind were wanted by the messages that were pending at the restart.
    pub(crate) constructions: Option<Wanted>,
}

impl Ended {
    /// The end of a script that wasn't run, since no store was restarted.
    pub(crate) fn before_its_lines(stop: ExitReason, failure: Option<io::Error>) -> Ended {
        Ended {
            result: Err(stop),
            failure,
            constructions: None,
        }
    }
}

/// A run of a script over a new store on this disk, with its lines written.
#[derive(Drop)]
struct ScriptRun<'a, W: Write> {
    alloc: Global,
    disk: AnyDisk,
    script: &'a Script,
    writer: &'a mut W,
}

impl<W: Write> Task for ScriptRun<'_, W> {
    type Answer = Ended;

    ghost may_begin = { λ run. is_honest run.disk → IsSettled (files_of run.disk) };

    fn blanks(&self, _kind: Kind) -> u64 {
        0
    }

    fn supplies(&self, kind: Kind) -> u64 {
        self.script.blanks(kind)
    }

    fn begin(self, _blanks: Vec<Object>, supplies: Vec<Object>) -> Ended {
        let ScriptRun {
            alloc,
            disk,
            script,
            writer,
        } = self;
        let Ran { disk, result } = run_script(alloc, disk, script, supplies, writer);
        Ended {
            result: result.map_err(ExitReason::from),
            failure: disk.cause(),
            constructions: None,
        }
    }
}

/// Runs a script over a new store in the two files of a folder, or in memory without one.
fn run_in<W: Write>(
    rt: HostRuntime,
    script: &Script,
    dir: Option<&str>,
    writer: &mut W,
) -> Result<Ended, ExitReason> {
    let alloc = rt.alloc();
    let disk = match dir {
        Some(dir) => AnyDisk::folder(rt, dir)?,
        None => AnyDisk::memory(alloc),
    };
    let run = ScriptRun {
        alloc,
        disk,
        script,
        writer,
    };
    Ok(with_blanks(alloc, run)?)
}

/// Reads a script, and then runs it over a new store in the two files of a folder, or in memory
/// without one. If it is strict, it runs up to the first refused line.
pub(crate) fn run<'a>(
    rt: HostRuntime,
    path: &'a str,
    dir: Option<&'a str>,
    is_strict: bool,
    cause: &mut Option<Cause<'a>>,
) -> Result<(), ExitReason> {
    let script = script_in(rt, path, Runner::Engine, cause)?;
    let writer = BufWriter::with_capacity(rt.alloc(), block(rt), io::writer(&rt))?;
    let mut output = Output::new(writer, is_strict);
    let ran = run_in(rt, &script, dir, &mut output);
    let ran = ended_in(ran, dir, cause);
    output.end(ran, cause)
}

/// The end of a script's run. Why the disk in its folder failed is noted.
pub(crate) fn ended_in<'a>(
    ran: Result<Ended, ExitReason>,
    dir: Option<&'a str>,
    cause: &mut Option<Cause<'a>>,
) -> Result<(), ExitReason> {
    let Ended {
        result,
        failure,
        ..
    } = ran?;
    if let Some(dir) = dir {
        note_folder(cause, dir, failure);
    }
    result
}

/// A run of a script over the store on this disk, which is restarted on this number of processors,
/// with the blanks that the restart wants, in threads of `threads`.
#[derive(Drop)]
struct ScriptRestart<'a, R: Threads + Sync, W: Write> {
    threads: &'a R,
    alloc: Global,
    disk: AnyDisk,
    processors: u16,
    script: &'a RestartScript,
    wanted: Wanted,
    writer: &'a mut W,
}

impl<R: Threads + Sync, W: Write> Task for ScriptRestart<'_, R, W> {
    type Answer = Ended;

    ghost may_begin = { λ _. IsSync R.row };

    fn blanks(&self, kind: Kind) -> u64 {
        self.wanted.of(kind)
    }

    fn supplies(&self, kind: Kind) -> u64 {
        self.script.blanks(kind)
    }

    fn begin(self, blanks: Vec<Object>, supplies: Vec<Object>) -> Ended {
        let ScriptRestart {
            threads,
            alloc,
            disk,
            processors,
            script,
            writer,
            ..
        } = self;
        let Restarted {
            disk,
            result,
            constructions,
        } = restart_script(
            threads, alloc, disk, processors, script, blanks, supplies, writer,
        );
        Ended {
            result: result.map_err(ExitReason::from),
            failure: disk.cause(),
            constructions,
        }
    }
}

/// Runs a script over the store in the two files of a folder, which is restarted on `processors`
/// processors, by as many workers in threads of `threads`.
fn restart_in<R: Threads + Sync, W: Write>(
    rt: HostRuntime,
    threads: &R,
    dir: &str,
    script: &RestartScript,
    processors: u16,
    writer: &mut W,
) -> Result<Ended, ExitReason> {
    let alloc = rt.alloc();
    let mut disk = AnyDisk::folder(rt, dir)?;
    let wanted = match find_blanks(alloc, &mut disk, processors, writer) {
        Ok(wanted) => wanted,
        Err(error) => {
            return Ok(Ended::before_its_lines(ExitReason::from(error), disk.cause()));
        }
    };
    match look_at_spare(&mut disk) {
        Ok(spare) => warn_of_spare(rt, dir, spare),
        Err(_) => {
            let stop = refuse_restart(alloc, writer);
            return Ok(Ended::before_its_lines(stop, disk.cause()));
        }
    }
    let restart = ScriptRestart {
        threads,
        alloc,
        disk,
        processors,
        script,
        wanted,
        writer,
    };
    Ok(with_blanks(alloc, restart)?)
}

/// Reads a script, and then runs it over the store in the two files of a folder, which is restarted
/// on `processors` processors, by as many workers in threads of `threads`. If it is strict, it runs
/// up to the first refused line.
pub(crate) fn restart<'a, R: Threads + Sync>(
    rt: HostRuntime,
    threads: &R,
    dir: &'a str,
    path: &'a str,
    processors: u16,
    is_strict: bool,
    cause: &mut Option<Cause<'a>>,
) -> Result<(), ExitReason> {
    let script = restart_script_in(rt, path, Runner::Engine, cause)?;
    let writer = BufWriter::with_capacity(rt.alloc(), block(rt), io::writer(&rt))?;
    let mut output = Output::new(writer, is_strict);
    let ran = restart_in(rt, threads, dir, &script, processors, &mut output);
    let constructions = constructions_in(&ran);
    let ran = ended_in(ran, Some(dir), cause);
    let end = output.end(ran, cause);
    warn_of_constructions(rt, constructions, &script);
    end
}

/// Writes that no store is restarted, since the disk failed.
pub(crate) fn refuse_restart<W: Write>(alloc: Global, writer: &mut W) -> ExitReason {
    match write_line(alloc, writer, &Answer::Refused(Refusal::Device)) {
        Ok(()) => ExitReason::NotRestarted(Refusal::Device),
        Err(error) => ExitReason::from(error),
    }
}

/// How many blanks of each kind were wanted by the messages that were pending at a restart.
pub(crate) fn constructions_in(ran: &Result<Ended, ExitReason>) -> Option<Wanted> {
    match ran {
        Ok(ended) => ended.constructions,
        Err(_) => None,
    }
}
