//! The laboratory of crashes, with objects of all kinds.

use crate::cause::Cause;
use crate::lab_tasks::AllKinds;
use crate::output::Output;
use crate::scripts::script_in;
use charmlet_cli::{ExitReason, write_line};
use charmlet_disk::AnyDisk;
use charmlet_lab::{LabLine, Watch, try_crashes};
use charmlet_model::{Answer, Refusal};
use charmlet_script::Runner;
use std::alloc::Global;
use std::io;
use std::io::{BufWriter, IsTerminal, Write};
use std::thread::Threads;
use std::time::Instant;

/// The laboratory's progress: on standard error, if that is a terminal, once a second.
#[derive(Drop)]
struct Progress {
    rt: HostRuntime,
    /// The time of the last output, or of the laboratory's beginning; `None` if nothing is written.
    last: Option<Instant>,
    is_shown: bool,
}

impl Progress {
    fn new(rt: HostRuntime) -> Self {
        let is_terminal = rt.stderr().is_terminal();
        Progress {
            rt,
            last: if is_terminal {
                Instant::now(&rt).ok()
            } else {
                None
            },
            is_shown: false,
        }
    }

    /// Clears the earlier output.
    fn clear(&self) {
        if self.is_shown {
            let _cleared = eprint!(self.rt; "\r\x1b[K");
        }
    }
}

impl Watch for Progress {
    /// Writes the counts so far, over the earlier output.
    fn tell(&mut self, line: &LabLine) {
        let Some(last) = &self.last else {
            return;
        };
        let Ok(passed) = last.elapsed(&self.rt) else {
            return;
        };
        if passed.as_secs() > 0 {
            self.is_shown = eprint!(self.rt; "\r{line} so far").is_ok();
            self.last = Instant::now(&self.rt).ok();
        }
    }
}

/// Writes the laboratory's result.
fn tell_found<W: Write>(
    alloc: Global,
    found: Result<LabLine, Refusal>,
    writer: &mut W,
) -> Result<(), ExitReason> {
    match found {
        Ok(line) => {
            write_line(alloc, writer, &line)?;
            if line.bad > 0 {
                Err(ExitReason::NotSurvived)
            } else {
                Ok(())
            }
        }
        Err(Refusal::BadPes) => {
            write_line(alloc, writer, &Answer::Refused(Refusal::BadPes))?;
            Err(ExitReason::NotCreated(Refusal::BadPes))
        }
        Err(_) => Err(ExitReason::CannotGoOn),
    }
}

/// Tries the crashes of a script, and writes the result on standard output. Restarts replay in
/// threads of `threads`.
pub(crate) fn lab<'a, R: Threads + Sync>(
    rt: HostRuntime,
    threads: &R,
    path: &'a str,
    cause: &mut Option<Cause<'a>>,
) -> Result<(), ExitReason> {
    let script = script_in(rt, path, Runner::Engine, cause)?;
    let mut progress = Progress::new(rt);
    let kinds = AllKinds { threads };
    let found = try_crashes::<AnyDisk, AllKinds<'_, R>, Progress>(
        rt.alloc(),
        &script,
        &kinds,
        &mut progress,
    );
    progress.clear();
    let mut output = Output::new(BufWriter::new(rt.alloc(), io::writer(&rt))?, false);
    let told = tell_found(rt.alloc(), found, &mut output);
    output.end(told, cause)
}
