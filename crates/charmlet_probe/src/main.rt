//! `charmlet_probe`: runs the lines of a probe, over a disk that fails as told and objects that
//! count their calls; by an engine, or after `--hub` by a hub.
#![tactic(auto)]

mod hubs;
mod lines;
mod script;
mod words;

use crate::hubs::live_on_hub;
use crate::lines::run_line;
use crate::script::Script;
use charmlet_testing::{
    Bench, EngineMachine, ExitReason, Failed, Failure, Machine, end_program, open_script,
};
use std::alloc::{AllocError, Global};
use std::io::Write;
use std::process::ExitCode;
use std::sync::Wait;
use std::thread::Threads;
use std::{env, io};

/// The room of a line's output, in bytes.
const ROOM: usize = 8_192;

/// The lines of the probe in a file.
fn script_in(rt: HostRuntime, path: &str) -> Result<Script, ExitReason> {
    let text = io::read_to_string(rt.alloc(), open_script(&rt, path)?)?;
    Ok(Script::of(rt.alloc(), text.as_str())?)
}

/// An output with room, so that few lines need more. If memory is refused, it is tried once more.
fn output(alloc: Global) -> Result<Vec<u8>, AllocError> {
    match Vec::with_capacity(alloc, ROOM) {
        Ok(out) => Ok(out),
        Err(_) => Vec::with_capacity(alloc, ROOM),
    }
}

/// A probe: its lines, the bench on which they work, and the writer to which they print.
#[derive(Drop)]
pub(crate) struct Probe<'a, W: Write> {
    pub(crate) alloc: Global,
    bench: Bench,
    script: Script,
    writer: &'a mut W,
}

impl<W: Write> Probe<'_, W> {
    /// Runs the next line, and prints its answer.
    fn print_line<M: Machine, R: Threads + Wait + Sync>(
        &mut self,
        rt: &R,
        store: &mut Option<M>,
    ) -> Result<(), ExitReason> {
        let mut out = output(self.alloc)?;
        let text = self.script.take();
        match run_line(rt, self.alloc, &mut self.bench, store, text, &mut out) {
            Ok(()) => Ok(self.writer.write_all(&out)?),
            Err(Failed::Malformed) => Err(ExitReason::MalformedLine(self.script.taken() as u64)),
            Err(_) => Err(ExitReason::CannotGoOn),
        }
    }

    /// Runs lines until the store ends. Each answer is printed before the next line is run.
    pub(crate) fn live<M: Machine, R: Threads + Wait + Sync>(
        &mut self,
        rt: &R,
        store: &mut Option<M>,
    ) -> Result<(), ExitReason> {
        for _ in 0..self.script.left() {
            if store.is_none() {
                break;
            }
            self.print_line(rt, store)?;
        }
        Ok(())
    }

    /// Runs the next line while there is no store, and then the lines of the store that it makes,
    /// if it makes one.
    fn go_on<R: Threads + Wait + Sync>(
        &mut self,
        rt: &R,
        is_over_hubs: bool,
    ) -> Result<(), ExitReason> {
        let mut none: Option<EngineMachine> = None;
        self.print_line(rt, &mut none)?;
        match self.bench.take_seq() {
            Some(store) if is_over_hubs => live_on_hub(rt, self, store),
            Some(store) => {
                let mut machine = Some(EngineMachine::new(self.alloc, store));
                self.live(rt, &mut machine)
            }
            None => Ok(()),
        }
    }

    /// Runs each line, and prints its answer before the next one is run.
    fn run<R: Threads + Wait + Sync>(
        &mut self,
        rt: &R,
        is_over_hubs: bool,
    ) -> Result<(), ExitReason> {
        for _ in 0..self.script.left() {
            if self.script.left() == 0 {
                break;
            }
            self.go_on(rt, is_over_hubs)?;
        }
        Ok(())
    }
}

/// Runs the probe in a file.
fn run_probe<R: Threads + Wait + Sync>(rt: HostRuntime, wait: &R) -> Result<(), ExitReason> {
    let words: Vec<String> = env::args(&rt)?.collect(rt.alloc())?;
    let is_over_hubs = words.len() == 3 && words[1].as_str() == "--hub";
    let script = match words.last() {
        Some(path) => script_in(rt, path.as_str())?,
        None => return Err(ExitReason::UnreadableScript),
    };
    let mut writer = io::writer(&rt);
    let mut probe = Probe {
        alloc: rt.alloc(),
        bench: Bench::new(rt.alloc())?,
        script,
        writer: &mut writer,
    };
    probe.run(wait, is_over_hubs)
}

fn main(rt: HostRuntime) -> ExitCode {
    let result = run_probe(rt, &rt).map_err(Failure::from);
    let (status, _) = end_program(&result, &mut rt.stderr());
    ExitCode::from(status)
}
