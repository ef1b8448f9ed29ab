//! Scripts, blank counters, and runs on new disks.

use charmlet_chare::Chare;
use charmlet_cli::{Ran, run_script};
use charmlet_disk::MemDisk;
use charmlet_kinds::Counter;
use charmlet_script::{Runner, Script, read_script};
use std::alloc::Global;
use std::io::Write;
use std::process::Abort;

// The script of this text.
pub(super) fn script_of(rt: &(impl AllocGlobal + Abort), text: &str) -> Script {
    read_script(rt.alloc(), &mut text.as_bytes(), Runner::Engine).expect(rt, "a script")
}

// `count` blank counters.
pub(super) fn counters(rt: &(impl AllocGlobal + Abort), count: usize) -> Vec<Counter> {
    let mut counters = Vec::new(rt.alloc());
    for _ in 0..count {
        assert!(rt; counters.push(Counter::blank()).is_ok());
    }
    counters
}

// Runs a script on a new disk in memory.
pub(super) fn run_anew<C: Chare, W: Write>(
    alloc: Global,
    script: &Script,
    blanks: Vec<C>,
    writer: &mut W,
) -> Ran<MemDisk, C> {
    run_script(alloc, MemDisk::new(alloc), script, blanks, writer)
}
