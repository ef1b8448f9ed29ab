//! The bench of a probe's lines: a disk, and the parts with which stores begin.

use crate::disk::{ProbeDisk, Switches};
use crate::objects::{Object, Tally};
use crate::store::{Blanks, Failed, Machine, ProbeStore};
use charmlet_disk::CrashChoice;
use charmlet_model::Kind;
use charmlet_requests::Handlers;
use std::alloc::{AllocError, Global};
use std::marker::Model;
use std::sync::Arc;

/// A disk, and the parts with which stores and restarts begin. The store that has the disk is
/// handed to each call that needs it, since its type has a name that is picked where it begins.
pub struct Bench {
    pub(crate) alloc: Global,
    /// The lines of the header for the next store.
    pub(crate) header: String,
    pub(crate) handlers: Handlers,
    /// The disk, if it is free.
    pub(crate) disk: Option<ProbeDisk>,
    /// The store that was just made or restarted, until it is taken.
    pub(crate) seq: Option<ProbeStore>,
    pub(crate) switches: Arc<Switches>,
    pub(crate) tally: Arc<Tally>,
    /// How many blanks of which kinds are laid by for the next restart.
    pub(crate) laid: Vec<(Kind, u64)>,
    /// The blanks that a refused restart handed back.
    pub(crate) back: Option<Blanks>,
    /// The blanks for a restart that never began, since no memory was left for it.
    pub(crate) kept: Option<Vec<Object>>,
    /// Whether a line that is refused memory is tried once more.
    pub(crate) again: bool,
}

impl Model for Bench {
    ghost use Rattle.std.specs.Prelude.{Bool};

    ghost Value = { Bool };

    ghost view = { λ bench. bench.again };
}

// Written by hand, so that dropping all its fields is proved here, and not in each crate that drops
// a bench.
impl Drop for Bench {
    fn drop(self) {
        let Bench {
            alloc: _,
            header,
            handlers,
            disk,
            seq,
            switches,
            tally,
            laid,
            back,
            kept,
            again: _,
        } = self;
        drop(header);
        drop(handlers);
        drop(disk);
        drop(seq);
        drop(switches);
        drop(tally);
        drop(laid);
        drop(back);
        drop(kept);
    }
}

impl Bench {
    /// A new disk, and no store.
    pub fn new(alloc: Global) -> Result<Bench, AllocError> {
        let tally = Arc::new(alloc, Tally::new())?;
        let disk = ProbeDisk::new(alloc)?;
        let switches = disk.switches()?;
        Ok(Bench {
            alloc,
            header: String::new(alloc),
            handlers: Handlers::new(alloc),
            disk: Some(disk),
            seq: None,
            switches,
            tally,
            laid: Vec::new(alloc),
            back: None,
            kept: None,
            again: false,
        })
    }

    /// The disk, if it is free.
    pub(crate) fn disk(&mut self) -> Result<&mut ProbeDisk, Failed> {
        self.disk.as_mut().ok_or(Failed::Lacks("disk"))
    }

    /// The switches by which the disk misbehaves.
    pub fn switches(&self) -> &Switches {
        &self.switches
    }

    /// The tally of calls of the bench's objects.
    pub fn tally(&self) -> &Tally {
        &self.tally
    }

    /// Adds a line to the header for the next store. If memory is refused, the header is unchanged.
    pub fn declare(&mut self, line: &str) -> Result<(), Failed> {
        self.header.reserve(line.len().saturating_add(1))?;
        self.header.push_str(line)?;
        Ok(self.header.push('\n')?)
    }

    /// Lays this many blanks of a kind by for the next restart.
    pub fn lay_by(&mut self, kind: Kind, count: u64) -> Result<(), Failed> {
        Ok(self.laid.push((kind, count))?)
    }

    /// Tries a line that is refused memory once more, from now on.
    pub fn try_again(&mut self) {
        self.again = true;
    }

    /// Whether a line that is refused memory is tried once more.
    pub fn tries_again(&self) -> bool {
        self.again
    }

    /// Takes the store that was just made or restarted, if there is one.
    pub fn take_seq(&mut self) -> Option<ProbeStore> {
        self.seq.take()
    }

    /// Replaces the disk and the store by a new disk.
    pub fn renew<M: Machine>(&mut self, store: &mut Option<M>) -> Result<(), Failed> {
        let disk = ProbeDisk::new(self.alloc)?;
        let switches = disk.switches()?;
        self.leave(store);
        self.disk = Some(disk);
        self.switches = switches;
        Ok(())
    }

    /// Drops the store, if there is one, and frees its disk.
    pub fn leave<M: Machine>(&mut self, store: &mut Option<M>) {
        if let Some(machine) = store.take() {
            self.disk = machine.into_disk();
        }
    }

    /// Crashes the disk, and the store with it.
    pub fn crash<M: Machine>(&mut self, store: &mut Option<M>, choice: CrashChoice) {
        self.leave(store);
        if let Some(disk) = self.disk.take() {
            self.disk = Some(disk.crash(choice));
        }
    }
}
