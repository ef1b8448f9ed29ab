//! Beginnings, restarts and ends of stores.

use crate::bench::Bench;
use crate::objects::{Object, blanks};
use crate::saying::say;
use crate::store::{
    Blanks, Ended, Failed, Machine, NotBack, Parts, ProbeStore, Without, wanted_objects,
};
use charmlet_cli::{RestartedLine, handlers_of};
use charmlet_halves::Refused;
use charmlet_model::{Kind, Refusal};
use charmlet_script::{Runner, Script, read_script};
use std::io::Write;
use std::thread::Threads;

impl Bench {
    /// Makes a store from the header.
    pub fn create(&mut self, out: &mut Vec<u8>) -> Result<(), Failed> {
        let script = read_script(self.alloc, &mut self.header.as_bytes(), Runner::Engine)?;
        self.create_by(&script)?;
        say(self.alloc, out, &"created")
    }

    /// Makes a store from a script, whose handlers are the bench's from then on.
    fn create_by(&mut self, script: &Script) -> Result<(), Failed> {
        let handlers = handlers_of(self.alloc, script.handlers())?;
        self.begin(script)?;
        self.handlers = handlers;
        Ok(())
    }

    /// Makes a store with the arrays of a script. A new header begins, unless memory or a disk is
    /// lacking.
    fn begin(&mut self, script: &Script) -> Result<(), Failed> {
        let manifest = script.manifest(self.alloc)?;
        let Some(disk) = self.disk.take() else {
            return Err(Failed::Lacks("disk"));
        };
        match ProbeStore::create(self.alloc, disk, manifest, script.processors()) {
            Ok(store) => {
                self.seq = Some(store);
                self.header.clear();
                Ok(())
            }
            Err(Refused { refusal, disk }) => {
                self.disk = Some(disk);
                if refusal != Refusal::Memory {
                    self.header.clear();
                }
                Err(Failed::Refused(refusal))
            }
        }
    }

    /// Restarts the store on this many processors: with the blanks that came back and those that
    /// were laid by, or, if there are none, with those that are wanted.
    pub fn restart<R: Threads + Sync>(
        &mut self,
        rt: &R,
        processors: u16,
        out: &mut Vec<u8>,
    ) -> Result<(), Failed> {
        self.disk()?;
        let blanks = self.bring()?;
        self.come_back(rt, blanks, processors)?;
        self.say_restarted(processors, out)
    }

    /// The blanks for a restart. If memory is refused, none that was made or came back is lost.
    fn bring(&mut self) -> Result<Blanks, Failed> {
        if self.laid.is_empty() && self.kept.is_none() {
            if let Some(blanks) = self.back.take() {
                return Ok(blanks);
            }
        }
        let mut objects = self.make_objects()?;
        self.add_kept(&mut objects)?;
        self.laid.clear();
        match Blanks::of(self.alloc, objects) {
            Ok(blanks) => Ok(blanks),
            Err(objects) => {
                self.kept = Some(objects);
                Err(Failed::MEMORY)
            }
        }
    }

    /// New objects for the blanks that were laid by, or, if there are no blanks, for those that a
    /// restart from the free disk wants.
    fn make_objects(&mut self) -> Result<Vec<Object>, Failed> {
        if !self.laid.is_empty() || self.kept.is_some() {
            return Ok(blanks(self.alloc, &self.tally, &self.laid)?);
        }
        let Some(disk) = &mut self.disk else {
            return Err(Failed::Lacks("disk"));
        };
        Ok(wanted_objects(self.alloc, &self.tally, disk)?)
    }

    /// How many blanks were kept or came back.
    fn count_kept(&self) -> usize {
        let kept = match &self.kept {
            Some(objects) => objects.len(),
            None => 0,
        };
        match &self.back {
            Some(blanks) => kept.saturating_add(blanks.count() as usize),
            None => kept,
        }
    }

    /// Appends the blanks that were kept or came back. If there is no room for them, they stay.
    fn add_kept(&mut self, objects: &mut Vec<Object>) -> Result<(), Failed> {
        objects.reserve(self.count_kept())?;
        if let Some(mut kept) = self.kept.take() {
            objects.append(&mut kept)?;
        }
        match self.back.take() {
            Some(blanks) => Ok(blanks.append_to(objects)?),
            None => Ok(()),
        }
    }

    /// Restarts the store with these blanks.
    fn come_back<R: Threads + Sync>(
        &mut self,
        rt: &R,
        blanks: Blanks,
        processors: u16,
    ) -> Result<(), Failed> {
        let Some(disk) = self.disk.take() else {
            return Err(Failed::Lacks("disk"));
        };
        match ProbeStore::restart(rt, self.alloc, disk, blanks, processors) {
            Ok(store) => {
                self.seq = Some(store);
                Ok(())
            }
            Err(
                NotBack {
                    refusal,
                    disk,
                    blanks,
                },
            ) => {
                let count = blanks.count();
                self.disk = Some(disk);
                self.back = Some(blanks);
                Err(Failed::NotRestarted(refusal, count))
            }
        }
    }

    /// Prints that the store was restarted.
    fn say_restarted(&self, processors: u16, out: &mut Vec<u8>) -> Result<(), Failed> {
        let Some(store) = &self.seq else {
            return Err(Failed::Lacks("store"));
        };
        let line = RestartedLine {
            generation: store.generation(),
            events: store.durable(),
            processors,
        };
        say(self.alloc, out, &line)
    }

    /// Closes the store, handing in everything except `without`, and frees its disk.
    pub fn close<M: Machine>(
        &mut self,
        store: &mut Option<M>,
        without: Without,
        out: &mut Vec<u8>,
    ) -> Result<(), Failed> {
        let Some(machine) = store.take() else {
            return Err(Failed::Lacks("store"));
        };
        match machine.close(without) {
            Ok(Ended { disk, parts }) => {
                self.disk = Some(disk);
                match parts {
                    Some(parts) => say_parts(&parts, out),
                    None => Err(Failed::MEMORY),
                }
            }
            Err((refusal, machine)) => {
                *store = Some(machine);
                Err(Failed::Refused(refusal))
            }
        }
    }
}

/// Prints the parts of a store.
fn say_parts(parts: &Parts, out: &mut Vec<u8>) -> Result<(), Failed> {
    for (elem, resident) in parts.residents() {
        let sent = resident.sent;
        let received = resident.received;
        writeln!(out, "closed {elem} sent {sent} received {received}")?;
    }
    for kind in &Kind::ALL {
        let count = parts.left(*kind);
        if count > 0 {
            writeln!(out, "stock {kind} {count}")?;
        }
    }
    Ok(())
}
