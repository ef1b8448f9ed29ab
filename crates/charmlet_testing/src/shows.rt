//! Lines that show something of a store or a disk.

use crate::bench::Bench;
use crate::saying::say_bytes;
use crate::store::{Failed, Machine};
use crate::store_of::store_of;
use charmlet_cli::{ShowError, show_store};
use charmlet_disk::Call;
use charmlet_halves::{Surveyed, survey};
use charmlet_model::Half;
use charmlet_reference::{Recovered, recover};
use std::io::Write;

/// Prints the store's counts.
pub fn look<M: Machine>(store: &mut Option<M>, out: &mut Vec<u8>) -> Result<(), Failed> {
    let counts = store_of(store)?.counts();
    let (generation, durable) = (counts.generation, counts.durable);
    let (events, pending) = (counts.events, counts.pending);
    let halted = if counts.is_halted { "yes" } else { "no" };
    write!(out, "store generation {generation} durable {durable} ")?;
    Ok(writeln!(out, "events {events} pending {pending} halted {halted}")?)
}

/// Prints which message comes next, and where.
pub fn next<M: Machine>(store: &mut Option<M>, out: &mut Vec<u8>) -> Result<(), Failed> {
    match store_of(store)?.next() {
        Some((processor, id)) => Ok(writeln!(out, "next {processor} {id}")?),
        None => Ok(writeln!(out, "next none")?),
    }
}

/// Prints the bytes of an image of the store.
pub fn image<M: Machine>(store: &mut Option<M>, out: &mut Vec<u8>) -> Result<(), Failed> {
    let bytes = store_of(store)?.image()?;
    say_image(&bytes, out)
}

impl Bench {
    /// Writes bytes to a half of the free disk.
    pub fn write(&mut self, half: Half, offset: u64, bytes: &[u8]) -> Result<(), Failed> {
        Ok(self.disk()?.put(half, offset, bytes)?)
    }

    /// Keeps the first bytes of a half of the free disk.
    pub fn cut(&mut self, half: Half, length: u64) -> Result<(), Failed> {
        let alloc = self.alloc;
        Ok(self.disk()?.cut(alloc, half, length)?)
    }

    /// Prints the bytes of a half of the free disk, from an offset on.
    pub fn half(&mut self, half: Half, offset: usize, out: &mut Vec<u8>) -> Result<(), Failed> {
        let alloc = self.alloc;
        let bytes = self.disk()?.bytes(alloc, half)?;
        say_half(half, &bytes, offset, out)
    }

    /// Prints the calls that changed the free disk, in order.
    pub fn trace(&mut self, out: &mut Vec<u8>) -> Result<(), Failed> {
        for call in self.disk()?.inner().calls() {
            match call {
                Call::Write(half, offset, bytes) => {
                    let length = bytes.as_slice().len();
                    writeln!(out, "write {half} {offset} {length}")?;
                }
                Call::Sync(half) => writeln!(out, "sync {half}")?,
                Call::Crash(_) => writeln!(out, "crash")?,
            }
        }
        Ok(())
    }

    /// Prints the findings on the free disk, as the program shows them.
    pub fn manifest(&mut self, out: &mut Vec<u8>) -> Result<(), Failed> {
        let alloc = self.alloc;
        match show_store(alloc, self.disk()?, out) {
            Ok(()) => Ok(()),
            Err(ShowError::Refused(refusal)) => {
                out.clear();
                Err(Failed::Refused(refusal))
            }
            Err(ShowError::Output(_)) => Err(Failed::MEMORY),
        }
    }

    /// Prints which half of the free disk is taken, and its contents.
    pub fn survey(&mut self, out: &mut Vec<u8>) -> Result<(), Failed> {
        let alloc = self.alloc;
        let found = survey(alloc, self.disk()?)?;
        say_found(&found, out)
    }

    /// Prints what the halves of the free disk recover to, by the plain program.
    pub fn recover(&mut self, out: &mut Vec<u8>) -> Result<(), Failed> {
        let alloc = self.alloc;
        let disk = self.disk()?;
        let zero = disk.bytes(alloc, Half::Zero)?;
        let one = disk.bytes(alloc, Half::One)?;
        let recovered = recover(alloc, &zero, &one)?;
        say_recovered(&recovered, out)
    }
}

/// Prints the bytes of an image.
fn say_image(bytes: &[u8], out: &mut Vec<u8>) -> Result<(), Failed> {
    let length = bytes.len();
    writeln!(out, "image length {length}")?;
    say_bytes(out, bytes)
}

/// Prints the bytes of a half, from an offset on.
fn say_half(half: Half, bytes: &[u8], offset: usize, out: &mut Vec<u8>) -> Result<(), Failed> {
    let length = bytes.len();
    writeln!(out, "half {half} length {length}")?;
    say_bytes(out, &bytes[offset.min(length)..])
}

/// Prints the contents of the taken half.
fn say_found(found: &Surveyed, out: &mut Vec<u8>) -> Result<(), Failed> {
    let (half, log) = (found.half, found.contents.logged);
    let header = found.contents.header;
    let (generation, base, image) = (header.generation, header.events, header.size);
    write!(out, "half {half} generation {generation} ")?;
    Ok(writeln!(out, "base {base} image {image} log {log}")?)
}

/// Prints what two halves recover to.
fn say_recovered(recovered: &Recovered, out: &mut Vec<u8>) -> Result<(), Failed> {
    match recovered {
        Recovered::Nothing => writeln!(out, "nothing")?,
        Recovered::Damaged { half, offset } => writeln!(out, "damaged {half} {offset}")?,
        Recovered::Found {
            world,
            events,
            generation,
        } => {
            let pending = world.pending().len();
            writeln!(
                out,
                "events {events} generation {generation} pending {pending}"
            )?;
        }
    }
    Ok(())
}
