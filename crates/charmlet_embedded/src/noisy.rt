//! Objects of our own.

use charmlet_engine::{Chare, Counter, Elem, Outbox, PupFault};
use std::alloc::AllocError;

/// The entry of a counter that adds its first word, and replies the count.
pub const ADD: u16 = 0;

/// An object that reacts as another one does, and prints each of its entries.
#[derive(Drop)]
pub struct Noisy<C: Chare> {
    rt: HostRuntime,
    object: C,
}

impl<C: Chare> Chare for Noisy<C> {
    ghost state = { λ noisy. C.state noisy.object };

    fn kind(&self) -> u16 {
        self.object.kind()
    }

    fn version(&self) -> u16 {
        self.object.version()
    }

    fn newest(&self) -> u16 {
        self.object.newest()
    }

    fn retro(&mut self, version: u16) {
        self.object.retro(version)
    }

    fn upgrade(&mut self) {
        self.object.upgrade()
    }

    fn size(&mut self) -> usize {
        self.object.size()
    }

    fn pack(&mut self, into: &mut Vec<u8>) -> Result<(), AllocError> {
        self.object.pack(into)
    }

    fn unpack(&mut self, bytes: &[u8]) -> Result<(), PupFault> {
        self.object.unpack(bytes)
    }

    fn enter(
        &mut self,
        me: Elem,
        entry: u16,
        payload: &[u64],
        out: &mut Outbox,
    ) -> Result<(), AllocError> {
        // Where this can't be printed, the object goes on all the same.
        let _printed = println!(self.rt; "{me} enters {entry} {payload:?}");
        self.object.enter(me, entry, payload, out)
    }
}

/// So many noisy counters, all blank.
pub fn blanks(rt: HostRuntime, count: u64) -> Result<Vec<Noisy<Counter>>, AllocError> {
    let mut blanks = Vec::new(rt.alloc());
    for _ in 0..count {
        let object = Counter::blank();
        blanks.push(Noisy { rt, object })?;
    }
    Ok(blanks)
}
