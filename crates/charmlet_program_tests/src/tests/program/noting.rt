//! Objects that note what is done with them.

use charmlet_chare::{Chare, Outbox};
use charmlet_kinds::Counter;
use charmlet_model::Elem;
use charmlet_pup::PupFault;
use std::alloc::AllocError;
use std::process::Abort;
use std::sync::Arc;
use std::sync::atomic::{AtomicU64, Ordering};

// How often the objects were entered and dropped.
#[derive(Drop)]
pub struct Notes {
    entries: AtomicU64,
    drops: AtomicU64,
}

impl Notes {
    fn new() -> Self {
        Notes {
            entries: AtomicU64::new(0),
            drops: AtomicU64::new(0),
        }
    }

    pub(super) fn entries(&self) -> u64 {
        self.entries.load(Ordering::SeqCst)
    }

    pub(super) fn drops(&self) -> u64 {
        self.drops.load(Ordering::SeqCst)
    }
}

// Notes of nothing.
pub(super) fn new_notes(rt: &(impl AllocGlobal + Abort)) -> Arc<Notes> {
    Arc::new(rt.alloc(), Notes::new()).expect(rt, "notes")
}

// A blank counter that notes.
fn noted_counter(rt: &impl Abort, notes: &Arc<Notes>) -> Noted<Counter> {
    let notes = notes.clone().expect(rt, "they are shared");
    let object = Counter::blank();
    Noted { object, notes }
}

// `count` of them.
pub(super) fn noted_counters(
    rt: &(impl AllocGlobal + Abort),
    notes: &Arc<Notes>,
    count: usize,
) -> Vec<Noted<Counter>> {
    let mut counters = Vec::new(rt.alloc());
    for _ in 0..count {
        assert!(rt; counters.push(noted_counter(rt, notes)).is_ok());
    }
    counters
}

pub struct Noted<C: Chare> {
    object: C,
    notes: Arc<Notes>,
}

impl<C: Chare> Drop for Noted<C> {
    fn drop(self) {
        let Noted { object: _, notes } = self;
        notes.drops.fetch_add(1, Ordering::SeqCst);
    }
}

impl<C: Chare> Chare for Noted<C> {
    ghost state = { λ noted. C.state noted.object };

    fn kind(&self) -> u16 {
        self.object.kind()
    }

    fn version(&self) -> u16 {
        self.object.version()
    }

    fn newest(&self) -> u16 {
        self.object.newest()
    }

    fn retro(&mut self, version: u16) {
        self.object.retro(version)
    }

    fn upgrade(&mut self) {
        self.object.upgrade()
    }

    fn size(&mut self) -> usize {
        self.object.size()
    }

    fn pack(&mut self, into: &mut Vec<u8>) -> Result<(), AllocError> {
        self.object.pack(into)
    }

    fn unpack(&mut self, bytes: &[u8]) -> Result<(), PupFault> {
        self.object.unpack(bytes)
    }

    fn enter(
        &mut self,
        me: Elem,
        entry: u16,
        payload: &[u64],
        out: &mut Outbox,
    ) -> Result<(), AllocError> {
        self.notes.entries.fetch_add(1, Ordering::SeqCst);
        self.object.enter(me, entry, payload, out)
    }
}
