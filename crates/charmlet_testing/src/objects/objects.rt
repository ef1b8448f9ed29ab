//! Objects of all kinds, which count their calls.

use charmlet_chare::{Chare, Outbox};
use charmlet_kinds::{Account, Counter, Ring, Sum, Tape, Tree};
use charmlet_model::{Elem, Kind};
use charmlet_pup::PupFault;
use std::alloc::{AllocError, Global};
use std::sync::Arc;
use std::sync::atomic::{AtomicU64, Ordering};

/// An object of any kind.
#[derive(Drop)]
pub enum AnyObject {
    Counter(Counter),
    Ring(Ring),
    Account(Account),
    Sum(Sum),
    Tree(Tree),
    Tape(Tape),
}

/// The calls of any object.
macro_rules! by_kind {
    ($any:expr, $object:ident => $done:expr) => {
        match $any {
            AnyObject::Counter($object) => $done,
            AnyObject::Ring($object) => $done,
            AnyObject::Account($object) => $done,
            AnyObject::Sum($object) => $done,
            AnyObject::Tree($object) => $done,
            AnyObject::Tape($object) => $done,
        }
    };
}

impl Chare for AnyObject {
    ghost use Rattle.charmlet_testing.specs.Objects.Objects.{state_of};

    ghost state = { state_of };

    fn kind(&self) -> u16 {
        by_kind!(self, object => object.kind())
    }

    fn version(&self) -> u16 {
        by_kind!(self, object => object.version())
    }

    fn newest(&self) -> u16 {
        by_kind!(self, object => object.newest())
    }

    fn retro(&mut self, version: u16) {
        by_kind!(self, object => object.retro(version))
    }

    fn upgrade(&mut self) {
        by_kind!(self, object => object.upgrade())
    }

    fn size(&mut self) -> usize {
        by_kind!(self, object => object.size())
    }

    fn pack(&mut self, into: &mut Vec<u8>) -> Result<(), AllocError> {
        by_kind!(self, object => object.pack(into))
    }

    fn unpack(&mut self, bytes: &[u8]) -> Result<(), PupFault> {
        by_kind!(self, object => object.unpack(bytes))
    }

    fn enter(
        &mut self,
        me: Elem,
        entry: u16,
        payload: &[u64],
        out: &mut Outbox,
    ) -> Result<(), AllocError> {
        by_kind!(self, object => object.enter(me, entry, payload, out))
    }
}

/// Counts of the calls of all objects.
#[derive(Drop)]
pub struct Tally {
    entries: AtomicU64,
    packs: AtomicU64,
    unpacks: AtomicU64,
    drops: AtomicU64,
    retros: AtomicU64,
    upgrades: AtomicU64,
}

impl Tally {
    /// A tally of no calls.
    pub fn new() -> Tally {
        Tally {
            entries: AtomicU64::new(0),
            packs: AtomicU64::new(0),
            unpacks: AtomicU64::new(0),
            drops: AtomicU64::new(0),
            retros: AtomicU64::new(0),
            upgrades: AtomicU64::new(0),
        }
    }

    /// How often objects were entered, packed, unpacked and dropped.
    pub fn counts(&self) -> [u64; 4] {
        [
            self.entries.load(Ordering::SeqCst),
            self.packs.load(Ordering::SeqCst),
            self.unpacks.load(Ordering::SeqCst),
            self.drops.load(Ordering::SeqCst),
        ]
    }

    /// How often objects were made blanks of a version, and brought forward to the newest one.
    pub fn versions(&self) -> [u64; 2] {
        [
            self.retros.load(Ordering::SeqCst),
            self.upgrades.load(Ordering::SeqCst),
        ]
    }
}

/// An object that counts its calls.
pub struct Object {
    object: AnyObject,
    tally: Arc<Tally>,
}

impl Drop for Object {
    fn drop(self) {
        let Object { object: _, tally } = self;
        tally.drops.fetch_add(1, Ordering::SeqCst);
    }
}

impl Chare for Object {
    ghost use Rattle.charmlet_testing.specs.Objects.Objects.{state_of};

    ghost state = { λ watched. state_of watched.object };

    fn kind(&self) -> u16 {
        self.object.kind()
    }

    fn version(&self) -> u16 {
        self.object.version()
    }

    fn newest(&self) -> u16 {
        self.object.newest()
    }

    fn retro(&mut self, version: u16) {
        self.tally.retros.fetch_add(1, Ordering::SeqCst);
        self.object.retro(version)
    }

    fn upgrade(&mut self) {
        self.tally.upgrades.fetch_add(1, Ordering::SeqCst);
        self.object.upgrade()
    }

    fn size(&mut self) -> usize {
        self.object.size()
    }

    fn pack(&mut self, into: &mut Vec<u8>) -> Result<(), AllocError> {
        self.tally.packs.fetch_add(1, Ordering::SeqCst);
        self.object.pack(into)
    }

    fn unpack(&mut self, bytes: &[u8]) -> Result<(), PupFault> {
        self.tally.unpacks.fetch_add(1, Ordering::SeqCst);
        self.object.unpack(bytes)
    }

    fn enter(
        &mut self,
        me: Elem,
        entry: u16,
        payload: &[u64],
        out: &mut Outbox,
    ) -> Result<(), AllocError> {
        self.tally.entries.fetch_add(1, Ordering::SeqCst);
        self.object.enter(me, entry, payload, out)
    }
}

/// Makes this many blanks of each of these kinds. It fails only when out of memory.
pub fn blanks(
    alloc: Global,
    tally: &Arc<Tally>,
    wanted: &[(Kind, u64)],
) -> Result<Vec<Object>, AllocError> {
    let mut blanks = Vec::new(alloc);
    for (kind, count) in wanted {
        for _ in 0..*count {
            let object = match kind {
                Kind::Counter => AnyObject::Counter(Counter::blank()),
                Kind::Ring => AnyObject::Ring(Ring::blank()),
                Kind::Account => AnyObject::Account(Account::blank()),
                Kind::Sum => AnyObject::Sum(Sum::blank()),
                Kind::Tree => AnyObject::Tree(Tree::blank()),
                Kind::Tape => AnyObject::Tape(Tape::blank(alloc)),
            };
            let tally = tally.clone()?;
            blanks.push(Object { object, tally })?;
        }
    }
    Ok(blanks)
}
