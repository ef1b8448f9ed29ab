// How often deliveries pack their receivers: never.
ghost use Rattle.std.specs.Prelude.{◌≡◌, true};
ghost use Rattle.charmlet_shelf.specs.Shelf.{is_assigned};

use super::shelf::{ME, assigned, releases, resident, ring};
use charmlet_chare::{Chare, Outbox};
use charmlet_model::{Elem, Resident};
use charmlet_pup::PupFault;
use charmlet_shelf::Shelf;
use std::alloc::AllocError;
use std::process::Abort;
use std::sync::Arc;
use std::sync::atomic::{AtomicU64, Ordering};

// An object that counts how often it is sized or packed.
#[derive(Drop)]
struct Packer<C: Chare> {
    object: C,
    packings: Arc<AtomicU64>,
}

impl<C: Chare> Chare for Packer<C> {
    ghost state = { λ packer. C.state packer.object };

    fn kind(&self) -> u16 {
        self.object.kind()
    }

    fn version(&self) -> u16 {
        self.object.version()
    }

    fn newest(&self) -> u16 {
        self.object.newest()
    }

    fn retro(&mut self, version: u16) {
        self.object.retro(version)
    }

    fn upgrade(&mut self) {
        self.object.upgrade()
    }

    fn size(&mut self) -> usize {
        self.packings.fetch_add(1, Ordering::SeqCst);
        self.object.size()
    }

    fn pack(&mut self, into: &mut Vec<u8>) -> Result<(), AllocError> {
        self.packings.fetch_add(1, Ordering::SeqCst);
        self.object.pack(into)
    }

    fn unpack(&mut self, bytes: &[u8]) -> Result<(), PupFault> {
        self.object.unpack(bytes)
    }

    fn enter(
        &mut self,
        me: Elem,
        entry: u16,
        payload: &[u64],
        out: &mut Outbox,
    ) -> Result<(), AllocError> {
        self.object.enter(me, entry, payload, out)
    }
}

// The element with such a counting object.
fn counted<C: Chare>(
    rt: &impl Abort,
    element: Resident<C>,
    packings: &Arc<AtomicU64>,
) -> Resident<Packer<C>>
    ensures sent { result.sent ≡ element.sent }
    ensures received { result.received ≡ element.received }
{
    let Resident {
        object,
        sent,
        received,
    } = element;
    let packings = packings.clone().expect(rt, "it is shared");
    resident(Packer { object, packings }, sent, received)
}

// A count, at 0.
fn no_packings(rt: &(impl AllocGlobal + Abort)) -> Arc<AtomicU64> {
    Arc::new(rt.alloc(), AtomicU64::new(0)).expect(rt, "a count")
}

// Objects were sized or packed `count` times.
fn has_packed(rt: &impl Abort, packings: &Arc<AtomicU64>, count: u64) {
    assert!(rt; packings.load(Ordering::SeqCst) == count);
}

// The assigned message is performed at the first try, and its output can be taken.
fn performs_at_once<C: Chare>(rt: &impl Abort, shelf: &mut Shelf<C>)
    requires { is_assigned shelf.old.phase ≡ true }
{
    assert!(rt; shelf.perform().is_ok());
    assert!(rt; shelf.take_output().is_some());
}

// The delivery is settled, and the object stays.
fn keeps_object<C: Chare>(rt: &impl Abort, shelf: &mut Shelf<C>) {
    assert!(rt; shelf.settle().is_none());
}

// The element has an image, if there is memory for it.
fn has_image<C: Chare>(rt: &impl Abort, shelf: &mut Shelf<C>) {
    assert!(rt; shelf.image(ME).is_ok());
}

#[test]
fn deliveries_pack_nothing(rt: HostRuntime) {
    let packings = no_packings(&rt);
    let mut shelf = assigned(&rt, counted(&rt, ring(&rt), &packings), 0, &[6]);
    performs_at_once(&rt, &mut shelf);
    keeps_object(&rt, &mut shelf);
    has_packed(&rt, &packings, 0);
    has_image(&rt, &mut shelf);
    has_packed(&rt, &packings, 1);
}

#[test]
fn released_messages_pack_nothing(rt: HostRuntime) {
    let packings = no_packings(&rt);
    let mut shelf = assigned(&rt, counted(&rt, ring(&rt), &packings), 0, &[6]);
    releases(&rt, &mut shelf);
    has_packed(&rt, &packings, 0);
}
