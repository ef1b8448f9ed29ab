//! Copies that are refused while a delivery is under way, which no run does.

ghost use Rattle.std.specs.Prelude.{◌≡◌, ◌∷◌, []};
ghost use Rattle.charmlet_kinds.specs.Ring.{state_of};
ghost use Rattle.charmlet_model.specs.Packed.{IsState};
ghost use Rattle.charmlet_model.specs.Reaction.{kind_version_of};

use super::shelf::{ME, OTHER, RING, lacks, message, releases, resident, shelf_with};
use charmlet_chare::Chare;
use charmlet_kinds::Ring;
use charmlet_migrate::place_copy;
use charmlet_model::{Elem, Refusal};
use charmlet_shelf::Shelf;
use std::process::Abort;

// An object of this packed form.
fn unpacked<C: Chare>(rt: &impl Abort, mut blank: C, packed: &[u8]) -> C
    ensures state { IsState (C.state result) }
    ensures kind_version { kind_version_of (C.state result) ≡ kind_version_of (C.state blank) }
{
    assert!(rt; blank.unpack(packed).is_ok());
    blank
}

// A shelf with an element, to which a message is assigned.
fn busy_shelf_with(rt: &(impl AllocGlobal + Abort), ring: Ring) -> Shelf<Ring>
    ensures { result.records ≡ (ME, record { state = Some (state_of ring); sent = 4; received = 5 })
        ∷ [] }
{
    let mut shelf = shelf_with(rt, ME, resident(ring, 4, 5));
    assert!(rt; shelf.assign(message(rt, ME, 0, &[])).is_ok());
    shelf
}

// A shelf with another element.
fn other_shelf_with(rt: &(impl AllocGlobal + Abort), ring: Ring) -> Shelf<Ring>
    ensures { result.records ≡ (
      OTHER,
      record {
        state = Some (state_of ring);
        sent = 4;
        received = 5;
      },
    ) ∷ [] }
{
    shelf_with(rt, OTHER, resident(ring, 4, 5))
}

// The element is on the shelf. Afterwards it isn't there any more.
fn lifts<C: Chare>(rt: &impl Abort, shelf: &mut Shelf<C>, elem: Elem) {
    assert!(rt; shelf.lift(elem).is_ok());
}

// The copy has this refusal, since a delivery is under way.
fn is_uncommitted(rt: &impl Abort, copied: Result<(), (Refusal, Ring)>) {
    let (refusal, _) = copied.err().expect(rt, "it is refused");
    assert_eq!(rt; refusal, Refusal::Uncommitted);
}

#[test]
fn nothing_is_copied_during_a_delivery(rt: HostRuntime) {
    let ring = unpacked(&rt, Ring::blank(), &RING);
    let mut source = busy_shelf_with(&rt, ring);
    let mut destination = Shelf::new(rt.alloc(), 0);
    let copied = place_copy(&mut source, &mut destination, ME, Ring::blank());
    is_uncommitted(&rt, copied);
    releases(&rt, &mut source);
    lifts(&rt, &mut source, ME);
    lacks(&rt, &mut destination, ME);
}

#[test]
fn nothing_is_copied_to_a_shelf_during_its_delivery(rt: HostRuntime) {
    let assigned = unpacked(&rt, Ring::blank(), &RING);
    let mut busy = busy_shelf_with(&rt, assigned);
    let ring = unpacked(&rt, Ring::blank(), &RING);
    let mut source = other_shelf_with(&rt, ring);
    let copied = place_copy(&mut source, &mut busy, OTHER, Ring::blank());
    is_uncommitted(&rt, copied);
    releases(&rt, &mut busy);
    lacks(&rt, &mut busy, OTHER);
    lifts(&rt, &mut source, OTHER);
}
