ghost use Rattle.std.specs.Prelude.{◌≡◌, ◌∷◌, [], None, true, IfSome};
ghost use Rattle.std.specs.BTreeMap.{is_at};
ghost use Rattle.std.specs.Map.{lookup};
ghost use Rattle.charmlet_model.specs.Names.{elem_cmp};
ghost use Rattle.charmlet_model.specs.Shelves.{record_in};
ghost use Rattle.charmlet_shelf.specs.Shelf.{HasCounts, is_assigned, is_idle};
ghost use Rattle.charmlet_shelf.specs.declared.phase.Phase.TheVariants as phases;

use super::{are_bytes, are_words};
use charmlet_chare::{Chare, Output};
use charmlet_kinds::Ring;
use charmlet_model::{CONSTRUCT, Elem, Kind, Message, MsgId, Origin, Refusal, Resident, Words};
use charmlet_shelf::Shelf;
use std::process::Abort;

pub(super) const ME: Elem = Elem { array: 2, index: 7 };

pub(super) const OTHER: Elem = Elem { array: 2, index: 8 };

// A ring's element whose next one has index 9, and that has seen 2 tokens.
pub(super) const RING: [u8; 16] = [9, 0, 0, 0, 0, 0, 0, 0, 2, 0, 0, 0, 0, 0, 0, 0];

// The element after one more token.
const SEEN: [u8; 16] = [9, 0, 0, 0, 0, 0, 0, 0, 3, 0, 0, 0, 0, 0, 0, 0];

// The object takes this packed form at the first try.
pub(super) fn takes_form<C: Chare>(rt: &impl Abort, object: &mut C, packed: &[u8]) {
    assert!(rt; object.unpack(packed).is_ok());
}

// The element of a ring, which sent 4 messages and received 5.
pub(super) fn ring(rt: &impl Abort) -> Resident<Ring>
    ensures sent { result.sent ≡ 4 }
    ensures received { result.received ≡ 5 }
{
    let mut ring = Ring::blank();
    takes_form(rt, &mut ring, &RING);
    resident(ring, 4, 5)
}

// An element with these counts.
pub(super) fn resident<C>(object: C, sent: u64, received: u64) -> Resident<C>
    ensures { result ≡ record { object = object; sent = sent; received = received } }
{
    Resident {
        object,
        sent,
        received,
    }
}

// A message of client 1. When out of memory, it is made at the second try.
pub(super) fn message(
    rt: &(impl AllocGlobal + Abort),
    to: Elem,
    entry: u16,
    words: &[u64],
) -> Message
    ensures to { result.to ≡ to }
    ensures entry { result.entry ≡ entry }
{
    let origin = Origin::Client(1);
    let id = MsgId { origin, number: 1 };
    let words = match Words::from_slice(rt.alloc(), words) {
        Ok(words) => words,
        Err(_) => Words::from_slice(rt.alloc(), words).expect(rt, "words"),
    };
    Message {
        id,
        to,
        entry,
        words,
    }
}

// The shelf of processor 3, with one element. When out of memory, the shelf is unchanged, and the
// element is placed at the second try.
pub(super) fn shelf_with<C: Chare>(
    rt: &(impl AllocGlobal + Abort),
    elem: Elem,
    resident: Resident<C>,
) -> Shelf<C>
    ensures { result ≡ record {
      number = 3;
      records = (elem, record_in C.state resident) ∷ [];
      phase = phases.Idle;
    } }
{
    let mut shelf = Shelf::new(rt.alloc(), 3);
    if let Err((refusal, back)) = shelf.place(elem, resident) {
        assert!(rt; refusal == Refusal::Memory);
        lacks(rt, &mut shelf, elem);
        assert!(rt; shelf.place(elem, back).is_ok());
    }
    shelf
}

// The shelf of processor 3, with an element that is assigned a message. That takes no memory.
pub(super) fn assigned<C: Chare>(
    rt: &(impl AllocGlobal + Abort),
    resident: Resident<C>,
    entry: u16,
    words: &[u64],
) -> Shelf<C>
    requires { HasCounts (record_in C.state resident) }
    ensures phase { is_assigned result.phase ≡ true }
    ensures records { result.records ≡ (ME, record_in C.state resident) ∷ [] }
{
    let mut shelf = shelf_with(rt, ME, resident);
    assert!(rt; shelf.assign(message(rt, ME, entry, words)).is_ok());
    shelf
}

// The shelf of processor 3, where an element is to be constructed from a blank. When out of memory,
// the shelf is unchanged, and the message is assigned at the second try.
fn constructing<C: Chare>(
    rt: &(impl AllocGlobal + Abort),
    blank: Resident<C>,
    words: &[u64],
) -> Shelf<C>
    requires { HasCounts (record_in C.state blank) }
    ensures { is_assigned result.phase ≡ true }
{
    let mut shelf = Shelf::new(rt.alloc(), 3);
    let construction = message(rt, ME, CONSTRUCT, words);
    if let Err((refusal, back, blank)) = shelf.assign_new(construction, blank) {
        assert!(rt; refusal == Refusal::Memory);
        lacks(rt, &mut shelf, ME);
        assert!(rt; shelf.assign_new(back, blank).is_ok());
    }
    shelf
}

// Performs the assigned message. When out of memory, it stays assigned, and is performed at the
// second try.
fn performs<C: Chare>(rt: &impl Abort, shelf: &mut Shelf<C>)
    requires { is_assigned shelf.old.phase ≡ true }
    ensures { shelf.new.records ≡ shelf.old.records }
{
    if shelf.perform().is_err() {
        assert!(rt; !shelf.is_idle());
        assert!(rt; shelf.perform().is_ok());
    }
}

// The shelf of processor 3, with an element that has reacted to a message.
fn performed<C: Chare>(
    rt: &(impl AllocGlobal + Abort),
    resident: Resident<C>,
    entry: u16,
    words: &[u64],
) -> Shelf<C>
    requires { HasCounts (record_in C.state resident) }
    ensures { result.records ≡ (ME, record_in C.state resident) ∷ [] }
{
    let mut shelf = assigned(rt, resident, entry, words);
    performs(rt, &mut shelf);
    shelf
}

// Packs the object. When out of memory, it is packed at the second try.
fn packs_into<C: Chare>(rt: &impl Abort, object: &mut C, packed: &mut Vec<u8>) {
    if object.pack(packed).is_err() {
        assert!(rt; object.pack(packed).is_ok());
    }
}

// The object packs to these bytes.
pub(super) fn packs_to<C: Chare>(rt: &(impl AllocGlobal + Abort), object: &mut C, bytes: &[u8]) {
    let mut packed = Vec::new(rt.alloc());
    packs_into(rt, object, &mut packed);
    are_bytes(rt, &packed, bytes);
}

// The element isn't on the shelf, and no delivery is under way.
pub(super) fn lacks<C: Chare>(rt: &impl Abort, shelf: &mut Shelf<C>, elem: Elem)
    ensures { shelf.new ≡ shelf.old }
{
    assert!(rt; shelf.is_idle());
    assert!(rt; matches!(shelf.lift(elem), Err(Refusal::Absent)));
}

// The element is on the shelf with these counts and this packed form, and no delivery is under way.
// Afterwards it isn't there any more.
fn lifts<C: Chare>(
    rt: &(impl AllocGlobal + Abort),
    shelf: &mut Shelf<C>,
    elem: Elem,
    counts: (u64, u64),
    packed: &[u8],
) {
    let mut resident = shelf.lift(elem).expect(rt, "it is there");
    assert!(rt; (resident.sent, resident.received) == counts);
    packs_to(rt, &mut resident.object, packed);
    lacks(rt, shelf, elem);
}

// The element that is lifted is this one, with these counts and this packed form. Afterwards it
// isn't there any more.
fn lifts_any<C: Chare>(
    rt: &(impl AllocGlobal + Abort),
    shelf: &mut Shelf<C>,
    elem: Elem,
    counts: (u64, u64),
    packed: &[u8],
)
    requires { is_idle shelf.old.phase ≡ true }
    ensures { is_idle shelf.new.phase ≡ true }
{
    let (lifted, mut resident) = shelf.lift_any().expect(rt, "an element is there");
    assert!(rt; lifted == elem);
    assert!(rt; (resident.sent, resident.received) == counts);
    packs_to(rt, &mut resident.object, packed);
    lacks(rt, shelf, elem);
}

// A delivery is under way. Once it is settled, the element is on the shelf with these counts and
// this packed form.
fn settles<C: Chare>(
    rt: &(impl AllocGlobal + Abort),
    shelf: &mut Shelf<C>,
    counts: (u64, u64),
    packed: &[u8],
) {
    assert!(rt; !shelf.is_idle());
    assert!(rt; shelf.settle().is_none());
    lifts(rt, shelf, ME, counts, packed);
}

// The assigned message is released, and no object comes out.
pub(super) fn releases<C: Chare>(rt: &impl Abort, shelf: &mut Shelf<C>) {
    assert!(rt; shelf.release().is_none());
}

// The output has this many messages, and destroys the object or doesn't.
fn has_effects(rt: &impl Abort, output: &Output, sends: usize, is_destroyed: bool) {
    assert!(rt; output.sends.as_slice().len() == sends && output.is_destroyed == is_destroyed);
}

// No output can be taken.
fn has_no_output<C: Chare>(rt: &impl Abort, shelf: &mut Shelf<C>) {
    assert!(rt; shelf.take_output().is_none());
}

// The output can be taken once. It has this many messages and this reply, and destroys the object
// or doesn't.
fn gives<C: Chare>(
    rt: &impl Abort,
    shelf: &mut Shelf<C>,
    sends: usize,
    reply: &[u64],
    is_destroyed: bool,
) {
    let output = shelf.take_output().expect(rt, "an output");
    has_effects(rt, &output, sends, is_destroyed);
    are_words(rt, output.reply.as_slice(), reply);
    has_no_output(rt, shelf);
}

// An element of a ring of any form gets a token.
fn delivers<C: Chare>(rt: &(impl AllocGlobal + Abort), ring: C) {
    let mut shelf = performed(rt, resident(ring, 4, 5), 0, &[6]);
    gives(rt, &mut shelf, 1, &[3], false);
    settles(rt, &mut shelf, (5, 6), &SEEN);
}

#[test]
fn refused_memory_leaves_the_shelf(rt: HostRuntime) {
    delivers(&rt, ring(&rt).object);
}

#[test]
fn assignments_are_taken_back(rt: HostRuntime) {
    let mut shelf = assigned(&rt, ring(&rt), 0, &[6]);
    releases(&rt, &mut shelf);
    lifts(&rt, &mut shelf, ME, (4, 5), &RING);
}

#[test]
fn blanks_come_back(rt: HostRuntime) {
    let mut shelf = constructing(&rt, resident(Ring::blank(), 1, 2), &[9]);
    assert!(rt; shelf.count(Kind::Ring) == 1);
    let mut blank = shelf.release().expect(&rt, "a blank");
    assert!(rt; shelf.count(Kind::Ring) == 0);
    packs_to(&rt, &mut blank, &[0; 16]);
    lacks(&rt, &mut shelf, ME);
}

#[test]
fn objects_are_lifted_one_by_one(rt: HostRuntime) {
    let mut shelf = shelf_with(&rt, OTHER, ring(&rt));
    assert!(rt; shelf.place(ME, resident(Ring::blank(), 1, 2)).is_ok());
    lifts_any(&rt, &mut shelf, ME, (1, 2), &[0; 16]);
    lifts_any(&rt, &mut shelf, OTHER, (4, 5), &RING);
    assert!(rt; shelf.lift_any().is_none());
}

// The element isn't lifted, for this reason.
fn refuses_to_lift<C: Chare>(rt: &impl Abort, shelf: &mut Shelf<C>, elem: Elem, refusal: Refusal)
    ensures { shelf.new ≡ shelf.old }
{
    let reason = shelf.lift(elem).err().expect(rt, "a refusal");
    assert!(rt; reason == refusal);
}

// No image is made, for this reason.
fn refuses_images<C: Chare>(rt: &impl Abort, shelf: &mut Shelf<C>, refusal: Refusal)
    ensures { shelf.new ≡ shelf.old }
{
    let of_one = shelf.image(ME).err().expect(rt, "a refusal");
    assert!(rt; of_one == refusal);
    let room = shelf.image_room();
    let of_all = shelf.images(room).err().expect(rt, "a refusal");
    assert!(rt; of_all == refusal);
}

// No element is lifted or shown.
fn refuses_elements<C: Chare>(rt: &impl Abort, shelf: &mut Shelf<C>)
    ensures { shelf.new ≡ shelf.old }
{
    refuses_to_lift(rt, shelf, ME, Refusal::Uncommitted);
    refuses_to_lift(rt, shelf, OTHER, Refusal::Uncommitted);
    refuses_images(rt, shelf, Refusal::Uncommitted);
}

// No message is assigned, and it comes back.
fn refuses_message(rt: &impl Abort, shelf: &mut Shelf<Ring>, message: Message, refusal: Refusal)
    requires { IfSome (lookup (is_at (elem_cmp message.to)) shelf.old.records) HasCounts }
    ensures { shelf.new ≡ shelf.old }
{
    let (reason, back) = shelf.assign(message).err().expect(rt, "a refusal");
    assert!(rt; reason == refusal && matches!(back.words.as_slice(), [8]));
}

// No element is placed, and it comes back.
fn refuses_element(rt: &impl Abort, shelf: &mut Shelf<Ring>)
    requires { lookup (is_at (elem_cmp OTHER)) shelf.old.records ≡ None }
    ensures { shelf.new ≡ shelf.old }
{
    let placed = shelf.place(OTHER, resident(Ring::blank(), 1, 2));
    let (reason, back) = placed.err().expect(rt, "a refusal");
    assert!(rt; reason == Refusal::Uncommitted && (back.sent, back.received) == (1, 2));
}

// No element is constructed, and its message and blank come back.
fn refuses_construction(rt: &impl Abort, shelf: &mut Shelf<Ring>, construction: Message)
    requires absent { lookup (is_at (elem_cmp construction.to)) shelf.old.records ≡ None }
    requires constructs { construction.entry ≡ CONSTRUCT }
{
    let assigned = shelf.assign_new(construction, resident(Ring::blank(), 1, 2));
    let (reason, back, blank) = assigned.err().expect(rt, "a refusal");
    assert!(rt; reason == Refusal::Uncommitted && (blank.sent, blank.received) == (1, 2));
    assert!(rt; matches!(back.words.as_slice(), [9]));
}

// No message that is borrowed is delivered.
fn refuses_lent_message(rt: &impl Abort, shelf: &mut Shelf<Ring>, elem: Elem, refusal: Refusal)
    requires { IfSome (lookup (is_at (elem_cmp elem)) shelf.old.records) HasCounts }
    ensures { shelf.new ≡ shelf.old }
{
    let reason = shelf.deliver(elem, 1, &[8]).err().expect(rt, "a refusal");
    assert!(rt; reason == refusal);
}

// Whatever else the shelf is asked for is refused and comes back.
fn refuses_more(rt: &(impl AllocGlobal + Abort), shelf: &mut Shelf<Ring>)
    requires lacks { lookup (is_at (elem_cmp OTHER)) shelf.old.records ≡ None }
    requires counts { IfSome (lookup (is_at (elem_cmp ME)) shelf.old.records) HasCounts }
{
    refuses_elements(rt, shelf);
    refuses_message(rt, shelf, message(rt, ME, 1, &[8]), Refusal::Uncommitted);
    refuses_lent_message(rt, shelf, ME, Refusal::Uncommitted);
    refuses_element(rt, shelf);
    refuses_construction(rt, shelf, message(rt, OTHER, CONSTRUCT, &[9]));
}

#[test]
fn one_delivery_is_under_way_at_a_time(rt: HostRuntime) {
    let mut shelf = assigned(&rt, ring(&rt), 0, &[6]);
    refuses_more(&rt, &mut shelf);
    assert!(rt; shelf.outcome().is_none() && shelf.settle().is_none());
}

#[test]
fn a_delivery_is_under_way_until_it_is_settled(rt: HostRuntime) {
    let mut shelf = performed(&rt, ring(&rt), 0, &[6]);
    refuses_more(&rt, &mut shelf);
    assert!(rt; shelf.release().is_none());
    settles(&rt, &mut shelf, (5, 6), &SEEN);
}

#[test]
fn absent_elements_get_no_message(rt: HostRuntime) {
    let mut shelf = shelf_with(&rt, ME, ring(&rt));
    let construction = message(&rt, OTHER, CONSTRUCT, &[8]);
    refuses_message(&rt, &mut shelf, construction, Refusal::Absent);
    refuses_lent_message(&rt, &mut shelf, OTHER, Refusal::Absent);
    lifts(&rt, &mut shelf, ME, (4, 5), &RING);
}
