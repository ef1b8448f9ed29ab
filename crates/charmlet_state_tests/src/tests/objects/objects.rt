//! Behaviour of each kind's objects that no run shows: bytes that aren't their own, the
//! construction of a used object, and versions.

ghost use Rattle.std.specs.Prelude.{◌≤◌, length};

use super::shelf::{self, ME, takes_form};
use charmlet_chare::{Chare, Outbox};
use charmlet_kinds::{Account, Counter, Ring, Sum, Tape, Tree};
use charmlet_model::CONSTRUCT;
use charmlet_pup::PupFault;
use std::process::Abort;

// The items 1 and 2 of a tape, and one byte more.
const ITEMS: [u8; 21] = [
    2, 0, 0, 0, 1, 0, 0, 0, 0, 0, 0, 0, 2, 0, 0, 0, 0, 0, 0, 0, 0,
];

// A counter of version 1, the one before the newest.
fn first_counter(rt: &impl Abort) -> Counter {
    let mut counter = Counter::blank();
    assert!(rt; counter.newest() == 2);
    counter.retro(1);
    counter
}

// The object has this size.
fn has_size<C: Chare>(rt: &impl Abort, object: &mut C, size: usize) {
    assert_eq!(rt; object.size(), size);
}

// The object packs to these bytes, and its size is their number.
fn packs_to<C: Chare>(rt: &(impl AllocGlobal + Abort), object: &mut C, bytes: &[u8]) {
    has_size(rt, object, bytes.len());
    shelf::packs_to(rt, object, bytes);
}

// The bytes have this fault.
fn has_fault<C: Chare>(rt: &impl Abort, object: &mut C, bytes: &[u8], fault: PupFault) {
    let found = object.unpack(bytes).err().expect(rt, "a fault");
    assert_eq!(rt; found, fault);
}

// The bytes have this fault, which leaves the object with its packed form.
fn refuses<C: Chare>(
    rt: &(impl AllocGlobal + Abort),
    object: &mut C,
    bytes: &[u8],
    fault: PupFault,
    packed: &[u8],
) {
    has_fault(rt, object, bytes, fault);
    packs_to(rt, object, packed);
}

// The bytes are those of an object of this kind and one more. With their faults they leave the
// object, which has this packed form; without the last one they make it that other object.
fn unpacks<C: Chare>(rt: &(impl AllocGlobal + Abort), object: &mut C, bytes: &[u8], packed: &[u8])
    requires { 2 ≤ length bytes.now }
{
    refuses(rt, object, &[], PupFault::Short, packed);
    let short = &bytes[..bytes.len() - 2];
    refuses(rt, object, short, PupFault::Short, packed);
    refuses(rt, object, bytes, PupFault::Trailing, packed);
    let whole = &bytes[..bytes.len() - 1];
    takes_form(rt, object, whole);
    packs_to(rt, object, whole);
}

#[test]
fn faults_leave_each_object(rt: HostRuntime) {
    unpacks(&rt, &mut Counter::blank(), &[1; 17], &[0; 16]);
    unpacks(&rt, &mut first_counter(&rt), &[1; 9], &[0; 8]);
    unpacks(&rt, &mut Ring::blank(), &[1; 17], &[0; 16]);
    unpacks(&rt, &mut Account::blank(), &[1; 9], &[0; 8]);
    unpacks(&rt, &mut Sum::blank(), &[1; 33], &[0; 32]);
    unpacks(&rt, &mut Tree::blank(), &[1; 9], &[0; 8]);
    unpacks(&rt, &mut Tape::blank(rt.alloc()), &ITEMS, &[0; 4]);
}

#[test]
fn faults_leave_the_tape(rt: HostRuntime) {
    let mut tape = Tape::blank(rt.alloc());
    takes_form(&rt, &mut tape, &ITEMS[..20]);
    refuses(&rt, &mut tape, &ITEMS[..3], PupFault::Short, &ITEMS[..20]);
    let many = [65, 0, 0, 0];
    refuses(&rt, &mut tape, &many, PupFault::TooMany, &ITEMS[..20]);
}

// An object with these bytes is constructed with no words, and then has the bytes of a blank.
fn begins_anew<C: Chare>(
    rt: &(impl AllocGlobal + Abort),
    object: &mut C,
    bytes: &[u8],
    blank: &[u8],
) {
    takes_form(rt, object, bytes);
    let entered = object.enter(ME, CONSTRUCT, &[], &mut Outbox::new(rt.alloc()));
    entered.expect(rt, "memory");
    packs_to(rt, object, blank);
}

#[test]
fn used_objects_are_constructed_anew(rt: HostRuntime) {
    begins_anew(&rt, &mut Counter::blank(), &[1; 16], &[0; 16]);
    begins_anew(&rt, &mut first_counter(&rt), &[1; 8], &[0; 8]);
    begins_anew(&rt, &mut Ring::blank(), &[1; 16], &[0; 16]);
    begins_anew(&rt, &mut Account::blank(), &[1; 8], &[0; 8]);
    begins_anew(&rt, &mut Sum::blank(), &[1; 32], &[0; 32]);
    begins_anew(&rt, &mut Tree::blank(), &[1; 8], &[0; 8]);
    let mut tape = Tape::blank(rt.alloc());
    begins_anew(&rt, &mut tape, &ITEMS[..20], &[0; 4]);
}

// Whatever the object was, it is made a blank of this version, with the blank's packed form. Then
// it takes another one, and has the upgraded one once it is brought forward to the newest version.
fn goes_on<C: Chare>(
    rt: &(impl AllocGlobal + Abort),
    object: &mut C,
    version: u16,
    blank: &[u8],
    packed: &[u8],
    upgraded: &[u8],
) {
    assert!(rt; 1 <= version);
    assert!(rt; version <= object.newest());
    object.retro(version);
    assert_eq!(rt; object.version(), version);
    packs_to(rt, object, blank);
    takes_form(rt, object, packed);
    packs_to(rt, object, packed);
    object.upgrade();
    assert_eq!(rt; object.version(), object.newest());
    packs_to(rt, object, upgraded);
}

// A counter at 1 that was at 3.
const FALLEN: [u8; 16] = [1, 0, 0, 0, 0, 0, 0, 0, 3, 0, 0, 0, 0, 0, 0, 0];

// A counter of version 1 is brought forward with its count as its peak, and all others are
// unchanged.
#[test]
fn objects_go_on_in_the_newest_version(rt: HostRuntime) {
    let mut counter = Counter::blank();
    goes_on(&rt, &mut counter, 2, &[0; 16], &FALLEN, &FALLEN);
    goes_on(&rt, &mut counter, 1, &[0; 8], &[1; 8], &[1; 16]);
    goes_on(&rt, &mut Ring::blank(), 1, &[0; 16], &[1; 16], &[1; 16]);
    goes_on(&rt, &mut Account::blank(), 1, &[0; 8], &[1; 8], &[1; 8]);
    goes_on(&rt, &mut Sum::blank(), 1, &[0; 32], &[1; 32], &[1; 32]);
    goes_on(&rt, &mut Tree::blank(), 1, &[0; 8], &[1; 8], &[1; 8]);
    let mut tape = Tape::blank(rt.alloc());
    let items = &ITEMS[..20];
    goes_on(&rt, &mut tape, 1, &[0; 4], items, items);
}
