ghost use Rattle.std.specs.Prelude.{◌≤◌, length, vec_capacity, vec_len};
ghost use Rattle.std.proofs.Common.{lit<};
ghost use Rattle.charmlet_pup.specs.Fields.{byte_list, reads_byte_list, reads_words, words_bytes};
ghost use Rattle.charmlet_pup.specs.ReadsBack.{ReadsBack-byte_list, ReadsBack-words};
ghost use Rattle.charmlet_pup.specs.Visit.{RoomForBytes, RoomForWords};

use super::{are_bytes, are_words};
use charmlet_pup::{Er, Pup, PupFault, UnpackRound, pack, size_of, unpack};
use std::process::Abort;

// At most 64 numbers.
#[derive(Drop)]
struct Row {
    items: Vec<u64>,
    ghost within: { vec_len items ≤ 64 },
}

impl Pup for Row {
    ghost bytes = { λ r. words_bytes r.items.items };

    ghost reads = { reads_words 64 };

    ghost keeps_limits = { λ r. length r.items.items ≤ 64 };

    ghost has_room = { λ r. RoomForWords (vec_capacity r.items) };

    fn pup(&mut self, er: &mut Er<'_>) -> Result<(), PupFault> {
        er.words(&mut self.items, 64)
    }

    ghost reads_back = { λ r within. ReadsBack-words 64 r.items.items within (lit< tt) };
}

// At most 4 bytes.
#[derive(Drop)]
struct Name {
    letters: Vec<u8>,
    ghost short: { vec_len letters ≤ 4 },
}

impl Pup for Name {
    ghost bytes = { λ n. byte_list n.letters.items };

    ghost reads = { reads_byte_list 4 };

    ghost keeps_limits = { λ n. length n.letters.items ≤ 4 };

    ghost has_room = { λ n. RoomForBytes (vec_capacity n.letters) };

    fn pup(&mut self, er: &mut Er<'_>) -> Result<(), PupFault> {
        er.bytes(&mut self.letters, 4)
    }

    ghost reads_back = { λ n within. ReadsBack-byte_list 4 n.letters.items within (lit< tt) };
}

// The mark is set.
fn is_set(rt: &impl Abort, mark: bool) {
    assert!(rt; mark);
}

// The value packs to `size` bytes.
fn has_size<P: Pup>(rt: &impl Abort, value: &mut P, size: usize) {
    assert_eq!(rt; size_of(value), size);
}

// The value packs to these bytes.
fn packs_to<P: Pup>(rt: &(impl AllocGlobal + Abort), value: &mut P, packed: &[u8]) {
    let mut bytes = Vec::new(rt.alloc());
    packs_into(rt, value, &mut bytes);
    are_bytes(rt, &bytes, packed);
}

// The value is packed behind the bytes.
fn packs_into<P: Pup>(rt: &impl Abort, value: &mut P, bytes: &mut Vec<u8>) {
    assert!(rt; pack(value, bytes).is_ok());
}

// The value takes what these bytes say.
fn takes<P: Pup>(rt: &impl Abort, value: &mut P, bytes: &[u8]) {
    assert!(rt; unpack(value, bytes).is_ok());
}

// The bytes have this fault.
fn has_fault<P: Pup>(rt: &impl Abort, value: &mut P, bytes: &[u8], fault: PupFault) {
    let found = unpack(value, bytes).err().expect(rt, "a fault");
    assert_eq!(rt; found, fault);
}

#[test]
fn counter_packs_to_its_number(rt: HostRuntime) {
    packs_to(&rt, &mut 5u64, &[5, 0, 0, 0, 0, 0, 0, 0]);
}

#[test]
fn list_is_its_length_and_items(rt: HostRuntime) {
    let packed = [2u8, 0, 0, 0, 1, 0, 0, 0, 0, 0, 0, 0, 2, 0, 0, 0, 0, 0, 0, 0];
    let mut row = Row {
        items: Vec::new(rt.alloc()),
    };
    takes(&rt, &mut row, &packed);
    are_words(&rt, row.items.as_slice(), &[1, 2]);
    has_size(&rt, &mut row, 20);
    packs_to(&rt, &mut row, &packed);
}

#[test]
fn faults_leave_the_list(rt: HostRuntime) {
    let mut row = Row {
        items: Vec::new(rt.alloc()),
    };
    takes(&rt, &mut row, &[1, 0, 0, 0, 7, 0, 0, 0, 0, 0, 0, 0]);
    let trailing = [
        2u8, 0, 0, 0, 1, 0, 0, 0, 0, 0, 0, 0, 2, 0, 0, 0, 0, 0, 0, 0, 0,
    ];
    let too_many = [65u8, 0, 0, 0];
    for (bytes, fault) in [
        (trailing.as_slice(), PupFault::Trailing),
        (&trailing[..19], PupFault::Short),
        (&trailing[..3], PupFault::Short),
        (too_many.as_slice(), PupFault::TooMany),
    ] {
        has_fault(&rt, &mut row, bytes, fault);
        are_words(&rt, row.items.as_slice(), &[7]);
    }
}

#[test]
fn bytes_are_their_length_and_themselves(rt: HostRuntime) {
    let mut name = Name {
        letters: Vec::new(rt.alloc()),
    };
    for packed in [
        [4u8, 0, 0, 0, 0x64, 0x6f, 0x6f, 0x72].as_slice(),
        &[0, 0, 0, 0],
        &[2, 0, 0, 0, 0, 0xff],
    ] {
        takes(&rt, &mut name, packed);
        are_bytes(&rt, name.letters.as_slice(), &packed[4..]);
        has_size(&rt, &mut name, packed.len());
        packs_to(&rt, &mut name, packed);
    }
}

#[test]
fn faults_leave_the_bytes(rt: HostRuntime) {
    let mut name = Name {
        letters: Vec::new(rt.alloc()),
    };
    takes(&rt, &mut name, &[2, 0, 0, 0, 7, 9]);
    let trailing = [4u8, 0, 0, 0, 1, 2, 3, 4, 5];
    for (bytes, fault) in [
        ([].as_slice(), PupFault::Short),
        (&trailing[..3], PupFault::Short),
        (&trailing[..4], PupFault::Short),
        (&trailing[..7], PupFault::Short),
        (&trailing, PupFault::Trailing),
        (&[5, 0, 0, 0], PupFault::TooMany),
        (&[5, 0, 0, 0, 1, 2, 3, 4, 5], PupFault::TooMany),
        (&[0, 0, 0, 1], PupFault::TooMany),
    ] {
        has_fault(&rt, &mut name, bytes, fault);
        are_bytes(&rt, name.letters.as_slice(), &[7, 9]);
    }
}

#[test]
fn truth_values_are_0_or_1(rt: HostRuntime) {
    let mut flag = true;
    for (bytes, fault) in [
        ([].as_slice(), PupFault::Short),
        (&[2], PupFault::BadFlag),
        (&[0, 0], PupFault::Trailing),
    ] {
        has_fault(&rt, &mut flag, bytes, fault);
        is_set(&rt, flag);
    }
    takes(&rt, &mut flag, &[0]);
    is_set(&rt, !flag);
    has_size(&rt, &mut flag, 1);
    let mut bytes = Vec::new(rt.alloc());
    packs_into(&rt, &mut flag, &mut bytes);
    packs_into(&rt, &mut true, &mut bytes);
    are_bytes(&rt, &bytes, &[0, 1]);
}

// The mode is sizing, packing or unpacking, as these say.
fn is_mode(rt: &impl Abort, er: &Er<'_>, modes: (bool, bool, bool)) {
    assert!(rt; er.is_sizing() == modes.0);
    assert!(rt; er.is_packing() == modes.1);
    assert!(rt; er.is_unpacking() == modes.2);
}

#[test]
fn modes_are_told_apart(rt: HostRuntime) {
    is_mode(&rt, &Er::Sizing(0), (true, false, false));
    let packing = Er::Packing(Vec::new(rt.alloc()));
    is_mode(&rt, &packing, (false, true, false));
    is_mode(
        &rt,
        &Er::Unpacking(&[], UnpackRound::Test),
        (false, false, true),
    );
}

// A visit had this fault.
fn is_fault(rt: &impl Abort, visited: Result<(), PupFault>, fault: PupFault) {
    let found = visited.err().expect(rt, "a fault");
    assert_eq!(rt; found, fault);
}

// A list of one item, 7.
const ONE: [u8; 12] = [1, 0, 0, 0, 7, 0, 0, 0, 0, 0, 0, 0];

// These bytes have this fault for an empty list without room, which they leave so.
fn has_list_fault(rt: &(impl AllocGlobal + Abort), bytes: &[u8], limit: u32, fault: PupFault) {
    let mut words = Vec::new(rt.alloc());
    let mut er = Er::Unpacking(bytes, UnpackRound::Write);
    is_fault(rt, er.words(&mut words, limit), fault);
    are_words(rt, &words, &[]);
    let mut letters = Vec::new(rt.alloc());
    let mut er = Er::Unpacking(bytes, UnpackRound::Write);
    is_fault(rt, er.bytes(&mut letters, limit), fault);
    are_bytes(rt, &letters, &[]);
}

#[test]
fn faults_leave_what_is_written(rt: HostRuntime) {
    let mut number = 5u64;
    let mut er = Er::Unpacking(&ONE[..7], UnpackRound::Write);
    is_fault(&rt, er.u64(&mut number), PupFault::Short);
    are_words(&rt, &[number], &[5]);
    let mut flag = true;
    let mut er = Er::Unpacking(&ONE[4..], UnpackRound::Write);
    is_fault(&rt, er.flag(&mut flag), PupFault::BadFlag);
    is_set(&rt, flag);
    has_list_fault(&rt, &ONE[..3], 1, PupFault::Short);
    has_list_fault(&rt, &ONE, 0, PupFault::TooMany);
    has_list_fault(&rt, &ONE, 1, PupFault::Memory);
}

// The fault is told in these words.
fn is_told(rt: &(impl AllocGlobal + Abort), fault: PupFault, text: &str) {
    let said = format!(in rt.alloc(); "{fault}").expect(rt, "memory");
    assert_eq!(rt; said.as_str(), text);
}

#[test]
fn faults_are_told_in_words(rt: HostRuntime) {
    for (fault, text) in [
        (PupFault::Short, "a field runs past the end"),
        (PupFault::BadFlag, "a truth value is neither 0 nor 1"),
        (PupFault::TooMany, "a list is longer than its limit"),
        (PupFault::Trailing, "bytes are left over"),
        (PupFault::Memory, "out of memory"),
    ] {
        is_told(&rt, fault, text);
    }
}
