use super::worked::{FIRST_FLUSH, arrays, changed};
use charmlet_record::{Fault, ReadError, Reader, read_log};
use std::alloc::AllocGlobal;
use std::process::Abort;

// A request, a delivery by an element that sends twice, and a closed gate, in two batches.
const TWO_BATCHES: [u8; 155] = [
    1, 37, 0, 0, 0, 1, 0, 0, 0, // an open gate, 37 bytes, 1 event
    1, 7, 0, 0, 0, 1, 0, 0, 0, 0, 0, 0, 0, // the request
    2, 0, 5, 0, 0, 0, 0, 0, 0, 0, 0, 0, // where to, and its entry
    1, 0, 0, 0, 4, 0, 0, 0, 0, 0, 0, 0, // its words
    1, 93, 0, 0, 0, 1, 0, 0, 0, // an open gate, 93 bytes, 1 event
    2, 1, 2, 0, 5, 0, 0, 0, 0, 0, 0, 0, 6, 0, 0, 0, 0, 0, 0, 0, // the delivery
    9, 0, 0, 0, 0, 0, 0, 0, 0, 2, 0, 0, 0, // its count, its effect and how many sends
    2, 0, 6, 0, 0, 0, 0, 0, 0, 0, 0, 0, // the first send, and its entry
    2, 0, 0, 0, 3, 0, 0, 0, 0, 0, 0, 0, 4, 0, 0, 0, 0, 0, 0, 0, // its words
    2, 0, 7, 0, 0, 0, 0, 0, 0, 0, 1, 0, // the second send, and its entry
    1, 0, 0, 0, 3, 0, 0, 0, 0, 0, 0, 0, // its words
    0, 0, 0, 0, // what is left over
    0, 0, 0, 0, 0, 0, 0, // a closed gate, and what follows it
];

// How many bytes are left at the first fault of a log, if there is one.
fn first_fault(rt: &(impl AllocGlobal + Abort), bytes: &[u8]) -> Option<usize> {
    let manifest = arrays(rt);
    let mut reader = Reader::new(bytes);
    match read_log(&mut reader, rt.alloc(), &manifest) {
        Ok(_) => None,
        Err(ReadError::Damaged(Fault { bytes_left: left })) => Some(left),
        Err(ReadError::Memory) => panic!(rt; "out of memory"),
    }
}

// The log is read with no fault, or with a fault among its bytes.
fn has_answer(rt: &(impl AllocGlobal + Abort), bytes: &[u8]) {
    if let Some(left) = first_fault(rt, bytes) {
        assert!(rt; left <= bytes.len(), "{left} of {bytes:?}");
    }
}

// The log with another byte at this place has an answer.
fn has_answer_changed(rt: &(impl AllocGlobal + Abort), bytes: &[u8], at: usize, byte: u8) {
    has_answer(rt, &changed(rt, bytes, at, byte));
}

// Each cut, and each of four bytes at each place, is read with no fault, or with a fault among the
// bytes.
fn has_answers(rt: &(impl AllocGlobal + Abort), bytes: &[u8]) {
    for cut in 0..bytes.len() {
        has_answer(rt, &bytes[..cut]);
        has_answer_changed(rt, bytes, cut, 0x00);
        has_answer_changed(rt, bytes, cut, 0x01);
        has_answer_changed(rt, bytes, cut, 0x07);
        has_answer_changed(rt, bytes, cut, 0xff);
    }
}

// The first flush with another byte at this place has this fault, or none.
fn has_fault(rt: &(impl AllocGlobal + Abort), at: usize, byte: u8, fault: Option<usize>) {
    let found = first_fault(rt, &changed(rt, &FIRST_FLUSH, at, byte));
    assert_eq!(rt; found, fault, "{byte} at {at}");
}

// In the file of the first flush the log begins at offset 51, and there are 125 bytes. So a change
// at offset 52 there is at 1 here, and a fault at offset 120 has 5 bytes left.
#[test]
fn single_changes_have_their_offsets(rt: HostRuntime) {
    has_fault(&rt, 0, 0x07, None);
    has_fault(&rt, 1, 0x3f, Some(5));
    has_fault(&rt, 1, 0x41, Some(1));
    has_fault(&rt, 1, 0x42, Some(73));
    has_fault(&rt, 5, 0x00, Some(69));
    has_fault(&rt, 5, 0x01, Some(28));
    has_fault(&rt, 5, 0x03, Some(1));
    has_fault(&rt, 9, 0x03, Some(65));
    has_fault(&rt, 38, 0x06, None);
    has_fault(&rt, 68, 0x03, Some(6));
}

// The first flush cut to `cut` bytes has a fault at its end, or right after its first gate.
fn has_fault_cut(rt: &(impl AllocGlobal + Abort), cut: usize) {
    let expected = match cut {
        0 | 73 => 0,
        _ => cut - 1,
    };
    let log = FIRST_FLUSH.get(..cut).expect(rt, "a cut");
    assert_eq!(rt; first_fault(rt, log), Some(expected), "cut to {cut}");
}

// Cut to 51 bytes of the file, the gate is missing; to 52 to 123, the batch; to 124, the next gate.
#[test]
fn cuts_have_their_offsets(rt: HostRuntime) {
    assert_eq!(rt; FIRST_FLUSH.len(), 74);
    for cut in 0..FIRST_FLUSH.len() {
        has_fault_cut(&rt, cut);
    }
}

#[test]
fn left_over_bytes_are_named(rt: HostRuntime) {
    assert_eq!(rt; first_fault(&rt, &TWO_BATCHES), Some(11));
    let of_whole = first_fault(&rt, &changed(&rt, &TWO_BATCHES, 47, 89));
    assert_eq!(rt; of_whole, None);
}

#[test]
fn any_bytes_have_an_answer(rt: HostRuntime) {
    has_answers(&rt, &FIRST_FLUSH);
    has_answers(&rt, &TWO_BATCHES);
    has_answers(&rt, &changed(&rt, &TWO_BATCHES, 47, 89));
}
