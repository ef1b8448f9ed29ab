// Files that are cut, or have one byte changed.

use super::answers::{Files, assert_changes, assert_cuts, changed};
use super::stores::{CAUGHT_STORE, FLUSHED_STORE, NEW_STORE, WAITING_STORE};
use charmlet_model::Half;
use charmlet_reference::{Recovered, recover};
use std::alloc::{AllocError, AllocGlobal, Global};
use std::process::Abort;

const FIRST_CUTS: &str = "0 nothing\n\
    2 damaged 0 1\n\
    5 damaged 0 5\n\
    13 damaged 0 13\n\
    21 damaged 0 21\n\
    51 damaged 0 51\n\
    52 damaged 0 52\n\
    124 damaged 0 124\n\
    125 events 2 generation 1\n";

// Cut short, the first half is faulty.
#[test]
fn cuts_of_the_first_half(rt: HostRuntime) {
    let files = Files {
        zero: &FLUSHED_STORE,
        one: &[],
        altered: Half::Zero,
    };
    assert_cuts(&rt, files, FIRST_CUTS);
}

const SECOND_CUTS: &str = "0 events 0 generation 1\n\
    2 damaged 1 1\n\
    5 damaged 1 5\n\
    13 damaged 1 13\n\
    21 damaged 1 21\n\
    269 damaged 1 269\n\
    270 events 8 generation 2\n";

// The first half is the older one, and is taken if the second one is closed.
#[test]
fn cuts_of_the_second_half(rt: HostRuntime) {
    let files = Files {
        zero: &NEW_STORE,
        one: &CAUGHT_STORE,
        altered: Half::One,
    };
    assert_cuts(&rt, files, SECOND_CUTS);
}

const LOG_CHANGES: &str = "0 0 nothing\n\
    4 52 damaged 0 1\n\
    5 0 damaged 0 5\n\
    12 1 damaged 0 5\n\
    13 1 events 3 generation 1\n\
    21 25 damaged 0 47\n\
    21 27 damaged 0 51\n\
    21 100 damaged 0 51\n\
    21 101 damaged 0 21\n\
    33 1 events 2 generation 1\n\
    33 3 damaged 0 33\n\
    51 7 events 0 generation 1\n\
    52 63 damaged 0 120\n\
    52 65 damaged 0 124\n\
    52 66 damaged 0 52\n\
    56 0 damaged 0 56\n\
    56 1 damaged 0 97\n\
    56 3 damaged 0 124\n\
    60 3 damaged 0 60\n\
    65 2 damaged 0 60\n\
    61 8 damaged 0 97\n\
    83 0 damaged 0 97\n\
    89 6 events 2 generation 1\n\
    119 0 damaged 0 97\n\
    119 3 damaged 0 119\n";

#[test]
fn changes_of_a_log(rt: HostRuntime) {
    let files = Files {
        zero: &FLUSHED_STORE,
        one: &[],
        altered: Half::Zero,
    };
    assert_changes(&rt, files, LOG_CHANGES);
}

// The messages begin at 69 and 106. The first request has its reply, and there is no fourth one.
const PENDING_CHANGES: &str = "0 1 events 8 generation 2\n\
    74 1 damaged 0 69\n\
    74 4 damaged 0 69\n\
    74 0 damaged 0 74\n\
    70 8 damaged 0 69\n\
    111 1 damaged 0 106\n\
    111 4 damaged 0 106\n\
    111 2 damaged 0 106\n\
    107 8 damaged 0 106\n";

#[test]
fn changes_of_pending_messages(rt: HostRuntime) {
    let files = Files {
        zero: &WAITING_STORE,
        one: &[],
        altered: Half::Zero,
    };
    assert_changes(&rt, files, PENDING_CHANGES);
}

// Whether a faulty half has its fault within its bytes, or at its end.
fn has_answer(alloc: Global, bytes: &[u8]) -> Result<bool, AllocError> {
    match recover(alloc, bytes, &[])? {
        Recovered::Damaged { half, offset } => {
            Ok(half == Half::Zero && offset <= bytes.len() as u64)
        }
        _ => Ok(true),
    }
}

// Whether the half has an answer with another byte at this place.
fn change_has_answer(alloc: Global, bytes: &[u8], at: usize, byte: u8) -> Result<bool, AllocError> {
    let copy = changed(alloc, bytes, at, byte)?;
    has_answer(alloc, copy.as_slice())
}

// Each of four bytes at each place has an answer.
fn assert_all_changes(rt: &(impl AllocGlobal + Abort), bytes: &[u8]) {
    for at in 0..bytes.len() {
        for byte in [0x00u8, 0x01, 0x07, 0xff] {
            let is_well = change_has_answer(rt.alloc(), bytes, at, byte);
            assert!(rt; is_well.expect(rt, "memory"));
        }
    }
}

#[test]
fn each_change_has_an_answer(rt: HostRuntime) {
    assert_all_changes(&rt, &FLUSHED_STORE);
    assert_all_changes(&rt, &WAITING_STORE);
    assert_all_changes(&rt, &CAUGHT_STORE);
}
