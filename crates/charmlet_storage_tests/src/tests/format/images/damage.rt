use super::stores::{CAUGHT_STORE, FLUSHED_STORE, IMAGE_STORE, NEW_STORE, WAITING_STORE};
use crate::tests::format::records::worked::changed;
use charmlet_image::{Beginning, HalfView, Header, Mark, read_half, read_top};
use std::alloc::AllocGlobal;
use std::process::Abort;

// The offset at which a half is damaged, if it is.
fn damage(rt: &(impl AllocGlobal + Abort), bytes: &[u8]) -> Option<u64> {
    match read_half(rt.alloc(), bytes).expect(rt, "memory") {
        HalfView::Damaged(offset) => Some(offset),
        _ => None,
    }
}

// A faulty half has its fault within its bytes, or at its end.
fn has_answer(rt: &(impl AllocGlobal + Abort), bytes: &[u8]) {
    if let Some(offset) = damage(rt, bytes) {
        assert!(rt; offset <= bytes.len() as u64, "{offset} of {bytes:?}");
    }
}

// A half with another byte at this place has an answer.
fn has_answer_changed(rt: &(impl AllocGlobal + Abort), bytes: &[u8], at: usize, byte: u8) {
    has_answer(rt, &changed(rt, bytes, at, byte));
}

// Each cut and each of four bytes at each place has an answer.
fn has_answers(rt: &(impl AllocGlobal + Abort), bytes: &[u8]) {
    for cut in 0..bytes.len() {
        has_answer(rt, &bytes[..cut]);
        has_answer_changed(rt, bytes, cut, 0x00);
        has_answer_changed(rt, bytes, cut, 0x01);
        has_answer_changed(rt, bytes, cut, 0x07);
        has_answer_changed(rt, bytes, cut, 0xff);
    }
}

// The offset at which a flushed store is damaged that is cut to this length.
fn fault_of_cut(cut: usize) -> Option<u64> {
    match cut {
        0 | 1 => None,
        2..=4 => Some(1),
        5..=12 => Some(5),
        13..=20 => Some(13),
        21..=50 => Some(21),
        51 => Some(51),
        52..=123 => Some(52),
        _ => Some(124),
    }
}

// Cut to 1 byte it is closed, and then each field in turn runs past the end.
#[test]
fn cuts_have_their_offsets(rt: HostRuntime) {
    for cut in 0..FLUSHED_STORE.len() {
        let found = damage(&rt, &FLUSHED_STORE[..cut]);
        assert_eq!(rt; found, fault_of_cut(cut), "cut to {cut}");
    }
}

// A store with another byte at this place is damaged there, or nowhere.
fn has_fault(
    rt: &(impl AllocGlobal + Abort),
    store: &[u8],
    at: usize,
    byte: u8,
    fault: Option<u64>,
) {
    let found = damage(rt, &changed(rt, store, at, byte));
    assert_eq!(rt; found, fault, "{byte} at {at}");
}

#[test]
fn single_changes_have_their_offsets(rt: HostRuntime) {
    let store = FLUSHED_STORE.as_slice();
    has_fault(&rt, store, 4, 52, Some(1));
    has_fault(&rt, store, 5, 0, Some(5));
    has_fault(&rt, store, 12, 1, Some(5));
    has_fault(&rt, store, 21, 25, Some(47));
    has_fault(&rt, store, 21, 27, Some(51));
    has_fault(&rt, store, 21, 101, Some(21));
    has_fault(&rt, store, 51, 7, None);
    has_fault(&rt, store, 52, 63, Some(120));
    has_fault(&rt, store, 52, 65, Some(124));
    has_fault(&rt, store, 56, 0, Some(56));
    has_fault(&rt, store, 56, 1, Some(97));
    has_fault(&rt, store, 60, 3, Some(60));
    has_fault(&rt, store, 119, 3, Some(119));
}

// A counter has the versions 1 and 2, and a ring, kind 2, has version 1 alone. A counter of version
// 1 has eight bytes, which begin at 96.
#[test]
fn versions_are_those_of_their_kinds(rt: HostRuntime) {
    let store = NEW_STORE.as_slice();
    has_fault(&rt, store, 31, 0, Some(31));
    has_fault(&rt, store, 31, 2, Some(33));
    has_fault(&rt, store, 33, 0, Some(33));
    has_fault(&rt, store, 33, 1, None);
    has_fault(&rt, store, 33, 3, Some(33));
    has_fault(&rt, store, 34, 1, Some(33));
    has_fault(&rt, &IMAGE_STORE, 33, 1, Some(96));
}

#[test]
fn images_have_their_faults(rt: HostRuntime) {
    let store = WAITING_STORE.as_slice();
    has_fault(&rt, store, 49, 4, Some(49));
    has_fault(&rt, store, 63, 2, Some(63));
    has_fault(&rt, store, 111, 0, Some(111));
    has_fault(&rt, store, 111, 2, Some(106));
    has_fault(&rt, store, 174, 9, Some(178));
    has_fault(&rt, store, 204, 0, Some(212));
    let store = CAUGHT_STORE.as_slice();
    has_fault(&rt, store, 62, 7, Some(62));
    has_fault(&rt, store, 136, 0, Some(134));
    has_fault(&rt, store, 122, 7, Some(126));
    has_fault(&rt, store, 222, 3, Some(222));
}

// A window has 1 to 8 items, and no more than there were requests.
#[test]
fn window_counts_are_limited(rt: HostRuntime) {
    has_fault(&rt, &IMAGE_STORE, 51, 0, Some(51));
    has_fault(&rt, &IMAGE_STORE, 51, 2, Some(51));
    has_fault(&rt, &IMAGE_STORE, 51, 9, Some(51));
}

#[test]
fn new_stores_and_logs_have_answers(rt: HostRuntime) {
    has_answers(&rt, &NEW_STORE);
    has_answers(&rt, &FLUSHED_STORE);
    has_answers(&rt, &IMAGE_STORE);
}

#[test]
fn images_have_answers(rt: HostRuntime) {
    has_answers(&rt, &CAUGHT_STORE);
    has_answers(&rt, &WAITING_STORE);
}

// If no file could hold this many pending messages, elements or deliveries, the fault is at the end
// of the bytes, and no memory is taken for them.
#[test]
fn counts_past_the_file_take_no_memory(rt: HostRuntime) {
    has_fault(&rt, &NEW_STORE, 42, 0xff, Some(48));
    has_fault(&rt, &NEW_STORE, 46, 0xff, Some(49));
    has_fault(&rt, &NEW_STORE, 50, 0xff, Some(51));
}

#[test]
fn tops_are_read(rt: HostRuntime) {
    let header = Header {
        mark: Mark::Third,
        generation: 1,
        events: 0,
        size: 26,
    };
    assert_eq!(rt; read_top(&FLUSHED_STORE[..25]), Beginning::Open(header));
    assert_eq!(rt; read_top(&FLUSHED_STORE[..1]), Beginning::Closed);
    assert_eq!(rt; read_top(&FLUSHED_STORE[..20]), Beginning::Damaged(13));
    assert_eq!(rt; read_top(&[0, 67]), Beginning::Closed);
}
