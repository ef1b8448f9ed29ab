// The index, each call once.

use charmlet_ready_queue::{Index, QueuePlace, Readiness};
use std::process::Abort;

const WAITING: Readiness = Readiness {
    on: 1,
    home: 1,
    is_there: false,
    has_room: true,
};

const READY: QueuePlace = QueuePlace {
    on: 0,
    home: 1,
    is_ready: true,
};

#[test]
fn places_are_by_readiness(rt: HostRuntime) {
    assert!(&rt; !WAITING.place(false).is_ready);
    assert!(&rt; WAITING.place(true).is_ready);
    let mut full = WAITING;
    full.has_room = false;
    assert!(&rt; !full.place(true).is_ready);
    let mut there = WAITING;
    there.is_there = true;
    assert!(&rt; there.place(false).is_ready);
    assert_eq!(&rt; there.place(false).on, 1);
    assert_eq!(&rt; there.place(false).home, 1);
}

// The first message that is ready is this one, on its processor.
fn has_next(rt: &impl Abort, index: &Index, wanted: Option<(usize, u64)>) {
    assert_eq!(rt; index.quiet(), wanted.is_none());
    assert_eq!(rt; index.next(), wanted);
}

// The message has this number.
fn is_number(rt: &impl Abort, found: u64, wanted: u64) {
    assert_eq!(rt; found, wanted);
}

#[test]
fn an_index_of_two_processors(rt: HostRuntime) {
    let mut index = Index::new(rt.alloc());
    has_next(&rt, &index, None);
    index.open(2).expect(&rt, "memory");
    has_next(&rt, &index, None);
    index.reserve(2).expect(&rt, "memory");
    is_number(&rt, index.push(WAITING.place(false)), 0);
    has_next(&rt, &index, None);
    is_number(&rt, index.push(READY), 1);
    has_next(&rt, &index, Some((0, 1)));
    index.reserve_on(1, 5).expect(&rt, "memory");
    has_next(&rt, &index, Some((0, 1)));
}
