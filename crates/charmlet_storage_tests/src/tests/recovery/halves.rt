// Which half is taken, and to which world its log leads.

use super::answers::{Files, assert_answer, assert_changes, changed};
use super::stores::{CAUGHT_STORE, FLUSHED_STORE, IMAGE_STORE, NEW_STORE, WAITING_STORE};
use charmlet_model::Half;

#[test]
fn closed_halves_are_nothing(rt: HostRuntime) {
    assert_answer(&rt, &[], &[], "nothing");
    assert_answer(&rt, &[1], &[], "nothing");
    assert_answer(&rt, &[7, 1, 1], &[0, 1], "nothing");
    assert_answer(&rt, &[1], &NEW_STORE, "events 0 generation 1");
    assert_answer(&rt, &NEW_STORE, &[255], "events 0 generation 1");
}

#[test]
fn later_half_is_taken(rt: HostRuntime) {
    let second = "events 2 generation 2";
    assert_answer(&rt, &FLUSHED_STORE, &IMAGE_STORE, second);
    assert_answer(&rt, &IMAGE_STORE, &FLUSHED_STORE, second);
    assert_answer(&rt, &IMAGE_STORE, &[], second);
    assert_answer(&rt, &FLUSHED_STORE, &[], "events 2 generation 1");
    assert_answer(&rt, &NEW_STORE, &WAITING_STORE, "events 8 generation 2");
    assert_answer(&rt, &CAUGHT_STORE, &NEW_STORE, "events 8 generation 2");
}

#[test]
fn generations_are_consecutive(rt: HostRuntime) {
    let third = changed(rt.alloc(), &IMAGE_STORE, 5, 3).expect(&rt, "memory");
    assert_answer(&rt, &NEW_STORE, &NEW_STORE, "damaged 1 5");
    assert_answer(&rt, &NEW_STORE, &third, "damaged 1 5");
    assert_answer(&rt, &third, &NEW_STORE, "damaged 1 5");
    assert_answer(&rt, &IMAGE_STORE, &third, "events 2 generation 3");
}

const OLDER_CHANGES: &str = "4 52 damaged 0 1\n\
    5 0 damaged 0 5\n\
    20 1 damaged 0 13\n\
    21 101 events 2 generation 2\n\
    33 3 events 2 generation 2\n\
    56 0 events 2 generation 2\n\
    0 0 events 2 generation 2\n";

// Of the older half only the header is read, but a fault in it comes first.
#[test]
fn older_header_is_read(rt: HostRuntime) {
    let files = Files {
        zero: &FLUSHED_STORE,
        one: &IMAGE_STORE,
        altered: Half::Zero,
    };
    assert_changes(&rt, files, OLDER_CHANGES);
}
