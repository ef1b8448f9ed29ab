// Images with a catch-up list, and the versions of counters, as they are written and as they go on.

use super::answers::{Files, assert_answer, assert_changes};
use super::stores::{CAUGHT_STORE, GROWN_STORE, IMAGE_STORE, KEPT_STORE, NEW_STORE, OLDER_STORE};
use charmlet_model::{Elem, Half, KindVersion};
use charmlet_reference::{PlainWorld, Recovered, recover, recover_as_written};
use std::alloc::{AllocError, AllocGlobal, Global};
use std::process::Abort;

// The world that is found.
fn found(rt: &impl Abort, answer: Result<Recovered, AllocError>) -> PlainWorld {
    match answer.expect(rt, "memory") {
        Recovered::Found { world, .. } => world,
        _ => panic!(rt; "no world"),
    }
}

// The world to which two files recover.
fn world_of(rt: &(impl AllocGlobal + Abort), zero: &[u8], one: &[u8]) -> PlainWorld {
    found(rt, recover(rt.alloc(), zero, one))
}

// The world to which two files recover, in the kind versions that are written.
fn world_as_written(rt: &(impl AllocGlobal + Abort), zero: &[u8], one: &[u8]) -> PlainWorld {
    found(rt, recover_as_written(rt.alloc(), zero, one))
}

// The record of the element of array 0 with this index.
fn record_text(alloc: Global, world: &PlainWorld, index: u64) -> Result<String, AllocError> {
    let record = world.record(Elem { array: 0, index });
    format!(in alloc; "{record:?}")
}

// The element has this record.
fn assert_kept(rt: &(impl AllocGlobal + Abort), world: &PlainWorld, index: u64, wanted: &str) {
    let text = record_text(rt.alloc(), world, index).expect(rt, "memory");
    assert_eq!(rt; text.as_str(), wanted);
}

// The array 0 is of this kind version.
fn assert_kind_version(rt: &impl Abort, world: &PlainWorld, wanted: KindVersion) {
    assert_eq!(rt; world.manifest().kind_version_of(0), Some(wanted));
}

const EIGHT: &str =
    "Some(Record { state: Some(Counter { count: 8, peak: 8 }), sent: 0, received: 2 })";

const SIX: &str =
    "Some(Record { state: Some(Counter { count: 6, peak: 6 }), sent: 0, received: 2 })";

// The first delivery is repeated, and the second one is skipped. Then the counters, which are of
// version 1, go on in version 2.
#[test]
fn counters_are_caught_up(rt: HostRuntime) {
    let world = world_of(&rt, &NEW_STORE, &CAUGHT_STORE);
    assert_kind_version(&rt, &world, KindVersion::Counter);
    assert_kept(&rt, &world, 0, EIGHT);
    assert_kept(&rt, &world, 1, SIX);
    assert!(rt; world.pending().is_empty());
}

const FIRST_EIGHT: &str =
    "Some(Record { state: Some(FirstCounter { count: 8 }), sent: 0, received: 2 })";

const FIRST_SIX: &str =
    "Some(Record { state: Some(FirstCounter { count: 6 }), sent: 0, received: 2 })";

// As they are written they are of version 1, after their deliveries too.
#[test]
fn counters_are_caught_up_as_written(rt: HostRuntime) {
    let world = world_as_written(&rt, &NEW_STORE, &CAUGHT_STORE);
    assert_kind_version(&rt, &world, KindVersion::FirstCounter);
    assert_kept(&rt, &world, 0, FIRST_EIGHT);
    assert_kept(&rt, &world, 1, FIRST_SIX);
}

const FIVE: &str =
    "Some(Record { state: Some(Counter { count: 5, peak: 5 }), sent: 0, received: 1 })";

const FIRST_FIVE: &str =
    "Some(Record { state: Some(FirstCounter { count: 5 }), sent: 0, received: 1 })";

// By the third mark a counter is of the version that is written, and goes on in version 2.
#[test]
fn counters_are_of_their_versions(rt: HostRuntime) {
    assert_kept(
        &rt,
        &world_as_written(&rt, &NEW_STORE, &IMAGE_STORE),
        0,
        FIVE,
    );
    assert_kept(
        &rt,
        &world_as_written(&rt, &NEW_STORE, &KEPT_STORE),
        0,
        FIRST_FIVE,
    );
    assert_kept(&rt, &world_of(&rt, &NEW_STORE, &IMAGE_STORE), 0, FIVE);
    assert_kept(&rt, &world_of(&rt, &NEW_STORE, &KEPT_STORE), 0, FIVE);
}

const ASKED_FIVE: &str =
    "Some(Record { state: Some(Counter { count: 5, peak: 5 }), sent: 0, received: 2 })";

// A log happens in the versions that are written: in version 1 the entry 2 is unknown.
#[test]
fn older_log_happens_in_its_version(rt: HostRuntime) {
    assert_answer(&rt, &OLDER_STORE, &[], "events 4 generation 1");
    assert_kept(&rt, &world_of(&rt, &OLDER_STORE, &[]), 0, ASKED_FIVE);
}

const TREE: &str = "Some(Record { state: Some(Tree { depth: 0 }), sent: 0, received: 3 })";

// The destruction is skipped, and the construction is repeated.
#[test]
fn tree_is_caught_up(rt: HostRuntime) {
    let world = world_of(&rt, &NEW_STORE, &GROWN_STORE);
    assert_kept(&rt, &world, 1, TREE);
}

// The deliveries begin at 177 and 223, with their counts at 214 and 260 and their effects at 222
// and 268.
const COUNTER_CHANGES: &str = "214 1 events 8 generation 2\n\
    214 3 damaged 1 177\n\
    222 1 damaged 1 177\n\
    222 2 damaged 1 177\n\
    222 3 damaged 1 222\n\
    192 9 damaged 1 177\n\
    260 0 events 8 generation 2\n\
    260 3 events 8 generation 2\n\
    260 4 damaged 1 223\n\
    268 2 events 8 generation 2\n\
    238 9 damaged 1 223\n";

#[test]
fn changes_of_counters(rt: HostRuntime) {
    let files = Files {
        zero: &NEW_STORE,
        one: &CAUGHT_STORE,
        altered: Half::One,
    };
    assert_changes(&rt, files, COUNTER_CHANGES);
}

// The deliveries begin at 93 and 131, with their counts at 122 and 168 and their effects at 130 and
// 176.
const TREE_CHANGES: &str = "122 1 events 6 generation 2\n\
    122 3 damaged 1 93\n\
    130 0 events 6 generation 2\n\
    168 2 events 6 generation 2\n\
    168 4 damaged 1 131\n\
    176 0 damaged 1 131\n\
    176 2 damaged 1 131\n\
    154 0 damaged 1 131\n";

#[test]
fn changes_of_a_tree(rt: HostRuntime) {
    let files = Files {
        zero: &NEW_STORE,
        one: &GROWN_STORE,
        altered: Half::One,
    };
    assert_changes(&rt, files, TREE_CHANGES);
}
