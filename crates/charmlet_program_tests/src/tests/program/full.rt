//! A log that is full, and an image that makes room. A log of 2^31 bytes takes that much memory, so
//! there is no disk here: a store in memory says that its log ends near its limit.

use charmlet_history::{History, Request};
use charmlet_kinds::Counter;
use charmlet_model::{CONSTRUCT, Elem, Kind, MAX_HALF, Manifest, Refusal};
use charmlet_persist::image_of;
use charmlet_store::{Store, StoreParts, empty_shelves};
use std::alloc::{AllocGlobal, Global};
use std::process::Abort;

// A new store whose log has room for 100 bytes.
fn store_near_its_limit(alloc: Global) -> Option<Store<Counter>> {
    let Ok(Some(manifest)) = Manifest::of(alloc, &[(0, Kind::Counter.number())]) else {
        return None;
    };
    let shelves = empty_shelves(alloc, 1).ok()?;
    let Ok(history) = History::new(alloc, manifest, MAX_HALF - 100, 1) else {
        return None;
    };
    Some(Store::new(alloc, history, shelves))
}

// A client's first request, with 512 words.
fn first_request() -> Request<'static> {
    Request {
        number: 1,
        to: Elem { array: 0, index: 0 },
        entry: CONSTRUCT,
        words: &[5; 512],
    }
}

// The history of the store after an image was taken of it: its log then begins after that.
fn sealed(rt: &(impl AllocGlobal + Abort), store: Store<Counter>) -> History {
    let StoreParts {
        mut history,
        mut shelves,
        ..
    } = store.into_parts();
    assert!(rt; !history.is_halted());
    let image = image_of(rt.alloc(), &history, shelves.as_mut_slice());
    let bytes = image.expect(rt, "an image");
    history.seal(bytes.len() as u64);
    history
}

#[test]
fn an_image_makes_room_in_a_full_log(rt: HostRuntime) {
    let mut store = store_near_its_limit(rt.alloc()).expect(&rt, "memory");
    assert_eq!(rt; store.history.test_flush(), Ok(MAX_HALF - 100));
    assert!(rt; store.request(7, &first_request()).is_ok());
    assert_eq!(rt; store.history.test_flush(), Err(Refusal::LogFull));
    let mut history = sealed(&rt, store);
    assert!(rt; history.generation() == 2 && history.durable_count() == 1);
    assert!(rt; history.request(8, &first_request()).is_ok());
    assert_eq!(rt; history.flush(), Ok(2));
}
