use charmlet_locate::{Locations, home, restart_map};
use charmlet_model::{Elem, Refusal};
use std::alloc::{AllocError, Global};
use std::process::Abort;
use std::test::Fail;

const ME: Elem = Elem { array: 2, index: 7 };

const OTHER: Elem = Elem { array: 0, index: 1 };

// The sum of its array and its index is past 64 bits.
const LAST: Elem = Elem {
    array: 65535,
    index: 0xffff_ffff_ffff_ffff,
};

// The home on `processors` processors.
fn has_home(rt: &impl Abort, elem: Elem, processors: u16, wanted: u16) {
    let found = home(elem, processors).ok().expect(rt, "a home");
    assert_eq!(rt; found, wanted);
}

// The element stands on this processor.
fn is_at(rt: &impl Abort, locations: &Locations, elem: Elem, wanted: u16) {
    let found = locations.where_is(elem).expect(rt, "a place");
    assert_eq!(rt; found, wanted);
}

// The element stands nowhere.
fn is_nowhere(rt: &impl Abort, locations: &Locations, elem: Elem) {
    assert!(rt; locations.where_is(elem).is_none());
}

// The homes on 1, 2, 3 and 64 processors.
fn has_homes(rt: &impl Abort, elem: Elem, homes: [u16; 4]) {
    let [on_one, on_two, on_three, on_all] = homes;
    has_home(rt, elem, 1, on_one);
    has_home(rt, elem, 2, on_two);
    has_home(rt, elem, 3, on_three);
    has_home(rt, elem, 64, on_all);
}

#[test]
fn homes_are_by_array_and_index(rt: HostRuntime) {
    has_homes(&rt, ME, [0, 1, 0, 9]);
    has_homes(&rt, OTHER, [0, 1, 1, 1]);
    has_homes(&rt, LAST, [0, 0, 0, 62]);
    let early = Elem { array: 3, index: 5 };
    has_homes(&rt, early, [0, 0, 2, 8]);
    has_home(&rt, early, 4, 0);
}

// There can't be this many processors.
fn has_no_homes(rt: &(impl AllocGlobal + Abort), processors: u16) {
    let of_home = home(ME, processors).err().expect(rt, "a refusal");
    assert_eq!(rt; of_home, Refusal::BadPes);
    let map = restart_map(rt.alloc(), &[], processors);
    let of_map = map.err().expect(rt, "a refusal");
    assert_eq!(rt; of_map, Refusal::BadPes);
}

#[test]
fn processors_are_1_to_64(rt: HostRuntime) {
    for processors in [0u16, 65, 65535] {
        has_no_homes(&rt, processors);
    }
}

// Two of the elements stand on these processors, and the other one nowhere.
fn are_at(rt: &impl Abort, locations: &Locations, of_me: u16, of_last: u16) {
    is_at(rt, locations, ME, of_me);
    is_nowhere(rt, locations, OTHER);
    is_at(rt, locations, LAST, of_last);
}

// The elements restart at their homes on this many processors.
fn placed(rt: &(impl AllocGlobal + Abort), elems: &[Elem], processors: u16) -> Locations {
    restart_map(rt.alloc(), elems, processors)
        .ok()
        .expect(rt, "memory")
}

#[test]
fn elements_come_to_processors(rt: HostRuntime) {
    is_nowhere(&rt, &placed(&rt, &[], 64), ME);
    for (processors, of_me, of_last) in [(1, 0, 0), (2, 1, 0), (3, 0, 0), (64, 9, 62)] {
        are_at(
            &rt,
            &placed(&rt, &[ME, LAST, ME], processors),
            of_me,
            of_last,
        );
    }
}

#[test]
fn elements_restart_at_their_homes(rt: HostRuntime) {
    are_at(&rt, &placed(&rt, &[LAST, ME, LAST], 64), 9, 62);
}

// Twenty elements of array 1.
fn row(alloc: Global) -> Result<Vec<Elem>, AllocError> {
    let mut elems = Vec::new(alloc);
    for index in 0..20 {
        elems.push(Elem { array: 1, index })?;
    }
    Ok(elems)
}

// The places of the restarted elements on three processors. When out of memory, it is tried once
// more.
fn restarted(rt: &(impl AllocGlobal + Abort), elems: &[Elem]) -> Result<Locations, Fail> {
    match restart_map(rt.alloc(), elems, 3) {
        Ok(locations) => Ok(locations),
        Err(refusal) => {
            assert_eq!(rt; refusal, Refusal::Memory);
            Ok(restart_map(rt.alloc(), elems, 3)?)
        }
    }
}

// The elements stand at their homes on three processors.
fn are_at_home(rt: &impl Abort, locations: &Locations, elems: &[Elem]) {
    for elem in elems {
        assert_eq!(rt; locations.where_is(*elem), home(*elem, 3).ok());
    }
}

#[test]
fn refused_memory_leaves_the_places(rt: HostRuntime) -> Result<(), Fail> {
    let elems = match row(rt.alloc()) {
        Ok(elems) => elems,
        Err(_) => row(rt.alloc())?,
    };
    let in_row = restarted(&rt, &elems)?;
    are_at_home(&rt, &in_row, &elems);
    let locations = restarted(&rt, &[LAST, ME, LAST])?;
    are_at_home(&rt, &locations, &[LAST, ME]);
    is_at(&rt, &locations, ME, 0);
    is_nowhere(&rt, &locations, OTHER);
    are_at_home(&rt, &in_row, &elems);
    is_nowhere(&rt, &in_row, ME);
    Ok(())
}

// Restarts elements; so it fails if any allocation is refused.
#[test]
fn places_meet_no_refusal(rt: HostRuntime) -> Result<(), Fail> {
    restart_map(rt.alloc(), &row(rt.alloc())?, 3)?;
    restart_map(rt.alloc(), &[LAST, ME, LAST], 3)?;
    Ok(())
}
