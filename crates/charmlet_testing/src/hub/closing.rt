//! The end of a hub: its hand-ins and its result.

use crate::disk::ProbeDisk;
use crate::hub::places::{place_of_pass, place_of_seat};
use crate::objects::Object;
use crate::store::{Ended, Parts, Without};
use charmlet_halves::Halves;
use charmlet_hub::{PassesOf, SeatsOf};
use charmlet_leases::{ClientPass, Seat};
use charmlet_sequencer::RuntimeName;
use charmlet_store::Store;

/// Takes a processor's seat out of a list.
pub(crate) fn take_seat<B: RuntimeName>(
    seats: &mut Vec<Seat<SeatsOf<B>>>,
    without: Without,
) -> Option<Seat<SeatsOf<B>>> {
    let Without::Seat(processor) = without else {
        return None;
    };
    let place = place_of_seat(seats.as_slice(), processor)?;
    Some(seats.swap_remove(place))
}

/// Takes a client's pass out of a list.
pub(crate) fn take_pass<B: RuntimeName>(
    passes: &mut Vec<ClientPass<PassesOf<B>>>,
    without: Without,
) -> Option<ClientPass<PassesOf<B>>> {
    let Without::Pass(client) = without else {
        return None;
    };
    let place = place_of_pass(passes.as_slice(), client)?;
    Some(passes.swap_remove(place))
}

/// Puts an item back that was taken out of a list, which has room for it.
pub(crate) fn put_back<T: Drop>(items: &mut Vec<T>, taken: Option<T>) {
    if let Some(item) = taken {
        let _ = items.push(item);
    }
}

/// The parts of a store. If memory is refused for the list of its objects, it is tried once more.
pub(crate) fn end(store: Store<Object>, halves: Halves<ProbeDisk>) -> Ended {
    let disk = halves.into_disk();
    let result = match store.dismantle() {
        Ok(parts) => Ok(parts),
        Err(store) => store.dismantle(),
    };
    Ended {
        disk,
        parts: result.ok().map(Parts::new),
    }
}
