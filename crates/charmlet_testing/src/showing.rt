//! Lines of scripts that show something of a store.

use crate::saying::say;
use crate::store::{Failed, Machine};
use charmlet_model::{Elem, Kind};
use charmlet_script::{Counted, PendingIds, Shown, Standing};
use charmlet_store::Look;
use std::alloc::{AllocError, Global};

/// Prints where an element stands, and its state.
pub(crate) fn say_state<M: Machine>(
    alloc: Global,
    machine: &mut M,
    elem: Elem,
    out: &mut Vec<u8>,
) -> Result<(), Failed> {
    let look = machine.look(elem)?;
    let shown = shown(alloc, elem, look)?;
    say(alloc, out, &shown)
}

/// The `state` line of an element.
fn shown(alloc: Global, elem: Elem, look: Look) -> Result<Shown, AllocError> {
    let (sent, received) = (look.sent, look.received);
    let standing = match look.standing {
        Some(standing) => Some(Standing {
            processor: standing.processor,
            packed: hex::encode(alloc, standing.packed)?,
        }),
        None => None,
    };
    Ok(Shown {
        elem,
        standing,
        sent,
        received,
    })
}

/// Prints the ids of the pending messages.
pub(crate) fn say_pending<M: Machine>(
    alloc: Global,
    machine: &M,
    out: &mut Vec<u8>,
) -> Result<(), Failed> {
    let ids = machine.pending()?;
    say(alloc, out, &PendingIds(ids.as_slice()))
}

/// Prints where the objects of each kind are of which some were supplied.
pub(crate) fn say_census<M: Machine>(
    alloc: Global,
    machine: &M,
    out: &mut Vec<u8>,
) -> Result<(), Failed> {
    for kind in &Kind::ALL {
        let census = machine.census(*kind);
        if census.supplied > 0 {
            let counted = Counted {
                kind: *kind,
                supplied: census.supplied,
                on_shelves: census.on_shelves,
                in_stock: census.in_stock,
                retired: census.retired,
            };
            say(alloc, out, &counted)?;
        }
    }
    Ok(())
}
