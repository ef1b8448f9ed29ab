//! Deliveries of borrowed messages.

ghost use Rattle.std.specs.Prelude.{◌≡◌, ◌+◌, ◌≤◌, length, IfOk, IfSome, OnErr};
ghost use Rattle.std.specs.BTreeMap.{is_at};
ghost use Rattle.std.specs.Map.{lookup};
ghost use Rattle.charmlet_model.specs.declared.names.MsgId.{MsgId};
ghost use Rattle.charmlet_model.specs.Names.{elem_cmp};
ghost use Rattle.charmlet_model.specs.Shelves.{record_in, records_of};
ghost use Rattle.charmlet_shelf.specs.Due.{Due};
ghost use Rattle.charmlet_shelf.specs.Lending.{Advances, IsCarriedOut};
ghost use Rattle.charmlet_shelf.specs.Risen.{StandsAt, risen};
ghost use Rattle.charmlet_shelf.specs.Shelf.{HasCounts, IsDueAt};

use crate::received::receive;
use crate::residents::take;
use charmlet_chare::{Chare, Output};
use charmlet_model::{Elem, Resident};
use indexmap::IndexMap;
use std::alloc::{AllocError, Global};

/// The result of a delivery: the receiver's sends and reply, and its object, if the message
/// destroyed it.
#[derive(Drop)]
pub struct Delivered<C> {
    pub output: Output,
    pub destroyed: Option<C>,
}

/// Delivers a message to the element at this index. When out of memory, the objects show the same
/// states as before.
pub(crate) fn deliver_at<C: Chare>(
    alloc: Global,
    residents: &mut IndexMap<Elem, Resident<C>>,
    index: usize,
    to: Elem,
    entry: u16,
    words: &[u64],
) -> Result<Delivered<C>, AllocError>
    requires stands { StandsAt residents.old.entries to index }
    requires counts { IfSome (lookup (is_at (elem_cmp to))
        (records_of C.state (risen residents.old.entries))) HasCounts }
    ensures ok { (id : MsgId) → IfOk result (λ done. (due : Due)
        × IsDueAt (records_of C.state (risen residents.old.entries))
        (record { id = id; to = to; entry = entry; words = words.now }) due
        × IsCarriedOut C.state (records_of C.state (risen residents.old.entries)) due done.output
        done.destroyed (records_of C.state (risen residents.new.entries))) }
    ensures err { OnErr result (records_of C.state (risen residents.new.entries)
        ≡ records_of C.state (risen residents.old.entries)) }
{
    let (_elem, resident) = residents.pair_mut(index);
    let Ok(output) = advance(alloc, resident, to, entry, words) else {
        return Err(AllocError);
    };
    if !output.is_destroyed {
        let destroyed = None;
        return Ok(Delivered { output, destroyed });
    }
    let Some(resident) = take(residents, to) else {
        unreachable!()
    };
    let destroyed = Some(resident.object);
    Ok(Delivered { output, destroyed })
}

/// Runs a resident's reaction to a message, and counts the message. When out of memory, the
/// resident shows the same state as before.
fn advance<C: Chare>(
    alloc: Global,
    resident: &mut Resident<C>,
    to: Elem,
    entry: u16,
    words: &[u64],
) -> Result<Output, AllocError>
    requires { HasCounts (record_in C.state resident.old) }
    ensures ok { IfOk result (λ output.
        Advances C.state resident.old to entry words.now output resident.new) }
    ensures err { OnErr result (record_in C.state resident.new ≡ record_in C.state resident.old) }
{
    let output = receive(alloc, &mut resident.object, true, to, entry, words)?;
    resident.sent += output.sends.as_slice().len() as u64;
    resident.received += 1;
    Ok(output)
}
