//! Deliveries to the objects of a shelf.

ghost use Rattle.std.specs.Prelude.{◌≡◌, ◌+◌, if◌then◌else◌, None, IfOk, IfErr, IfSome, OnErr, OnOk, is_none, is_some};
ghost use Rattle.std.specs.BTreeMap.{is_at};
ghost use Rattle.std.specs.Map.{lookup};
ghost use Rattle.charmlet_model.specs.declared.kind.Kind.{Kind};
ghost use Rattle.charmlet_model.specs.Names.{elem_cmp};
ghost use Rattle.charmlet_model.specs.Reaction.{kind_version_of};
ghost use Rattle.charmlet_model.specs.Shelves.{records_of, there_in};
ghost use Rattle.charmlet_shelf.specs.Count.{came_out, comes_as};
ghost use Rattle.charmlet_shelf.specs.Due.{reaction_in, record_after};
ghost use Rattle.charmlet_shelf.specs.Risen.{risen};
ghost use Rattle.charmlet_shelf.specs.Shelf.{HasCounts, Holds, IsDueAt, before_due, done_by, with_record, without_newcomer};
ghost use Rattle.charmlet_shelf.specs.declared.phase.Phase.TheVariants as phases;

use crate::delivery::Delivery;
use crate::performed_delivery::PerformedDelivery;
use crate::received::receive;
use crate::residents::{index_from, take};
use charmlet_chare::Chare;
use charmlet_model::{Elem, Message, Resident};
use indexmap::IndexMap;
use std::alloc::Global;

/// The delivery of a message to a present element, whose counts have room for it. If the element
/// isn't there, the message comes back. The search tries `index` first; afterwards `index` is the
/// element's place. It takes no memory.
pub(crate) fn delivery_at<C: Chare>(
    residents: &IndexMap<Elem, Resident<C>>,
    index: &mut usize,
    message: Message,
) -> Result<Delivery, Message>
    requires { IfSome (lookup (is_at (elem_cmp message.to))
        (records_of C.state (risen residents.now.entries))) HasCounts }
    ensures ok { IfOk result (λ due. IsDueAt
        (records_of C.state (risen residents.now.entries)) message due
        × Holds C.state (risen residents.now.entries) due due.receiver.state) }
    ensures err { IfErr result (λ back.
        (lookup (is_at (elem_cmp message.to)) (records_of C.state (risen residents.now.entries))
        ≡ None) × (back ≡ message)) }
{
    let Some(found) = index_from(residents, *index, message.to) else {
        return Err(message);
    };
    *index = found;
    Ok(Delivery::to_resident(&residents[found], message))
}

/// Runs the receiver's reaction; the search for the receiver tries `index` first. When out of
/// memory, the delivery comes back, and the objects show the same states as before.
pub(crate) fn react<C: Chare>(
    alloc: Global,
    residents: &mut IndexMap<Elem, Resident<C>>,
    index: usize,
    delivery: Delivery,
) -> Result<PerformedDelivery, Delivery>
    requires { Holds C.state (risen residents.old.entries) delivery delivery.receiver.state }
    ensures ok { IfOk result (λ outcome. (outcome.due ≡ delivery)
        × (phases.Done outcome ≡ done_by delivery (reaction_in delivery))
        × Holds C.state (risen residents.new.entries) delivery (record_after delivery).state) }
    ensures done { OnOk result (before_due
        (records_of C.state (risen residents.new.entries)) delivery
        ≡ without_newcomer (records_of C.state (risen residents.old.entries)) delivery) }
    ensures err { IfErr result (λ back. (back ≡ delivery)
        × Holds C.state (risen residents.new.entries) delivery delivery.receiver.state) }
    ensures same { OnErr result (without_newcomer
        (records_of C.state (risen residents.new.entries)) delivery
        ≡ without_newcomer (records_of C.state (risen residents.old.entries)) delivery) }
{
    let is_there = delivery.is_there();
    let message = delivery.message();
    let Some(index) = index_from(residents, index, message.to) else {
        unreachable!()
    };
    let (_elem, resident) = residents.pair_mut(index);
    let words = message.words.as_slice();
    let (to, entry) = (message.to, message.entry);
    match receive(alloc, &mut resident.object, is_there, to, entry, words) {
        Ok(output) => Ok(PerformedDelivery::new(delivery, output)),
        Err(_) => Err(delivery),
    }
}

/// Counts the delivery at its receiver, or takes out the object that it destroys. The search for
/// the receiver tries `index` first.
pub(crate) fn bring_forward<C: Chare>(
    residents: &mut IndexMap<Elem, Resident<C>>,
    index: usize,
    outcome: &PerformedDelivery,
) -> Option<C>
    requires { Holds C.state (risen residents.old.entries) outcome.now.due
        (record_after outcome.now.due).state }
    ensures records { records_of C.state (risen residents.new.entries)
        ≡ with_record (before_due (records_of C.state (risen residents.old.entries))
        outcome.now.due) outcome.now.due.message.to (record_after outcome.now.due) }
    ensures destroyed { is_some result ≡ is_none (record_after outcome.now.due).state }
    ensures kind_version { IfSome result
        (λ object. kind_version_of (C.state object) ≡ outcome.now.due.kind_version) }
    ensures count { (kind : Kind) → there_in
        (before_due (records_of C.state (risen residents.old.entries)) outcome.now.due) kind +
        (if comes_as kind outcome.now.due then 1 else 0)
        ≡ there_in (records_of C.state (risen residents.new.entries)) kind + came_out C.state result
        kind }
{
    let to = outcome.delivery().message().to;
    if outcome.is_destroyed() {
        let Some(resident) = take(residents, to) else {
            unreachable!()
        };
        return Some(resident.object);
    }
    let Some(index) = index_from(residents, index, to) else {
        unreachable!()
    };
    let (_elem, resident) = residents.pair_mut(index);
    (resident.sent, resident.received) = outcome.counts();
    None
}

/// Takes out the object that the message would have constructed.
pub(crate) fn take_newcomer<C: Chare>(
    residents: &mut IndexMap<Elem, Resident<C>>,
    delivery: &Delivery,
) -> Option<C>
    requires { Holds C.state (risen residents.old.entries) delivery.now
        delivery.now.receiver.state }
    ensures records { records_of C.state (risen residents.new.entries)
        ≡ without_newcomer (records_of C.state (risen residents.old.entries)) delivery.now }
    ensures newcomer { is_some result ≡ is_none delivery.now.receiver.state }
    ensures kind_version { IfSome result
        (λ object. kind_version_of (C.state object) ≡ delivery.now.kind_version) }
    ensures count { (kind : Kind) → there_in
        (without_newcomer (records_of C.state (risen residents.old.entries)) delivery.now) kind +
        (if comes_as kind delivery.now then 1 else 0)
        ≡ there_in (records_of C.state (risen residents.new.entries)) kind + came_out C.state result
        kind }
{
    if delivery.is_there() {
        return None;
    }
    let Some(resident) = take(residents, delivery.message().to) else {
        unreachable!()
    };
    Some(resident.object)
}
