//! Repeated deliveries on the shelf of their receiver.

ghost use Rattle.std.specs.Prelude.{◌≡◌, ◌≤◌, None, true, Err, IfOk, IsOk, OnErr, OnOk, Some, is_some};
ghost use Rattle.std.specs.BTreeMap.{insert_entry, is_at};
ghost use Rattle.std.specs.List.Sorted.{IsStrictlySortedBy};
ghost use Rattle.std.specs.Map.{keys_of, lookup};
ghost use Rattle.charmlet_model.specs.Core.{with_taken};
ghost use Rattle.charmlet_model.specs.KindVersion.{kind_of_version};
ghost use Rattle.charmlet_model.specs.Names.{elem_cmp};
ghost use Rattle.charmlet_model.specs.Packed.{reads_packed};
ghost use Rattle.charmlet_model.specs.Unpacked.{state_at};
ghost use Rattle.charmlet_recovery.specs.Faults.{takes};
ghost use Rattle.charmlet_shelf.specs.Due.{Due, reaction_in, record_after};
ghost use Rattle.charmlet_shelf.specs.PerformedDelivery.{Performed};
ghost use Rattle.charmlet_shelf.specs.declared.phase.Phase.TheVariants as phases;
ghost use Rattle.charmlet_stock.specs.Stock.{blanks_in, keeping_of, supplied_to};
ghost use Rattle.charmlet_migrate.specs.Workplace.{IsWithin, held_in};
ghost use Rattle.charmlet_shard.specs.Receiving.{IsOutputOf, IsSeen, IsSettledAs, blank_for, due_for, element_on, seen_record};
ghost use Rattle.charmlet_shard.specs.declared.stopped.Stopped.TheVariants as stops;

use crate::stopped::Stopped;
use charmlet_chare::{Chare, Output};
use charmlet_migrate::{assign_newcomer, release_shelf, settle_shelf};
use charmlet_model::{Elem, KindVersion, Message, Refusal, Resident};
use charmlet_shelf::Shelf;
use charmlet_stock::Stock;
use charmlet_world::Element;
use std::alloc::AllocError;

/// Places an element of this kind version that isn't on the shelf, from a blank of its kind and its
/// packed state, with its counts. If memory is refused, the shelf is unchanged and the blank is in
/// the stock again.
pub(crate) fn place_packed<C: Chare>(
    shelf: &mut Shelf<C>,
    stock: &mut Stock<C>,
    elem: Elem,
    counts: Element,
    kind_version: KindVersion,
    packed: &[u8],
) -> Result<(), AllocError>
    requires idle { shelf.old.phase ≡ phases.Idle }
    requires rising { IsStrictlySortedBy elem_cmp (keys_of shelf.old.records) }
    requires absent { lookup (is_at (elem_cmp elem)) shelf.old.records ≡ None }
    requires packed { IsOk (reads_packed kind_version packed.now) }
    requires blank { 1 ≤ blanks_in stock.old (kind_of_version kind_version) }
    requires supply { IsWithin shelf.old stock.old }
    ensures ok { OnOk result (shelf.new ≡ record shelf.old {
      records = insert_entry elem_cmp shelf.old.records elem (record {
        state = Some (state_at kind_version packed.now);
        sent = counts.sent;
        received = counts.received;
      });
    }) }
    ensures blanks { OnOk result (blanks_in stock.new
        ≡ with_taken (Some kind_version) (blanks_in stock.old)) }
    ensures err { OnErr result (shelf.new ≡ shelf.old) }
    ensures held { held_in shelf.new stock.new ≡ held_in shelf.old stock.old }
    ensures supplied { supplied_to stock.new ≡ supplied_to stock.old }
    ensures keeping { keeping_of stock.new ≡ keeping_of stock.old }
{
    let Some(mut object) = stock.take_as(kind_version) else {
        unreachable!()
    };
    if object.unpack(packed).is_err() {
        stock.give_back(object);
        return Err(AllocError);
    }
    let Element { sent, received, .. } = counts;
    let resident = Resident {
        object,
        sent,
        received,
    };
    match shelf.place(elem, resident) {
        Ok(()) => Ok(()),
        Err((_, resident)) => {
            stock.give_back(resident.object);
            Err(AllocError)
        }
    }
}

/// Delivers a message to its receiver of this kind version, which is on the shelf, or which the
/// message constructs from a blank of its kind. Answers the receiver's place and counts afterwards,
/// and its output. `Fault` if it needs a blank and there is none; `Memory`.
pub(crate) fn receive<C: Chare>(
    shelf: &mut Shelf<C>,
    stock: &mut Stock<C>,
    receiver: Element,
    kind_version: KindVersion,
    message: Message,
) -> Result<(Element, Output), Stopped>
    requires idle { shelf.old.phase ≡ phases.Idle }
    requires seen { IsSeen shelf.old.records message.to receiver kind_version }
    requires takes { takes (seen_record shelf.old.records message.to receiver) message.entry
        ≡ true }
    requires supply { IsWithin shelf.old stock.old }
    ensures ok { IfOk result (λ done. IsSettledAs shelf.old
        (due_for kind_version shelf.old.records receiver message) shelf.new done.0
        × IsOutputOf (due_for kind_version shelf.old.records receiver message) done.1) }
    ensures blanks { OnOk result (blanks_in stock.new
        ≡ with_taken (blank_for kind_version receiver) (blanks_in stock.old)) }
    ensures fault { result ≡ Err stops.Fault → (receiver.place ≡ None)
        × (blanks_in stock.old (kind_of_version kind_version) ≡ 0) }
    ensures number { shelf.new.number ≡ shelf.old.number }
    ensures idle { shelf.new.phase ≡ phases.Idle }
    ensures held { held_in shelf.new stock.new ≡ held_in shelf.old stock.old }
    ensures supplied { supplied_to stock.new ≡ supplied_to stock.old }
    ensures keeping { keeping_of stock.new ≡ keeping_of stock.old }
{
    assign(shelf, stock, receiver, kind_version, message)?;
    match perform(shelf, stock) {
        Ok(done) => Ok(done),
        Err(AllocError) => Err(Stopped::Memory),
    }
}

/// Assigns a message to its receiver of this kind version, which is on the shelf, or which the
/// message constructs from a blank of its kind. `Fault` if it needs a blank and there is none;
/// `Memory`. Then the shelf is unchanged.
pub(crate) fn assign<C: Chare>(
    shelf: &mut Shelf<C>,
    stock: &mut Stock<C>,
    receiver: Element,
    kind_version: KindVersion,
    message: Message,
) -> Result<(), Stopped>
    requires idle { shelf.old.phase ≡ phases.Idle }
    requires seen { IsSeen shelf.old.records message.to receiver kind_version }
    requires takes { takes (seen_record shelf.old.records message.to receiver) message.entry
        ≡ true }
    requires supply { IsWithin shelf.old stock.old }
    ensures ok { OnOk result (shelf.new ≡ record shelf.old {
      phase = phases.Assigned (due_for kind_version shelf.old.records receiver message);
    }) }
    ensures blanks { OnOk result (blanks_in stock.new
        ≡ with_taken (blank_for kind_version receiver) (blanks_in stock.old)) }
    ensures fault { result ≡ Err stops.Fault → (receiver.place ≡ None)
        × (blanks_in stock.old (kind_of_version kind_version) ≡ 0) }
    ensures err { OnErr result (shelf.new ≡ shelf.old) }
    ensures held { held_in shelf.new stock.new ≡ held_in shelf.old stock.old }
    ensures supplied { supplied_to stock.new ≡ supplied_to stock.old }
    ensures keeping { keeping_of stock.new ≡ keeping_of stock.old }
{
    if receiver.place.is_none() {
        return assign_new(shelf, stock, receiver, kind_version, message);
    }
    if shelf.assign(message).is_err() {
        unreachable!()
    }
    Ok(())
}

/// Assigns a message to the element of this kind version that it constructs from a blank of its
/// kind. `Fault` if there is no blank; `Memory`. Then the shelf is unchanged.
fn assign_new<C: Chare>(
    shelf: &mut Shelf<C>,
    stock: &mut Stock<C>,
    receiver: Element,
    kind_version: KindVersion,
    message: Message,
) -> Result<(), Stopped>
    requires idle { shelf.old.phase ≡ phases.Idle }
    requires absent { receiver.place ≡ None }
    requires seen { IsSeen shelf.old.records message.to receiver kind_version }
    requires takes { takes (seen_record shelf.old.records message.to receiver) message.entry
        ≡ true }
    requires supply { IsWithin shelf.old stock.old }
    ensures ok { OnOk result (shelf.new ≡ record shelf.old {
      phase = phases.Assigned (due_for kind_version shelf.old.records receiver message);
    }) }
    ensures blanks { OnOk result (blanks_in stock.new
        ≡ with_taken (Some kind_version) (blanks_in stock.old)) }
    ensures fault { result ≡ Err stops.Fault → blanks_in stock.old (kind_of_version kind_version)
        ≡ 0 }
    ensures err { OnErr result (shelf.new ≡ shelf.old) }
    ensures held { held_in shelf.new stock.new ≡ held_in shelf.old stock.old }
    ensures supplied { supplied_to stock.new ≡ supplied_to stock.old }
    ensures keeping { keeping_of stock.new ≡ keeping_of stock.old }
{
    match assign_newcomer(shelf, stock, kind_version, receiver, message) {
        Ok(()) => Ok(()),
        Err(Refusal::NoBlank(_)) => Err(Stopped::Fault),
        Err(_) => Err(Stopped::Memory),
    }
}

/// Runs the receiver's reaction to the assigned message, and settles the delivery: an object that
/// it destroyed is retired. Answers the receiver's place and counts afterwards, and its output. If
/// memory is refused, the message isn't assigned any more, and the blank of a construction is in
/// the stock again.
pub(crate) fn perform<C: Chare>(
    shelf: &mut Shelf<C>,
    stock: &mut Stock<C>,
) -> Result<(Element, Output), AllocError>
    requires assigned { (due : Due) × (shelf.old.phase ≡ phases.Assigned due)
        × (is_some (reaction_in due) ≡ true) }
    requires supply { IsWithin shelf.old stock.old }
    ensures ok { (due : Due) → shelf.old.phase ≡ phases.Assigned due →
        IfOk result (λ done. IsSettledAs shelf.old due shelf.new done.0
        × IsOutputOf due done.1) }
    ensures blanks { OnOk result (blanks_in stock.new ≡ blanks_in stock.old) }
    ensures number { shelf.new.number ≡ shelf.old.number }
    ensures idle { shelf.new.phase ≡ phases.Idle }
    ensures held { held_in shelf.new stock.new ≡ held_in shelf.old stock.old }
    ensures supplied { supplied_to stock.new ≡ supplied_to stock.old }
    ensures keeping { keeping_of stock.new ≡ keeping_of stock.old }
{
    if shelf.perform().is_err() {
        release_shelf(shelf, stock);
        return Err(AllocError);
    }
    let receiver = receiver_after(shelf);
    let Some(output) = shelf.take_output() else {
        unreachable!()
    };
    settle_shelf(shelf, stock);
    Ok((receiver, output))
}

/// The place and counts of the receiver after its delivery: it stands on the shelf, or was
/// destroyed.
fn receiver_after<C: Chare>(shelf: &Shelf<C>) -> Element
    requires { (done : Performed) × (shelf.now.phase ≡ phases.Done done) }
    ensures { (done : Performed) → shelf.now.phase ≡ phases.Done done →
        result ≡ element_on shelf.now.number (record_after done.due) }
{
    let Some(outcome) = shelf.outcome() else {
        unreachable!()
    };
    let (sent, received) = outcome.counts();
    let place = if outcome.is_destroyed() {
        None
    } else {
        Some(shelf.number())
    };
    Element {
        place,
        sent,
        received,
    }
}
