//! The delivery of a pending message on one processor.

ghost use Rattle.std.specs.Prelude.{◌≡◌, false, true, IfErr, IfOk, None, OnErr, OnOk, Some, is_some};
ghost use Rattle.charmlet_model.specs.Core as core;
ghost use Rattle.charmlet_model.specs.Core.{Done, assigned_to, blank_of_id, checks, first_refusal};
ghost use Rattle.charmlet_model.specs.Run.{Goes};
ghost use Rattle.charmlet_model.specs.declared.refusal.Refusal.TheVariants.{Memory};
ghost use Rattle.charmlet_history.specs.Kept.{core_in, plenty};
ghost use Rattle.charmlet_shelf.specs.Due.{Due};
ghost use Rattle.charmlet_shelf.specs.Lending.{IsCarriedOut};
ghost use Rattle.charmlet_shelf.specs.Shelf.{View, is_assigned};
ghost use Rattle.charmlet_shelf.specs.declared.phase.Phase.TheVariants as phases;
ghost use Rattle.charmlet_delivery.specs.Delivering.{IsEntered};
ghost use Rattle.charmlet_delivery.specs.Turns.{Turns};
ghost use Rattle.charmlet_delivery.specs.UnderWay.{Ends, IsUnderWay};
ghost use Rattle.charmlet_delivery.specs.Workplace.{IsConsistentWorkplace, ShowsPart, store_with, workplace_of};

use crate::parts::{assign_tested, commit, release};
use charmlet_chare::Chare;
use charmlet_history::History;
use charmlet_model::{KindVersion, MsgId, Refusal};
use charmlet_shelf::{Delivered, Shelf};
use charmlet_stock::Stock;
use std::alloc::{AllocError, Global};

/// Delivers a pending message on the shelf's processor: it is assigned, its receiver reacts and is
/// counted, and the delivery is added to the history. If refused, nothing changes.
pub fn deliver_on<C: Chare>(
    alloc: Global,
    history: &mut History,
    shelf: &mut Shelf<C>,
    stock: &mut Stock<C>,
    id: MsgId,
) -> Result<(), Refusal>
    requires consistent { IsConsistentWorkplace (workplace_of history.old shelf.old stock.old) }
    requires idle { shelf.old.phase ≡ phases.Idle }
    ensures ends { Ends (store_with history.old stock.old) shelf.old.number id result
        (store_with history.new stock.new) }
    ensures turns { Turns (workplace_of history.old shelf.old stock.old)
        (workplace_of history.new shelf.new stock.new) }
    ensures idle { shelf.new.phase ≡ phases.Idle }
{
    let wanted = history.test_delivery(shelf.number(), id)?;
    if let Some(kind_version) = wanted {
        return deliver_new(alloc, history, shelf, stock, id, kind_version);
    }
    deliver_there(history, shelf, stock, id)
}

/// Delivers a message whose receiver is there, and reacts in its place. If memory is refused,
/// nothing changes.
fn deliver_there<C: Chare>(
    history: &mut History,
    shelf: &mut Shelf<C>,
    stock: &mut Stock<C>,
    id: MsgId,
) -> Result<(), Refusal>
    requires consistent { IsConsistentWorkplace (workplace_of history.old shelf.old stock.old) }
    requires idle { shelf.old.phase ≡ phases.Idle }
    requires can { first_refusal (checks (core_in history.old) plenty
        (core.Assign shelf.old.number id)) ≡ None }
    requires there { blank_of_id (core_in history.old) (Some id) ≡ None }
    ensures ends { Ends (store_with history.old stock.old) shelf.old.number id result
        (store_with history.new stock.new) }
    ensures turns { Turns (workplace_of history.old shelf.old stock.old)
        (workplace_of history.new shelf.new stock.new) }
    ensures idle { shelf.new.phase ≡ phases.Idle }
{
    history.facts();
    let processor = shelf.number();
    if history.assign(processor, id).is_err() {
        return Err(Refusal::Memory);
    }
    let Ok(delivered) = enter(history, shelf) else {
        history.release(processor);
        return Err(Refusal::Memory);
    };
    add(history, shelf, stock, delivered);
    Ok(())
}

/// Lends the processor's message to its receiver on the shelf, which is there, reacts and is
/// counted. If memory is refused, the shelf is unchanged.
fn enter<C: Chare>(history: &History, shelf: &mut Shelf<C>) -> Result<Delivered<C>, AllocError>
    requires shelf { ShowsPart history.now shelf.old }
    requires idle { shelf.old.phase ≡ phases.Idle }
    requires unwanted { blank_of_id (core_in history.now)
        (assigned_to (core_in history.now) shelf.old.number) ≡ None }
    ensures ok { IfOk result (λ done. (due : Due)
        × IsUnderWay (core_in history.now) shelf.old.number due
        × (is_some due.receiver.state ≡ true)
        × IsCarriedOut C.state shelf.old.records due done.output done.destroyed shelf.new.records) }
    ensures others { shelf.new ≡ record shelf.old { records = shelf.new.records } }
    ensures err { OnErr result (shelf.new ≡ shelf.old) }
{
    history.facts();
    let Some((_id, pending_message)) = history.assigned(shelf.number()) else {
        return Err(AllocError);
    };
    let words = pending_message.words.as_slice();
    let Ok(delivered) = shelf.deliver(pending_message.to, pending_message.entry, words) else {
        return Err(AllocError);
    };
    Ok(delivered)
}

/// Adds the receiver's delivery on the shelf to the history, which has room for it. An object that
/// the delivery destroyed is retired.
fn add<C: Chare>(
    history: &mut History,
    shelf: &Shelf<C>,
    stock: &mut Stock<C>,
    delivered: Delivered<C>,
)
    requires { (before : View) × (due : Due)
        × IsEntered C.state (workplace_of history.old before stock.old) due delivered.output
        delivered.destroyed shelf.now }
    ensures goes { Goes (store_with history.old stock.old) (core.Commit shelf.now.number) Done
        (store_with history.new stock.new) }
    ensures turns { (before : View) (due : Due) →
        IsEntered C.state (workplace_of history.old before stock.old) due delivered.output
        delivered.destroyed shelf.now →
        Turns (workplace_of history.old before stock.old)
        (workplace_of history.new shelf.now stock.new) }
    ensures free { assigned_to (core_in history.new) shelf.now.number ≡ None }
{
    history.facts();
    let Delivered { output, destroyed } = delivered;
    if history.commit(shelf.number(), output).is_err() {
        unreachable!()
    }
    if let Some(destroyed) = destroyed {
        stock.retire(destroyed);
    }
}

/// Delivers a message that constructs its receiver, from a blank of this kind version. If refused,
/// nothing changes.
fn deliver_new<C: Chare>(
    alloc: Global,
    history: &mut History,
    shelf: &mut Shelf<C>,
    stock: &mut Stock<C>,
    id: MsgId,
    kind_version: KindVersion,
) -> Result<(), Refusal>
    requires consistent { IsConsistentWorkplace (workplace_of history.old shelf.old stock.old) }
    requires can { first_refusal (checks (core_in history.old) plenty
        (core.Assign shelf.old.number id)) ≡ None }
    requires wanted { blank_of_id (core_in history.old) (Some id) ≡ Some kind_version }
    requires idle { shelf.old.phase ≡ phases.Idle }
    ensures ends { Ends (store_with history.old stock.old) shelf.old.number id result
        (store_with history.new stock.new) }
    ensures turns { Turns (workplace_of history.old shelf.old stock.old)
        (workplace_of history.new shelf.new stock.new) }
    ensures idle { shelf.new.phase ≡ phases.Idle }
{
    if let Err(refusal) = assign_tested(alloc, history, shelf, stock, id, Some(kind_version)) {
        return Err(refusal);
    }
    perform(history, shelf, stock)
}

/// Runs the receiver's reaction to the assigned message, and commits the delivery. If memory is
/// refused, the assignment is released.
fn perform<C: Chare>(
    history: &mut History,
    shelf: &mut Shelf<C>,
    stock: &mut Stock<C>,
) -> Result<(), Refusal>
    requires consistent { IsConsistentWorkplace (workplace_of history.old shelf.old stock.old) }
    requires assigned { is_assigned shelf.old.phase ≡ true }
    requires running { (core_in history.old).halted ≡ false }
    ensures ok { OnOk result (Goes (store_with history.old stock.old)
        (core.Commit shelf.old.number) Done (store_with history.new stock.new)) }
    ensures err { IfErr result (λ refusal. (refusal ≡ Memory)
        × Goes (store_with history.old stock.old) (core.Release shelf.old.number) Done
        (store_with history.new stock.new)) }
    ensures turns { Turns (workplace_of history.old shelf.old stock.old)
        (workplace_of history.new shelf.new stock.new) }
    ensures idle { shelf.new.phase ≡ phases.Idle }
{
    if shelf.perform().is_err() {
        release(history, shelf, stock);
        return Err(Refusal::Memory);
    }
    let Some(output) = shelf.take_output() else {
        unreachable!()
    };
    if commit(history, shelf, stock, output).is_err() {
        unreachable!()
    }
    Ok(())
}
