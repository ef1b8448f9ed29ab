//! The steps of a delivery: it is assigned, and then committed, finished or released.

ghost use Rattle.std.specs.Prelude.{◌≡◌, false, true, IfErr, IsOk, None, OnErr, OnOk, Some};
ghost use Rattle.charmlet_model.specs.Core as core;
ghost use Rattle.charmlet_model.specs.Core.{Done, assigned_to, blank_of_id, checks, first_refusal, lacks_blank, with_taken};
ghost use Rattle.charmlet_model.specs.Run.{Goes};
ghost use Rattle.charmlet_model.specs.declared.names.MsgId.{MsgId as AnId};
ghost use Rattle.charmlet_model.specs.declared.refusal.Refusal.TheVariants as refusals;
ghost use Rattle.charmlet_history.specs.Delivered.{commit_answer};
ghost use Rattle.charmlet_history.specs.Kept.{core_in, plenty, refusal_in};
ghost use Rattle.charmlet_shelf.specs.Due.{Due};
ghost use Rattle.charmlet_shelf.specs.Shelf.{is_assigned, settled};
ghost use Rattle.charmlet_shelf.specs.declared.phase.Phase.TheVariants as phases;
ghost use Rattle.charmlet_stock.specs.Stock.{blanks_in, keeping_of, supplied_to};
ghost use Rattle.charmlet_delivery.specs.Delivering.{IsDelivering};
ghost use Rattle.charmlet_delivery.specs.Turns.{Turns};
ghost use Rattle.charmlet_delivery.specs.UnderWay.{HasMade};
ghost use Rattle.charmlet_delivery.specs.Workplace.{IsConsistentWorkplace, IsWithin, ShowsPart, done_or_refused, held_in, store_with, workplace_of};

use crate::shelf_steps::{assign_newcomer, release_shelf, settle_shelf};
use charmlet_chare::{Chare, Output};
use charmlet_history::{History, RefusedCommit};
use charmlet_model::{KindVersion, MsgId, Refusal};
use charmlet_shelf::Shelf;
use charmlet_stock::Stock;
use std::alloc::{AllocError, Global};

/// Assigns a pending message to the shelf's processor, in the history and on the shelf. A message
/// that constructs its receiver takes a blank from the stock. If refused, nothing changes.
pub fn assign<C: Chare>(
    alloc: Global,
    history: &mut History,
    shelf: &mut Shelf<C>,
    stock: &mut Stock<C>,
    id: MsgId,
) -> Result<(), Refusal>
    requires { IsConsistentWorkplace (workplace_of history.old shelf.old stock.old) }
    ensures goes { Goes (store_with history.old stock.old) (core.Assign shelf.old.number id)
        (done_or_refused result) (store_with history.new stock.new) }
    ensures turns { Turns (workplace_of history.old shelf.old stock.old)
        (workplace_of history.new shelf.new stock.new) }
    ensures ok { OnOk result (is_assigned shelf.new.phase ≡ true) }
    ensures rest { shelf.new ≡ record shelf.old { phase = shelf.new.phase } }
    ensures err { OnErr result (shelf.new ≡ shelf.old) }
{
    let wanted = history.test_delivery(shelf.number(), id)?;
    assign_tested(alloc, history, shelf, stock, id, wanted)
}

/// Assigns a message that passed the history's test, with a blank of kind version `wanted`, if it
/// is given. `NoBlank` if the stock lacks that blank; otherwise `Memory`. If refused, nothing
/// changes.
pub(crate) fn assign_tested<C: Chare>(
    alloc: Global,
    history: &mut History,
    shelf: &mut Shelf<C>,
    stock: &mut Stock<C>,
    id: MsgId,
    wanted: Option<KindVersion>,
) -> Result<(), Refusal>
    requires consistent { IsConsistentWorkplace (workplace_of history.old shelf.old stock.old) }
    requires can { first_refusal (checks (core_in history.old) plenty
        (core.Assign shelf.old.number id)) ≡ None }
    requires wanted { blank_of_id (core_in history.old) (Some id) ≡ wanted }
    ensures goes { Goes (store_with history.old stock.old) (core.Assign shelf.old.number id)
        (done_or_refused result) (store_with history.new stock.new) }
    ensures turns { Turns (workplace_of history.old shelf.old stock.old)
        (workplace_of history.new shelf.new stock.new) }
    ensures ok { OnOk result (is_assigned shelf.new.phase ≡ true) }
    ensures running { OnOk result ((core_in history.new).halted ≡ false) }
    ensures rest { shelf.new ≡ record shelf.old { phase = shelf.new.phase } }
    ensures err { OnErr result (shelf.new ≡ shelf.old) }
{
    history.facts();
    if let Err(refusal) = test_blank(stock, wanted) {
        return Err(refusal);
    }
    let processor = shelf.number();
    if history.assign(processor, id).is_err() {
        return Err(Refusal::Memory);
    }
    if shelve(alloc, history, shelf, stock, wanted).is_err() {
        history.release(processor);
        return Err(Refusal::Memory);
    }
    Ok(())
}

/// Tests that the stock has the wanted blank, if one is wanted; otherwise `NoBlank`.
fn test_blank<C: Chare>(stock: &Stock<C>, wanted: Option<KindVersion>) -> Result<(), Refusal>
    ensures { refusal_in result ≡ first_refusal (lacks_blank (blanks_in stock.now) wanted) }
{
    let Some(kind_version) = wanted else {
        return Ok(());
    };
    let kind = kind_version.kind();
    if stock.census().get(kind).in_stock == 0 {
        return Err(Refusal::NoBlank(kind));
    }
    Ok(())
}

/// Assigns a copy of the processor's message on the shelf: to its receiver, or to a newcomer if a
/// blank of this kind version is wanted. If that fails, shelf and stock are unchanged.
fn shelve<C: Chare>(
    alloc: Global,
    history: &History,
    shelf: &mut Shelf<C>,
    stock: &mut Stock<C>,
    wanted: Option<KindVersion>,
) -> Result<(), AllocError>
    requires part { ShowsPart history.now shelf.old }
    requires idle { shelf.old.phase ≡ phases.Idle }
    requires supply { IsWithin shelf.old stock.old }
    requires assigned { (id : AnId)
        × (assigned_to (core_in history.now) shelf.old.number ≡ Some id) }
    requires wanted { blank_of_id (core_in history.now)
        (assigned_to (core_in history.now) shelf.old.number) ≡ wanted }
    ensures ok { OnOk result ((due : Due)
        × IsDelivering history.now shelf.new due (phases.Assigned due)) }
    ensures blanks { OnOk result (blanks_in stock.new ≡ with_taken wanted (blanks_in stock.old)) }
    ensures rest { shelf.new ≡ record shelf.old { phase = shelf.new.phase } }
    ensures err { OnErr result ((shelf.new ≡ shelf.old)
        × (blanks_in stock.new ≡ blanks_in stock.old)) }
    ensures held { held_in shelf.new stock.new ≡ held_in shelf.old stock.old }
    ensures supplied { supplied_to stock.new ≡ supplied_to stock.old }
    ensures keeping { keeping_of stock.new ≡ keeping_of stock.old }
{
    history.facts();
    let Some((id, pending_message)) = history.assigned(shelf.number()) else {
        unreachable!()
    };
    let Some(kind_version) = wanted else {
        let words = pending_message.words.as_slice();
        let assigned = shelf.assign_copy(id, pending_message.to, pending_message.entry, words);
        if assigned.is_err() {
            return Err(AllocError);
        }
        return Ok(());
    };
    let Ok(message) = pending_message.copy(alloc, id) else {
        return Err(AllocError);
    };
    let counts = history.element(message.to);
    if assign_newcomer(shelf, stock, kind_version, counts, message).is_err() {
        return Err(AllocError);
    }
    Ok(())
}

/// Adds the receiver's delivery on the shelf to the history, with its sends and reply, and settles
/// it. An object that it destroyed is retired. It takes no memory. The only refusal is `Halted`:
/// then nothing changes, and the output comes back.
pub fn commit<C: Chare>(
    history: &mut History,
    shelf: &mut Shelf<C>,
    stock: &mut Stock<C>,
    output: Output,
) -> Result<(), RefusedCommit>
    requires consistent { IsConsistentWorkplace (workplace_of history.old shelf.old stock.old) }
    requires made { HasMade shelf.old.phase output }
    ensures goes { Goes (store_with history.old stock.old) (core.Commit shelf.old.number)
        (commit_answer result) (store_with history.new stock.new) }
    ensures turns { Turns (workplace_of history.old shelf.old stock.old)
        (workplace_of history.new shelf.new stock.new) }
    ensures ok { OnOk result (shelf.new ≡ settled shelf.old) }
    ensures err { IfErr result (λ refused. refused ≡ record {
      refusal = refusals.Halted;
      output = output;
    }) }
    ensures same { OnErr result (workplace_of history.new shelf.new stock.new
        ≡ workplace_of history.old shelf.old stock.old) }
    ensures runs { (core_in history.old).halted ≡ false → IsOk result }
{
    history.facts();
    if let Err(refused) = history.commit(shelf.number(), output) {
        return Err(refused);
    }
    settle_shelf(shelf, stock);
    Ok(())
}

/// Adds the delivery as [`commit`] does, even if the store is halted. So an object that has reacted
/// already can be counted, and the store can be taken apart. It takes no memory.
pub fn finish<C: Chare>(
    history: &mut History,
    shelf: &mut Shelf<C>,
    stock: &mut Stock<C>,
    output: Output,
)
    requires consistent { IsConsistentWorkplace (workplace_of history.old shelf.old stock.old) }
    requires made { HasMade shelf.old.phase output }
    ensures goes { Goes (store_with history.old stock.old) (core.Finish shelf.old.number) Done
        (store_with history.new stock.new) }
    ensures turns { Turns (workplace_of history.old shelf.old stock.old)
        (workplace_of history.new shelf.new stock.new) }
    ensures shelf { shelf.new ≡ settled shelf.old }
{
    history.facts();
    history.finish(shelf.number(), output);
    settle_shelf(shelf, stock);
}

/// Releases the assigned message, in the history and on the shelf. The blank of a construction goes
/// back to the stock. It takes no memory.
pub fn release<C: Chare>(history: &mut History, shelf: &mut Shelf<C>, stock: &mut Stock<C>)
    requires consistent { IsConsistentWorkplace (workplace_of history.old shelf.old stock.old) }
    requires assigned { is_assigned shelf.old.phase ≡ true }
    ensures goes { Goes (store_with history.old stock.old) (core.Release shelf.old.number) Done
        (store_with history.new stock.new) }
    ensures turns { Turns (workplace_of history.old shelf.old stock.old)
        (workplace_of history.new shelf.new stock.new) }
    ensures shelf { shelf.new ≡ record shelf.old { phase = phases.Idle } }
{
    history.facts();
    history.release(shelf.number());
    release_shelf(shelf, stock);
}
