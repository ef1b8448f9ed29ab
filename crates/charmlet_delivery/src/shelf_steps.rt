//! Moves of objects between the stock and a shelf, and retirement.

ghost use Rattle.std.specs.Prelude.{◌≡◌, ◌==◌, if◌then◌else◌, IfErr, None, OnErr, OnOk, Some};
ghost use Rattle.std.specs.BTreeMap.{is_at};
ghost use Rattle.std.specs.Map.{lookup};
ghost use Rattle.charmlet_model.specs.Core.{with_given, with_taken};
ghost use Rattle.charmlet_model.specs.KindVersion.{kind_of_version};
ghost use Rattle.charmlet_model.specs.Names.{elem_cmp};
ghost use Rattle.charmlet_model.specs.declared.TheConstants.{CONSTRUCT};
ghost use Rattle.charmlet_model.specs.declared.refusal.Refusal.TheVariants as refusals;
ghost use Rattle.charmlet_shelf.specs.Due.{newcomer_due};
ghost use Rattle.charmlet_shelf.specs.Shelf.{HasCounts, released, settled};
ghost use Rattle.charmlet_shelf.specs.declared.phase.Phase.TheVariants as phases;
ghost use Rattle.charmlet_stock.specs.Stock.{blanks_in, keeping_of, supplied_to};
ghost use Rattle.charmlet_delivery.specs.UnderWay.{blank_in};
ghost use Rattle.charmlet_delivery.specs.Workplace.{IsWithin, held_in};

use charmlet_chare::Chare;
use charmlet_history::Element;
use charmlet_model::{KindVersion, Message, Refusal, Resident};
use charmlet_shelf::Shelf;
use charmlet_stock::Stock;

/// Assigns a message to the element that it constructs, of this kind version and with these counts,
/// from a blank of the stock. `NoBlank` if the stock has none; otherwise `Memory`. If refused,
/// nothing changes.
pub fn assign_newcomer<C: Chare>(
    shelf: &mut Shelf<C>,
    stock: &mut Stock<C>,
    kind_version: KindVersion,
    counts: Element,
    message: Message,
) -> Result<(), Refusal>
    requires idle { shelf.old.phase ≡ phases.Idle }
    requires absent { lookup (is_at (elem_cmp message.to)) shelf.old.records ≡ None }
    requires constructs { message.entry ≡ CONSTRUCT }
    requires counts { HasCounts (record {
      state = None;
      sent = counts.sent;
      received = counts.received;
    }) }
    requires supply { IsWithin shelf.old stock.old }
    ensures ok { OnOk result (shelf.new ≡ record shelf.old {
      phase = phases.Assigned (newcomer_due message kind_version counts.sent counts.received);
    }) }
    ensures blanks { OnOk result (blanks_in stock.new
        ≡ with_taken (Some kind_version) (blanks_in stock.old)) }
    ensures err { IfErr result (λ refusal. refusal
        ≡ (if blanks_in stock.old (kind_of_version kind_version) == 0
        then refusals.NoBlank (kind_of_version kind_version) else refusals.Memory)) }
    ensures same { OnErr result ((shelf.new ≡ shelf.old)
        × (blanks_in stock.new ≡ blanks_in stock.old)) }
    ensures held { held_in shelf.new stock.new ≡ held_in shelf.old stock.old }
    ensures supplied { supplied_to stock.new ≡ supplied_to stock.old }
    ensures keeping { keeping_of stock.new ≡ keeping_of stock.old }
{
    let Some(object) = stock.take_as(kind_version) else {
        return Err(Refusal::NoBlank(kind_version.kind()));
    };
    let Element { sent, received, .. } = counts;
    let newcomer = Resident {
        object,
        sent,
        received,
    };
    match shelf.assign_new(message, newcomer) {
        Ok(()) => Ok(()),
        Err((_, _, newcomer)) => {
            stock.give_back(newcomer.object);
            Err(Refusal::Memory)
        }
    }
}

/// Releases the assigned message on the shelf, if there is one. The blank of a construction goes
/// back to the stock.
pub fn release_shelf<C: Chare>(shelf: &mut Shelf<C>, stock: &mut Stock<C>)
    requires { IsWithin shelf.old stock.old }
    ensures shelf { shelf.new ≡ record shelf.old { phase = released shelf.old.phase } }
    ensures blanks { blanks_in stock.new
        ≡ with_given (blank_in shelf.old.phase) (blanks_in stock.old) }
    ensures held { held_in shelf.new stock.new ≡ held_in shelf.old stock.old }
    ensures supplied { supplied_to stock.new ≡ supplied_to stock.old }
    ensures keeping { keeping_of stock.new ≡ keeping_of stock.old }
{
    if let Some(blank) = shelf.release() {
        stock.give_back(blank);
    }
}

/// Settles the performed delivery on the shelf, if there is one. An object that it destroyed is
/// retired.
pub fn settle_shelf<C: Chare>(shelf: &mut Shelf<C>, stock: &mut Stock<C>)
    requires { IsWithin shelf.old stock.old }
    ensures shelf { shelf.new ≡ settled shelf.old }
    ensures blanks { blanks_in stock.new ≡ blanks_in stock.old }
    ensures held { held_in shelf.new stock.new ≡ held_in shelf.old stock.old }
    ensures supplied { supplied_to stock.new ≡ supplied_to stock.old }
    ensures keeping { keeping_of stock.new ≡ keeping_of stock.old }
{
    if let Some(object) = shelf.settle() {
        stock.retire(object);
    }
}
