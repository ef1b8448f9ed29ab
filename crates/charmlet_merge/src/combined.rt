//! Merge of several replayers into one.

ghost use Rattle.std.specs.Prelude.{◌≡◌, ◌+◌, ◌<◌, List, length, sum_by, true};
ghost use Rattle.charmlet_model.specs.declared.kind.Kind as kinds;
ghost use Rattle.charmlet_model.specs.declared.names.Elem as names;
ghost use Rattle.charmlet_model.specs.declared.state.Record.{Record};
ghost use Rattle.charmlet_migrate.specs.Moving.{IsCountedAmong};
ghost use Rattle.charmlet_stock.specs.ByKind.{for_all};
ghost use Rattle.charmlet_stock.specs.Stock.{blanks_in, keeping_of, supplied_to};
ghost use Rattle.charmlet_stock.specs.Absorption.Absorbed.{HasRoomThere, IsAbsorbed};
ghost use Rattle.charmlet_replay.specs.Home.{AreHome};
ghost use Rattle.charmlet_merge.specs.Combined.{IsJoinable, blanks_of_replayers};
ghost use Rattle.charmlet_merge.specs.Taken.{HaveTaken};

use crate::shelves::take_shelves;
use charmlet_chare::Chare;
use charmlet_replay::RestoredShard;
use charmlet_replayers::Replayer;
use charmlet_shelf::Shelf;
use charmlet_stock::{Stock, absorb};

/// The shelves of all processors, and the stock from which all objects on them came.
#[derive(Drop)]
pub struct Combined<C: Chare> {
    pub shelves: Vec<Shelf<C>>,
    pub stock: Stock<C>,
}

/// Takes the shelf of each processor from its replayer, and puts the stocks of all workers back
/// into the one from which they drew. Replayer w has the processors p with p mod workers = w.
/// `shelves` are empty ones of all processors. It takes no memory.
pub fn merge_replayers<C: Chare>(
    replayers: Vec<Replayer<C>>,
    shelves: Vec<Shelf<C>>,
    stock: Stock<C>,
    processors: u16,
) -> Combined<C>
    requires joinable { (records : List (names.Elem × Record))
        × IsJoinable processors records replayers.items shelves.items stock }
    ensures home { (records : List (names.Elem × Record)) →
        IsJoinable processors records replayers.items shelves.items stock →
        AreHome processors records result.shelves.items }
    ensures counted { IsCountedAmong result.shelves.items result.stock }
    ensures blanks { (kind : kinds.Kind) → blanks_in result.stock kind
        ≡ blanks_of_replayers replayers.items kind + blanks_in stock kind }
    ensures supplied { (kind : kinds.Kind) → supplied_to result.stock kind
        ≡ supplied_to stock kind }
    ensures keeping { keeping_of result.stock ≡ keeping_of stock }
{
    let workers = replayers.len();
    let mut shelves = shelves;
    let mut stock = stock;
    let mut worker = 0;
    'replayers: for replayer in replayers {
        merge_replayer(&mut shelves, &mut stock, replayer, worker, workers);
        worker += 1;
    }
    Combined { shelves, stock }
}

/// Takes the shelves of a replayer's processors, and puts its stock back into the one from which it
/// drew.
fn merge_replayer<C: Chare>(
    shelves: &mut Vec<Shelf<C>>,
    stock: &mut Stock<C>,
    replayer: Replayer<C>,
    worker: usize,
    workers: usize,
)
    requires some { 0 < workers }
    requires long { length shelves.old.items ≡ length replayer.restored.shelves.items }
    requires room { (kind : kinds.Kind) → HasRoomThere replayer.restored.stock stock.old kind }
    requires keeping { keeping_of replayer.restored.stock ≡ for_all true }
    ensures taken { HaveTaken worker workers shelves.old.items replayer.restored.shelves.items
        shelves.new.items }
    ensures absorbed { IsAbsorbed replayer.restored.stock stock.old stock.new }
{
    let Replayer { restored, .. } = replayer;
    let RestoredShard {
        shelves: theirs,
        stock: source,
        ..
    } = restored;
    take_shelves(shelves, theirs, worker, workers);
    absorb(source, stock);
}
