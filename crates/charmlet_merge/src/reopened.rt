//! The store of all replayers together.

ghost use Rattle.std.specs.Prelude.{◌≡◌, ◌+◌, ◌≤◌, ◌^◌};
ghost use Rattle.charmlet_model.specs.declared.kind.Kind as kinds;
ghost use Rattle.charmlet_model.specs.Fit.{IsFit};
ghost use Rattle.charmlet_model.specs.Sound.{opened};
ghost use Rattle.charmlet_history.specs.Kept.{core_in};
ghost use Rattle.charmlet_history.specs.Opened.{IsOpening};
ghost use Rattle.charmlet_stock.specs.Stock.{blanks_in, keeping_of, supplied_to};
ghost use Rattle.charmlet_store.specs.Store.{blanks_of, supplied_in};
ghost use Rattle.charmlet_replay.specs.Ready.{IsReady};
ghost use Rattle.charmlet_merge.specs.Combined.{IsJoinable, blanks_of_replayers};

use crate::combined::merge_replayers;
use charmlet_chare::Chare;
use charmlet_history::{History, Opening};
use charmlet_replayers::Replayer;
use charmlet_shelf::Shelf;
use charmlet_stock::Stock;
use charmlet_store::Store;
use std::alloc::Global;

/// Opens a store with this world, whose elements several replayers have. The world came after
/// `before` events, and is that of the file with this generation, whose log ends at this place.
/// `shelves` are empty ones of all processors, and the replayers' stocks go back into the one from
/// which they drew. It takes no memory.
pub fn reopen<C: Chare>(
    alloc: Global,
    opening: Opening,
    replayers: Vec<Replayer<C>>,
    shelves: Vec<Shelf<C>>,
    stock: Stock<C>,
    processors: u16,
    before: u64,
    generation: u64,
    log_end: u64,
) -> Store<C>
    requires opening { IsOpening opening }
    requires fit { IsFit opening.world }
    requires on { opening.processors ≡ processors }
    requires before { before ≤ 2 ^ 40 }
    requires some_generation { 1 ≤ generation }
    requires few_generations { generation ≤ 2 ^ 40 }
    requires joinable { IsJoinable processors opening.world.records replayers.items shelves.items
        stock }
    ensures ready { IsReady result }
    ensures core { core_in result.history
        ≡ opened opening.processors opening.world before generation log_end }
    ensures blanks { (kind : kinds.Kind) → blanks_of result kind
        ≡ blanks_of_replayers replayers.items kind + blanks_in stock kind }
    ensures supplied { (kind : kinds.Kind) → supplied_in result kind
        ≡ supplied_to stock kind }
    ensures keeping { result.keeping ≡ keeping_of stock }
{
    let joined = merge_replayers(replayers, shelves, stock, processors);
    let history = History::open(alloc, opening, before, generation, log_end);
    Store {
        alloc,
        history,
        shelves: joined.shelves,
        stock: joined.stock,
    }
}
