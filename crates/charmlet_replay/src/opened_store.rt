//! Stores that open with a world of restored elements.

ghost use Rattle.std.specs.Prelude.{◌≡◌, ◌≤◌, ◌^◌};
ghost use Rattle.charmlet_model.specs.Fit.{IsFit};
ghost use Rattle.charmlet_model.specs.Sound.{opened};
ghost use Rattle.charmlet_history.specs.Kept.{core_in};
ghost use Rattle.charmlet_history.specs.Opened.{IsOpening};
ghost use Rattle.charmlet_store.specs.Moving.{IsCountedAmong};
ghost use Rattle.charmlet_stock.specs.Stock.{census_of, keeping_of};
ghost use Rattle.charmlet_shard.specs.Home.{AreHome};
ghost use Rattle.charmlet_replay.specs.Ready.{IsReady};

use charmlet_chare::Chare;
use charmlet_history::{History, Opening};
use charmlet_shelf::Shelf;
use charmlet_stock::Stock;
use charmlet_store::Store;
use std::alloc::Global;

/// Opens a store with this world, whose elements stand on the shelves of their homes. The world
/// came after `before` events, and is that of the file with this generation, whose log ends at this
/// place. It takes no memory.
pub fn open_store<C: Chare>(
    alloc: Global,
    opening: Opening,
    shelves: Vec<Shelf<C>>,
    stock: Stock<C>,
    before: u64,
    generation: u64,
    log_end: u64,
) -> Store<C>
    requires opening { IsOpening opening }
    requires fit { IsFit opening.world }
    requires before { before ≤ 2 ^ 40 }
    requires some_generation { 1 ≤ generation }
    requires few_generations { generation ≤ 2 ^ 40 }
    requires home { AreHome opening.processors opening.world.records shelves.items }
    requires counted { IsCountedAmong shelves.items stock }
    ensures ready { IsReady result }
    ensures core { core_in result.history
        ≡ opened opening.processors opening.world before generation log_end }
    ensures census { result.census ≡ census_of stock }
    ensures keeping { result.keeping ≡ keeping_of stock }
{
    let history = History::open(alloc, opening, before, generation, log_end);
    Store {
        alloc,
        history,
        shelves,
        stock,
    }
}
