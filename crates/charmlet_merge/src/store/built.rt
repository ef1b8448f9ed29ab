//! The store that several replayers restored.

ghost use Rattle.std.specs.Prelude.{◌≡◌, ◌+◌, ◌≤◌, ◌^◌, ℕ, List, IfErr, IfOk};
ghost use Rattle.charmlet_model.specs.declared.kind.Kind as kinds;
ghost use Rattle.charmlet_model.specs.declared.logged.Logged as logs;
ghost use Rattle.charmlet_model.specs.Sound.{opened};
ghost use Rattle.charmlet_model.specs.World.{World};
ghost use Rattle.charmlet_record.specs.declared.positioned.Positioned as placed;
ghost use Rattle.charmlet_recovery.specs.Replays.{LogScan};
ghost use Rattle.charmlet_history.specs.Kept.{core_in};
ghost use Rattle.charmlet_stock.specs.Stock.{blanks_in, keeping_of, supplied_to};
ghost use Rattle.charmlet_store.specs.Store.{blanks_of, supplied_in};
ghost use Rattle.charmlet_replay.specs.Ready.{IsReady};
ghost use Rattle.charmlet_merge.specs.Combined.{IsJoinable, blanks_of_replayers};
ghost use Rattle.charmlet_merge.specs.Store.Done.{AreAllDone};

use crate::store::history::merged_opening;
use crate::{Replayer, reopen};
use charmlet_chare::Chare;
use charmlet_history::GhostWorld;
use charmlet_log_scan::ReplayWorld;
use charmlet_model::Manifest;
use charmlet_shelf::Shelf;
use charmlet_stock::Stock;
use charmlet_store::Store;
use std::alloc::Global;

/// The replayers, and the stock from which they drew, unchanged, after memory was refused for their
/// store.
#[derive(Drop)]
pub struct NotBuilt<C: Chare> {
    pub replayers: Vec<Replayer<C>>,
    pub stock: Stock<C>,
}

/// Builds the store that opens with the world after a log, whose tasks all replayers have done,
/// given its arrays, and the world of the log scan. The world came after `before` events, and is
/// that of the file with this generation, whose log ends at this place. `shelves` are empty ones of
/// all processors, and the replayers' stocks go back into the one from which they drew.
///
/// Only if memory is refused, the replayers and the stock come back, unchanged.
pub fn build_store<C: Chare>(
    alloc: Global,
    seen: GhostWorld,
    manifest: Manifest,
    kept: &ReplayWorld,
    replayers: Vec<Replayer<C>>,
    shelves: Vec<Shelf<C>>,
    stock: Stock<C>,
    before: u64,
    generation: u64,
    log_end: u64,
) -> Result<Store<C>, NotBuilt<C>>
    requires done { (w : World) × (count : ℕ) × (scan : LogScan)
        × (log : List (placed.Positioned logs.Logged))
        × AreAllDone w count scan log seen.world kept.now replayers.items }
    requires manifest { seen.world.manifest ≡ manifest }
    requires joinable { IsJoinable kept.now.processors seen.world.records replayers.items
        shelves.items
        stock }
    requires before { before ≤ 2 ^ 40 }
    requires some_generation { 1 ≤ generation }
    requires few_generations { generation ≤ 2 ^ 40 }
    ensures ready { IfOk result (λ store. IsReady store) }
    ensures core { IfOk result (λ store. core_in store.history
        ≡ opened kept.now.processors seen.world before generation log_end) }
    ensures blanks { IfOk result (λ store. (kind : kinds.Kind) → blanks_of store kind
        ≡ blanks_of_replayers replayers.items kind + blanks_in stock kind) }
    ensures supplied { IfOk result (λ store. (kind : kinds.Kind) → supplied_in store kind
        ≡ supplied_to stock kind) }
    ensures keeping { IfOk result (λ store. store.keeping ≡ keeping_of stock) }
    ensures err { IfErr result (λ back. (back.replayers.items ≡ replayers.items)
        × (back.stock ≡ stock)) }
{
    let processors = kept.processors();
    match merged_opening(alloc, seen, manifest, kept, replayers.as_slice()) {
        Ok(opening) => Ok(reopen(
            alloc, opening, replayers, shelves, stock, processors, before, generation, log_end,
        )),
        Err(_) => Err(NotBuilt { replayers, stock }),
    }
}
