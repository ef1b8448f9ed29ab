//! Return of several replayers' objects, as blanks, to the stock from which they drew.

ghost use Rattle.std.specs.Prelude.{◌≡◌, ◌+◌, ◌≤◌, true};
ghost use Rattle.std.specs.List.{All, AllByRecursion};
ghost use Rattle.charmlet_model.specs.declared.kind.Kind as kinds;
ghost use Rattle.charmlet_migrate.specs.Moving.{IsCountedAmong, IsIdle};
ghost use Rattle.charmlet_stock.specs.ByKind.{for_all};
ghost use Rattle.charmlet_stock.specs.Stock.{blanks_in, keeping_of, supplied_to};
ghost use Rattle.charmlet_stock.specs.Absorption.Absorbed.{retired_in};
ghost use Rattle.charmlet_replay.specs.RestoredShard.{IsHeld};
ghost use Rattle.charmlet_replay.specs.Unused.{IsUnused};
ghost use Rattle.charmlet_merge.specs.Combined.{drawn_by_replayers};

use crate::Replayer;
use charmlet_chare::Chare;
use charmlet_replay::{RestoredShard, clear_shelf};
use charmlet_shelf::Shelf;
use charmlet_stock::{Stock, absorb};

/// Puts all objects of replayers, on whose shelves no delivery is under way, back into the stock
/// from which they drew, which kept its retired ones. Each object that was supplied to the stock is
/// a blank of it again, in whatever state, and from now on the stock drops retired objects. It
/// takes no memory.
pub fn reclaim_objects<C: Chare>(replayers: Vec<Replayer<C>>, stock: Stock<C>) -> Stock<C>
    requires held { AllByRecursion (λ replayer. IsHeld replayer.restored) replayers.items }
    requires shared { (kind : kinds.Kind) → supplied_to stock kind
        ≡ drawn_by_replayers replayers.items kind + blanks_in stock kind + retired_in stock kind }
    requires keeping { keeping_of stock ≡ for_all true }
    ensures unused { IsUnused result }
    ensures supplied { (kind : kinds.Kind) → supplied_to result kind
        ≡ supplied_to stock kind }
{
    let mut stock = stock;
    'replayers: for replayer in replayers {
        reclaim_replayer(replayer, &mut stock);
    }
    stock.take_back();
    stock.drop_retired();
    stock
}

/// Puts all objects of a replayer back into the stock from which it drew and in which they are out.
fn reclaim_replayer<C: Chare>(replayer: Replayer<C>, stock: &mut Stock<C>)
    requires held { IsHeld replayer.restored }
    requires room { (kind : kinds.Kind) → supplied_to replayer.restored.stock kind
        + blanks_in stock.old kind + retired_in stock.old kind ≤ supplied_to stock.old kind }
    ensures back { (kind : kinds.Kind) → blanks_in stock.new kind + retired_in stock.new kind
        ≡ supplied_to replayer.restored.stock kind + blanks_in stock.old kind
        + retired_in stock.old kind }
    ensures supplied { (kind : kinds.Kind) → supplied_to stock.new kind
        ≡ supplied_to stock.old kind }
    ensures keeping { keeping_of stock.new ≡ keeping_of stock.old }
{
    let Replayer { restored, .. } = replayer;
    let RestoredShard {
        shelves,
        stock: source,
        ..
    } = restored;
    absorb(gather(shelves, source), stock);
}

/// Takes all objects from shelves on which no delivery is under way, and puts them into the stock.
/// It takes no memory.
fn gather<C: Chare>(shelves: Vec<Shelf<C>>, mut stock: Stock<C>) -> Stock<C>
    requires idle { All IsIdle shelves.items }
    requires counted { IsCountedAmong shelves.items stock }
    requires keeping { keeping_of stock ≡ for_all true }
    ensures all { (kind : kinds.Kind) → blanks_in result kind + retired_in result kind
        ≡ supplied_to stock kind }
    ensures keeping { keeping_of result ≡ for_all true }
{
    for mut shelf in shelves {
        clear_shelf(&mut shelf, &mut stock);
    }
    stock
}
