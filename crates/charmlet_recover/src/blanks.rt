//! Blanks for a restart.

ghost use Rattle.std.specs.Prelude.{◌≡◌, IfErr, IfOk};
ghost use Rattle.charmlet_model.specs.declared.kind.Kind.{Kind};
ghost use Rattle.charmlet_model.specs.Shelves.{count_of};
ghost use Rattle.charmlet_stock.specs.Stock.{supplied_to};
ghost use Rattle.charmlet_replay.specs.Unused.{IsUnused};

use charmlet_chare::Chare;
use charmlet_stock::Stock;
use std::alloc::Global;

/// A stock of these blanks, all unused, for a restart. If memory is refused, or there are more than
/// 2^64-1 of a kind, it hands all of them back.
pub fn stock_from_objects<C: Chare>(alloc: Global, blanks: Vec<C>) -> Result<Stock<C>, Vec<C>>
    ensures unused { IfOk result (λ stock. IsUnused stock) }
    ensures supplied { IfOk result (λ stock. (kind : Kind) →
        supplied_to stock kind ≡ count_of C.state blanks.items kind) }
    ensures back { IfErr result (λ back. back.items ≡ blanks.items) }
{
    let mut stock = Stock::new(alloc);
    stock.supply(blanks)?;
    Ok(stock)
}
