//! The objects that a script supplies.

ghost use Rattle.std.specs.Prelude.{◌≡◌, ◌↔◌, ◌≤◌, true, IfOk};
ghost use Rattle.charmlet_model.specs.declared.kind.Kind.{Kind};
ghost use Rattle.charmlet_model.specs.Shelves.{count_of};
ghost use Rattle.charmlet_script.specs.Script.{blanks_of};
ghost use Rattle.charmlet_engine.specs.Wanted as wants;
ghost use Rattle.charmlet_script_output.specs.Supplied.{blanks_left};

use charmlet_chare::Chare;
use charmlet_engine::Wanted;
use charmlet_model::Kind;
use charmlet_script::Script;
use charmlet_stock::{Stock, count_of};
use std::alloc::{AllocError, Global};

/// A stock with these objects. It fails only when out of memory.
pub fn stock_from_supplies<C: Chare>(alloc: Global, objects: Vec<C>) -> Result<Stock<C>, AllocError>
    ensures { IfOk result (λ stock. (kind : Kind) →
        blanks_left stock kind ≡ count_of C.state objects.items kind) }
{
    let mut stock = Stock::new(alloc);
    if stock.supply(objects).is_err() {
        return Err(AllocError);
    }
    Ok(stock)
}

/// How many blanks of each kind the script's lines supply.
pub fn supplied_by(script: &Script) -> Wanted
    ensures { (kind : Kind) → wants.blanks_in result kind ≡ blanks_of kind script.now.lines }
{
    Wanted {
        counters: script.blanks(Kind::Counter),
        rings: script.blanks(Kind::Ring),
        accounts: script.blanks(Kind::Account),
        sums: script.blanks(Kind::Sum),
        trees: script.blanks(Kind::Tree),
        tapes: script.blanks(Kind::Tape),
    }
}

/// Whether there are at least as many objects of each kind as are wanted.
pub fn has_enough<C: Chare>(wanted: &Wanted, objects: &[C]) -> bool
    ensures { (result ≡ true) ↔ ((kind : Kind) →
        wants.blanks_in wanted.now kind ≤ count_of C.state objects.now kind) }
{
    for kind in &Kind::ALL {
        if (count_of(objects, *kind) as u64) < wanted.of(*kind) {
            return false;
        }
    }
    true
}
