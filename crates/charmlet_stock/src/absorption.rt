//! Absorption of a stock by the stock from which it drew its objects.

ghost use Rattle.std.specs.Prelude.{◌≡◌, ◌+◌, ◌<◌, ◌≤◌, IfSome, None, true};
ghost use Rattle.charmlet_model.specs.declared.kind.Kind as kinds;
ghost use Rattle.charmlet_stock.specs.ByKind.{for_all};
ghost use Rattle.charmlet_stock.specs.Stock.{blanks_in, census_of, keeping_of, supplied_to, tally_in};
ghost use Rattle.charmlet_stock.specs.Absorption.Absorbed.{HasRoomThere, IsAbsorbed, KeepsRest, all_blanks, retired_in};

use crate::Stock;
use charmlet_chare::Chare;
use charmlet_model::Kind;

/// Puts all objects of a stock, which kept its retired ones, back into the stock from which it drew
/// them and in which they are out. Its blanks go back as blanks, and its retired objects as retired
/// ones. It takes no memory.
pub fn absorb<C: Chare>(source: Stock<C>, stock: &mut Stock<C>)
    requires room { (kind : kinds.Kind) → HasRoomThere source stock.old kind }
    requires keeping { keeping_of source ≡ for_all true }
    ensures absorbed { IsAbsorbed source stock.old stock.new }
{
    let mut source = source;
    'blanks: while let Some(kind) = kind_left(&source) {
        give_one(&mut source, stock, kind);
    }
    source.take_back();
    'retired: while let Some(kind) = kind_left(&source) {
        retire_one(&mut source, stock, kind);
    }
}

/// The first kind of which a stock has a blank.
fn kind_left<C: Chare>(stock: &Stock<C>) -> Option<Kind>
    ensures some { IfSome result (λ kind. 0 < blanks_in stock.now kind) }
    ensures none { result ≡ None → (kind : kinds.Kind) → blanks_in stock.now kind ≡ 0 }
{
    let census = stock.census();
    if census.counters.in_stock > 0 {
        return Some(Kind::Counter);
    }
    if census.rings.in_stock > 0 {
        return Some(Kind::Ring);
    }
    if census.accounts.in_stock > 0 {
        return Some(Kind::Account);
    }
    if census.sums.in_stock > 0 {
        return Some(Kind::Sum);
    }
    if census.trees.in_stock > 0 {
        return Some(Kind::Tree);
    }
    if census.tapes.in_stock > 0 {
        return Some(Kind::Tape);
    }
    None
}

/// Puts a blank of the kind back into the other stock, as a blank.
fn give_one<C: Chare>(source: &mut Stock<C>, stock: &mut Stock<C>, kind: Kind)
    requires some { 0 < blanks_in source.old kind }
    requires room { HasRoomThere source.old stock.old kind }
    ensures blanks { (k : kinds.Kind) → blanks_in source.new k + blanks_in stock.new k
        ≡ blanks_in source.old k + blanks_in stock.old k }
    ensures retired { (k : kinds.Kind) → retired_in stock.new k ≡ retired_in stock.old k }
    ensures fewer { all_blanks (census_of source.new) < all_blanks (census_of source.old) }
    ensures rest { KeepsRest source.old stock.old source.new stock.new }
{
    let Some(object) = source.take(kind) else {
        unreachable!()
    };
    stock.give_back(object);
}

/// Puts a blank of the kind back into the other stock, as a retired one.
fn retire_one<C: Chare>(source: &mut Stock<C>, stock: &mut Stock<C>, kind: Kind)
    requires some { 0 < blanks_in source.old kind }
    requires room { HasRoomThere source.old stock.old kind }
    ensures blanks { (k : kinds.Kind) → blanks_in stock.new k ≡ blanks_in stock.old k }
    ensures retired { (k : kinds.Kind) → blanks_in source.new k + retired_in stock.new k
        ≡ blanks_in source.old k + retired_in stock.old k }
    ensures fewer { all_blanks (census_of source.new) < all_blanks (census_of source.old) }
    ensures rest { KeepsRest source.old stock.old source.new stock.new }
{
    let Some(object) = source.take(kind) else {
        unreachable!()
    };
    stock.retire(object);
}
