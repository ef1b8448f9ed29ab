//! Lacking blanks.

ghost use Rattle.std.specs.Prelude.{◌≡◌, option_map};
ghost use Rattle.charmlet_model.specs.declared.refusal.Refusal.TheVariants as refusals;
ghost use Rattle.charmlet_recovery.specs.Blanks.{least_short, short_of};
ghost use Rattle.charmlet_recover.specs.Wanted.{blanks_in};
ghost use Rattle.charmlet_stock.specs.Stock as stocks;

use crate::wanted::Wanted;
use charmlet_chare::Chare;
use charmlet_model::{Kind, Refusal};
use charmlet_stock::Stock;

/// The kind, and how many blanks of it are wanted, if the stock has fewer; otherwise the lack of
/// later kinds.
fn short_of<C: Chare>(
    stock: &Stock<C>,
    wanted: &Wanted,
    kind: Kind,
    later: Option<(Kind, u64)>,
) -> Option<(Kind, u64)>
    ensures { result ≡ short_of (stocks.blanks_in stock.now) (blanks_in wanted.now) kind later }
{
    let count = wanted.of(kind);
    if stock.census().get(kind).in_stock < count {
        Some((kind, count))
    } else {
        later
    }
}

/// The least kind of which the stock has fewer blanks than are wanted, and how many of it are
/// wanted in all.
fn least_short<C: Chare>(stock: &Stock<C>, wanted: &Wanted) -> Option<(Kind, u64)>
    ensures { result ≡ least_short (stocks.blanks_in stock.now) (blanks_in wanted.now) }
{
    let short = short_of(stock, wanted, Kind::Tape, None);
    let short = short_of(stock, wanted, Kind::Tree, short);
    let short = short_of(stock, wanted, Kind::Sum, short);
    let short = short_of(stock, wanted, Kind::Account, short);
    let short = short_of(stock, wanted, Kind::Ring, short);
    short_of(stock, wanted, Kind::Counter, short)
}

/// The refusal if more blanks are wanted than the stock has: `BlanksWanted`, with the least such
/// kind and how many of it are wanted in all. It is `None` if the stock has enough of each kind.
pub fn lacking<C: Chare>(stock: &Stock<C>, wanted: &Wanted) -> Option<Refusal>
    ensures { result ≡ option_map (λ lack. refusals.BlanksWanted lack.0 lack.1)
        (least_short (stocks.blanks_in stock.now) (blanks_in wanted.now)) }
{
    match least_short(stock, wanted) {
        Some((kind, count)) => Some(Refusal::BlanksWanted { kind, count }),
        None => None,
    }
}
