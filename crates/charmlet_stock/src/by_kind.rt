//! Tables with one value for each kind.

use charmlet_model::Kind;

/// A value for each kind of objects.
#[derive(Clone, Copy, Debug, PartialEq, Eq, Drop)]
pub struct ByKind<T> {
    pub counters: T,
    pub rings: T,
    pub accounts: T,
    pub sums: T,
    pub trees: T,
    pub tapes: T,
}

impl<T> ByKind<T> {
    ghost use Rattle.std.specs.Prelude.{◌≡◌};
    ghost use Rattle.charmlet_stock.specs.ByKind.{at};

    /// The value of the kind.
    pub fn get(&self, kind: Kind) -> &T
        ensures { result.now ≡ at self.now kind }
    {
        match kind {
            Kind::Counter => &self.counters,
            Kind::Ring => &self.rings,
            Kind::Account => &self.accounts,
            Kind::Sum => &self.sums,
            Kind::Tree => &self.trees,
            Kind::Tape => &self.tapes,
        }
    }
}
