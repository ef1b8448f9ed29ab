//! How many blank objects are wanted, by kind.

use charmlet_model::{Kind, KindVersion};

/// How many blank objects of each kind are needed.
#[derive(Clone, Copy, Debug, PartialEq, Eq)]
pub struct Wanted {
    pub counters: u64,
    pub rings: u64,
    pub accounts: u64,
    pub sums: u64,
    pub trees: u64,
    pub tapes: u64,
}

impl Wanted {
    ghost use Rattle.std.specs.Prelude.{◌≡◌, ◌+◌, ◌<◌, ◌^◌, ◌==◌};
    ghost use Rattle.charmlet_model.specs.declared.kind.Kind.{Kind};
    ghost use Rattle.charmlet_recovery.specs.Blanks.{is_of, one_if};
    ghost use Rattle.charmlet_model.specs.Kind.{kind_number};
    ghost use Rattle.charmlet_recover.specs.Wanted.{blanks_in};

    /// No blank of any kind.
    pub(crate) fn none() -> Self
        ensures { (kind : Kind) → blanks_in result kind ≡ 0 }
    {
        Wanted {
            counters: 0,
            rings: 0,
            accounts: 0,
            sums: 0,
            trees: 0,
            tapes: 0,
        }
    }

    /// How many blanks of the kind are wanted.
    pub fn of(&self, kind: Kind) -> u64
        ensures { result ≡ blanks_in self.now kind }
    {
        match kind {
            Kind::Counter => self.counters,
            Kind::Ring => self.rings,
            Kind::Account => self.accounts,
            Kind::Sum => self.sums,
            Kind::Tree => self.trees,
            Kind::Tape => self.tapes,
        }
    }

    /// Counts one more blank of the kind version's kind, if a kind version is given.
    pub(crate) fn count(&mut self, made: Option<KindVersion>)
        requires { (kind : Kind) → blanks_in self.old kind + one_if (is_of kind made) < 2 ^ 64 }
        ensures { (kind : Kind) → blanks_in self.new kind ≡ blanks_in self.old kind
            + one_if (is_of kind made) }
    {
        match made {
            Some(kind_version) => self.count_one(kind_version.kind()),
            None => {}
        }
    }

    /// Counts one more blank of the kind.
    fn count_one(&mut self, kind: Kind)
        requires { blanks_in self.old kind + 1 < 2 ^ 64 }
        ensures { (other : Kind) → blanks_in self.new other ≡ blanks_in self.old other
            + one_if (kind_number other == kind_number kind) }
    {
        match kind {
            Kind::Counter => self.counters += 1,
            Kind::Ring => self.rings += 1,
            Kind::Account => self.accounts += 1,
            Kind::Sum => self.sums += 1,
            Kind::Tree => self.trees += 1,
            Kind::Tape => self.tapes += 1,
        }
    }

    /// The sum of both, kind by kind.
    pub(crate) fn plus(self, other: Wanted) -> Self
        requires { (kind : Kind) → blanks_in self kind + blanks_in other kind < 2 ^ 64 }
        ensures { (kind : Kind) → blanks_in result kind ≡ blanks_in self kind
            + blanks_in other kind }
    {
        Wanted {
            counters: self.counters + other.counters,
            rings: self.rings + other.rings,
            accounts: self.accounts + other.accounts,
            sums: self.sums + other.sums,
            trees: self.trees + other.trees,
            tapes: self.tapes + other.tapes,
        }
    }
}
