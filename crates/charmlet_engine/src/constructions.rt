//! Blanks that pending messages want.

ghost use Rattle.std.specs.Prelude.{◌≡◌};
ghost use Rattle.charmlet_history.specs.Kept.{core_in};
ghost use Rattle.charmlet_history.specs.Wanting.{wanted_in};
ghost use Rattle.charmlet_engine.specs.Constructions.{AreConstructions};
ghost use Rattle.charmlet_engine.specs.Engine.{core_of};

use crate::engine::Engine;
use charmlet_chare::Chare;
use charmlet_disk::Disk;
use charmlet_history::History;
use charmlet_model::Kind;
use charmlet_recover::Wanted;

impl<D: Disk, C: Chare> Engine<D, C> {
    /// How many pending messages want a blank of this kind: those that construct an element that
    /// isn't there. Each takes a blank from the stock when it is delivered, and is refused
    /// `NoBlank` if the stock has none. A stock isn't kept on the disk, so after a restart it holds
    /// only the handed-in blanks that the restart left.
    pub fn wanted_blanks(&self, kind: Kind) -> usize
        ensures { result ≡ wanted_in (core_of self.now) kind }
    {
        self.store.history.wanted_blanks(kind)
    }

    /// How many blanks of each kind the pending messages want: those that construct an element that
    /// isn't there. It takes no memory.
    pub fn constructions(&self) -> Wanted
        ensures { AreConstructions (core_of self.now) result }
    {
        constructions_in(&self.store.history)
    }
}

/// How many blanks of each kind the pending messages of a history want.
pub(crate) fn constructions_in(history: &History) -> Wanted
    ensures { AreConstructions (core_in history.now) result }
{
    Wanted {
        counters: history.wanted_blanks(Kind::Counter) as u64,
        rings: history.wanted_blanks(Kind::Ring) as u64,
        accounts: history.wanted_blanks(Kind::Account) as u64,
        sums: history.wanted_blanks(Kind::Sum) as u64,
        trees: history.wanted_blanks(Kind::Tree) as u64,
        tapes: history.wanted_blanks(Kind::Tape) as u64,
    }
}
