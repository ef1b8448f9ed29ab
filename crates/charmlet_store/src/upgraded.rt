//! Upgrades of stores to the newest versions of their kinds.

ghost use Rattle.std.specs.Prelude.{◌≡◌, []};
ghost use Rattle.std.specs.List.{All};
ghost use Rattle.charmlet_history.specs.Kept.{core_in};
ghost use Rattle.charmlet_history.specs.Opened.{upgraded_core};
ghost use Rattle.charmlet_migrate.specs.Moving.{IsIdle};
ghost use Rattle.charmlet_store.specs.Upgraded.{up_shelves};

use crate::store::Store;
use charmlet_chare::Chare;
use charmlet_shelf::Shelf;

impl<C: Chare> Store<C> {
    /// Brings a store in which nothing has happened since it opened forward to the newest versions
    /// of its kinds, each object by its own `upgrade`. It takes no memory.
    pub fn upgrade(&mut self)
        requires new { (core_in self.old.history).history ≡ [] }
        requires unassigned { (core_in self.old.history).assigned ≡ [] }
        ensures core { core_in self.new.history ≡ upgraded_core (core_in self.old.history) }
        ensures census { self.new.census ≡ self.old.census }
        ensures keeping { self.new.keeping ≡ self.old.keeping }
    {
        upgrade_shelves(&mut self.shelves);
        self.history.upgrade();
    }
}

/// Brings each object on the shelves forward to the newest version of its kind. No delivery may be
/// under way there. It takes no memory.
fn upgrade_shelves<C: Chare>(shelves: &mut Vec<Shelf<C>>)
    requires { All IsIdle shelves.old.items }
    ensures { shelves.new.items ≡ up_shelves shelves.old.items }
{
    for index in 0..shelves.len() {
        shelves[index].upgrade();
    }
}
