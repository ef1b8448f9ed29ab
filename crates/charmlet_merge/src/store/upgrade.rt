//! The upgrade of a restored store to the newest versions of its kinds.

ghost use Rattle.std.specs.Prelude.{◌≡◌, ℕ};
ghost use Rattle.charmlet_image.specs.Images.{Saved};
ghost use Rattle.charmlet_model.specs.Core.{Blanks};
ghost use Rattle.charmlet_store.specs.Store.{supplied_in};
ghost use Rattle.charmlet_replay.specs.Ready.{IsReady};
ghost use Rattle.charmlet_replay.specs.Replayed.{IsRepeated, IsReplayed};

use charmlet_chare::Chare;
use charmlet_replay::Replayed;
use charmlet_store::Store;

/// Brings the store of a half, in the kind versions that are written there, forward to the newest
/// ones. Its stock keeps retired objects if it did before. It takes no memory.
pub fn upgrade_store<C: Chare>(store: Store<C>) -> Replayed<C>
    requires ready { IsReady store }
    ensures ok { (processors : ℕ) (given : Blanks) (s : Saved) →
        IsRepeated processors given s store → IsReplayed processors given s result }
    ensures supplied { supplied_in result.store ≡ supplied_in store }
    ensures keeping { result.store.keeping ≡ store.keeping }
{
    let mut store = store;
    let is_current = store.history.manifest().is_newest();
    store.upgrade();
    Replayed { store, is_current }
}
