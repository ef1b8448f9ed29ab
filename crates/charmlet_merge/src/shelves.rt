//! Shelves of a replayer that are taken from it.

ghost use Rattle.std.specs.Prelude.{◌≡◌, ◌<◌, length, if◌then◌else◌, slice_set};
ghost use Rattle.charmlet_merge.specs.Taken.{HaveTaken};

use charmlet_chare::Chare;
use charmlet_shelf::Shelf;

/// Puts the shelves of replayer `worker`'s processors, of `workers` replayers, into their places,
/// and drops its other ones.
pub(crate) fn take_shelves<C: Chare>(
    shelves: &mut Vec<Shelf<C>>,
    theirs: Vec<Shelf<C>>,
    worker: usize,
    workers: usize,
)
    requires some { 0 < workers }
    requires long { length shelves.old.items ≡ length theirs.items }
    ensures { HaveTaken worker workers shelves.old.items theirs.items shelves.new.items }
{
    let mut place = 0;
    for shelf in theirs {
        put_if(place % workers == worker, shelves, place, shelf);
        place += 1;
    }
}

/// Puts a shelf into its place if it is taken, and drops it otherwise.
fn put_if<C: Chare>(is_taken: bool, shelves: &mut Vec<Shelf<C>>, place: usize, shelf: Shelf<C>)
    requires { place < length shelves.old.items }
    ensures { shelves.new.items
        ≡ (if is_taken then slice_set shelves.old.items place shelf else shelves.old.items) }
{
    if is_taken {
        shelves[place] = shelf;
    }
}
