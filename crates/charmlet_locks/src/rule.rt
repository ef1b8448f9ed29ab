//! The invariant of the locks between any two steps, and the facts that each step tells.

ghost use Rattle.std.specs.Prelude.{◌≡◌, ◌<◌, ◌^◌};
ghost use Rattle.charmlet_locks.specs.Home.{word_of};

use atomic_table::{Play, Table, TableRule};
use std::alloc::Global;
use std::marker::PhantomData;

/// The number of each value of a type. Only contracts see it.
pub trait Numbering<T> {
    ghost use Rattle.std.specs.Prelude.{ℕ};

    ghost number: { T → ℕ };
}

/// The words of the locks, and the values.
pub(crate) type Places<T, N> = Table<Option<T>, GhostPlaces, (), AtHome<N>, Global>;

/// The word of a free lock.
pub(crate) const FREE: u64 = 0;

/// The word of a taken lock.
pub(crate) const TAKEN: u64 = 1;

/// The word of a taken lock for which a thread may wait.
pub(crate) const AWAITED: u64 = 2;

/// The index of the word of a place's lock; for the number of places, it is the number of words.
pub(crate) fn word_index(place: usize) -> usize
    requires { place < 2 ^ 32 }
    ensures { result ≡ word_of place }
{
    16 * place + 16
}

/// A seat's knowledge of the places. No value of this type is ever made.
pub enum GhostPlaces {
    Nothing,
    /// All places are vacant.
    Vacant,
    /// No longer all places are vacant.
    Begun,
}

/// If a lock is free, the value with the number of its place is there.
pub struct AtHome<N> {
    names: PhantomData<N>,
}

impl<T, N: Numbering<T>> TableRule<Option<T>, GhostPlaces, ()> for AtHome<N> {
    ghost use Rattle.charmlet_locks.specs.Home.{IsKept};
    ghost use Rattle.charmlet_locks.specs.declared.rule.GhostPlaces.TheVariants.{Vacant};

    ghost holds = { λ _ s. IsKept N.number s };

    ghost first = { λ _. Vacant };
}

/// All places are taken, to be filled.
pub(crate) struct Begin;

impl<T> Play<Option<T>, GhostPlaces> for Begin {
    ghost use Rattle.charmlet_locks.specs.Home.{Begins};

    ghost then = { Begins };
}

/// A new seat.
pub(crate) struct Sit;

impl<T> Play<Option<T>, GhostPlaces> for Sit {
    ghost use Rattle.charmlet_locks.specs.Home.{Sits};

    ghost then = { Sits };
}

/// A free lock is taken.
pub(crate) struct Take<N> {
    names: PhantomData<N>,
}

impl<T, N: Numbering<T>> Play<Option<T>, GhostPlaces> for Take<N> {
    ghost use Rattle.charmlet_locks.specs.Home.{Takes};

    ghost then = { Takes N.number };
}

/// A note is made that a thread may wait.
pub(crate) struct Note;

impl<T> Play<Option<T>, GhostPlaces> for Note {
    ghost use Rattle.charmlet_locks.specs.Home.{Stays};

    ghost then = { Stays };
}

/// A value is given back.
pub(crate) struct Give;

impl<T> Play<Option<T>, GhostPlaces> for Give {
    ghost use Rattle.charmlet_locks.specs.Home.{Gives};

    ghost then = { Gives };
}
