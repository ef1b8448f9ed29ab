//! The knowledge of the authority and its fragments, and the steps that keep them equal.

use atomic_table::{Join, Play, Split, TableRule};
use std::collections::LinkedList;
use std::marker::{Brand, PhantomData};

/// The name of one authority, so that fragments of two authorities can't be mixed up. The call that
/// makes an authority picks its name.
pub trait AuthorityName {
    ghost use Rattle.atomic_table.specs.Seated.{TableId};

    ghost table: { TableId };
}

impl AuthorityName for Brand {
    ghost use Rattle.charmlet_locks.specs.GhostAuth.Agreement.{no_table};

    ghost table = { no_table };
}

/// A seat's knowledge at the word: the authority knows all values, and a fragment its place and its
/// value. No value of this type is ever made.
pub struct View<D> {
    pub keeps: bool,
    pub values: LinkedList<Option<D>>,
    pub holds: bool,
    pub number: u64,
    pub value: Option<D>,
}

/// At most one seat is the authority's, and each fragment has the authority's value at its place.
pub struct Equal;

impl<D> TableRule<D, View<D>, ()> for Equal {
    ghost use Rattle.std.specs.Prelude.{[]};
    ghost use Rattle.charmlet_locks.specs.GhostAuth.Agreement.{Agrees, keeper};

    ghost holds = { λ _ s. Agrees s.views };

    ghost first = { λ _. keeper [] };
}

/// The authority takes a fragment in.
pub struct Meet;

impl<D> Join<View<D>> for Meet {
    ghost use Rattle.charmlet_locks.specs.GhostAuth.Agreement.{met, nobody};

    ghost both = { met };

    ghost spent = { nobody };
}

/// The authority gives a fragment out.
pub struct Part;

impl<D> Split<View<D>> for Part {
    ghost use Rattle.charmlet_locks.specs.GhostAuth.Agreement.{keeper, holder};

    ghost left = { λ v. keeper v.values };

    ghost right = { λ v. holder v.number v.value };
}

/// A new value is added behind the others.
pub struct Add;

impl<D> Play<D, View<D>> for Add {
    ghost use Rattle.charmlet_locks.specs.GhostAuth.Agreement.{Adds};

    ghost then = { Adds };
}

/// The authority and the fragment that it took in have the same value. Both take on a new one, if
/// one is given.
pub struct Update;

impl<D> Play<D, View<D>> for Update {
    ghost use Rattle.charmlet_locks.specs.GhostAuth.Agreement.{Updates};

    ghost then = { Updates };
}

/// The authority and the fragment that it took in have the same value, and the fragment ends.
pub struct End;

impl<D> Play<D, View<D>> for End {
    ghost use Rattle.charmlet_locks.specs.GhostAuth.Agreement.{Ends};

    ghost then = { Ends };
}

/// The name of a value that only contracts see. The call that writes the value picks its name.
pub trait GhostValue<D> {
    ghost value: { D };
}

/// Like `Update`, with the value that `N` names.
pub struct UpdateTo<N> {
    names: PhantomData<N>,
}

impl<D, N: GhostValue<D>> Play<D, View<D>> for UpdateTo<N> {
    ghost use Rattle.charmlet_locks.specs.GhostAuth.Agreement.{UpdatesTo};

    ghost then = { UpdatesTo N.value };
}
