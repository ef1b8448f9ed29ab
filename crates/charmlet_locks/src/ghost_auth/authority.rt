//! The authority and its fragments.

ghost use Rattle.std.specs.Prelude.{◌≡◌, ℕ, List, [], ◌∷◌, ◌++◌, length, Some, None, slice_get, slice_set, IfOk};
ghost use Rattle.charmlet_locks.specs.GhostAuth.Agreement.{keeper};

use crate::ghost_auth::rule::{
    Add, AuthorityName, End, Equal, GhostValue, Meet, Part, Update, UpdateTo, View,
};
use atomic_table::{Badge, Seat, Table};
use std::alloc::{AllocError, Global};
use std::marker::{Model, PhantomData};
use std::mem;

/// The one atomic word that an authority and its fragments share.
type Shared<D> = Table<D, View<D>, (), Equal, Global>;

/// A new authority before it has its name. It has no value yet.
#[derive(Drop)]
pub struct UnnamedAuthority<D: Drop> {
    table: Shared<D>,
    seat: Seat<D, View<D>>,
    pub ghost fits: { (table.shared.table_id.words ≡ 1)
        × (seat.table_id ≡ table.shared.table_id) },
    pub ghost empty: { seat.me ≡ (keeper [], []) },
}

/// A list of values, which only contracts see. A place in it is `None` once its fragment was taken
/// back.
#[derive(Drop)]
pub struct Authority<D: Drop, B: AuthorityName> {
    table: Shared<D>,
    seat: Seat<D, View<D>>,
    name: PhantomData<B>,
}

impl<D: Drop, B: AuthorityName> Model for Authority<D, B> {
    ghost use Rattle.std.specs.Prelude.{◌≡◌, List, Option, [], true};

    ghost Value = { List (Option D) };

    ghost view = { λ s. s.seat.me.0.values };

    ghost invariant = { λ s. (s.table.shared.table_id ≡ B.table)
        × (s.table.shared.table_id.words ≡ 1) × (s.seat.table_id ≡ B.table)
        × (s.seat.me.1 ≡ []) × (s.seat.me.0.keeps ≡ true) };
}

/// A fragment of an authority, with one of its values. A contract sees its place in the authority,
/// and the value, which has no bytes.
#[derive(Drop)]
pub struct Fragment<D, B: AuthorityName> {
    badge: Badge<View<D>>,
    name: PhantomData<B>,
}

impl<D, B: AuthorityName> Model for Fragment<D, B> {
    ghost use Rattle.std.specs.Prelude.{◌≡◌, ℕ, Option};
    ghost use Rattle.charmlet_locks.specs.GhostAuth.Agreement.{number_in, value_in, IsFragment};

    ghost Value = { ℕ × Option D };

    ghost view = { λ s. (number_in s.badge.views, value_in s.badge.views) };

    ghost invariant = { λ s. (s.badge.table_id ≡ B.table) × IsFragment s.badge.views };
}

impl<D: Drop> UnnamedAuthority<D> {
    ghost use Rattle.std.specs.Prelude.{◌≡◌, []};
    ghost use Rattle.charmlet_locks.specs.GhostAuth.Naming.{table_of};

    /// A new authority without a name. It fails only when out of memory.
    pub fn new(alloc: Global) -> Result<UnnamedAuthority<D>, AllocError> {
        let (table, seat) = Table::of_words(alloc, &[0], &())?;
        Ok(UnnamedAuthority { table, seat })
    }

    /// Names the authority, so that its fragments are known to be its own. It has no value yet.
    pub fn named<B: AuthorityName>(self) -> Authority<D, B>
        requires { table_of self ≡ B.table }
        ensures { result ≡ [] }
    {
        let UnnamedAuthority { table, seat } = self;
        Authority {
            table,
            seat,
            name: PhantomData,
        }
    }
}

impl<D: Drop, B: AuthorityName> Authority<D, B> {
    /// Adds a value behind the others, and returns its fragment. It takes no memory.
    pub fn issue(&mut self, value: &D) -> Fragment<D, B>
        ensures authority { self.new ≡ self.old ++ Some value.now ∷ [] }
        ensures fragment { result ≡ (length self.old, Some value.now) }
    {
        let table = &self.table;
        let seat = &mut self.seat;
        table
            .shared
            .compare_exchange_with::<Add>(seat, 0, 0, 0, value);
        let fragment = table.shared.split_seat::<Part>(seat);
        Fragment {
            badge: fragment.into_badge(),
            name: PhantomData,
        }
    }

    /// Shows that the fragment's value is the authority's. Nothing is compared, and nothing
    /// changes.
    pub fn agree(&mut self, fragment: &mut Fragment<D, B>)
        ensures agrees { slice_get self.old fragment.old.0 ≡ Some fragment.old.1 }
        ensures authority { self.new ≡ self.old }
        ensures fragment { fragment.new ≡ fragment.old }
    {
        let table = &self.table;
        let seat = &mut self.seat;
        let badge = mem::replace(&mut fragment.badge, Badge::blank());
        table.shared.join_seat::<Meet>(seat, badge.into_seat());
        table.shared.load::<Update>(seat, 0);
        fragment.badge = table.shared.split_seat::<Part>(seat).into_badge();
    }

    /// Writes a new value into the authority and the fragment, which had the same value before.
    pub fn change(&mut self, fragment: &mut Fragment<D, B>, value: &D)
        ensures agrees { slice_get self.old fragment.old.0 ≡ Some fragment.old.1 }
        ensures authority { self.new ≡ slice_set self.old fragment.old.0 (Some value.now) }
        ensures fragment { fragment.new ≡ (fragment.old.0, Some value.now) }
    {
        let table = &self.table;
        let seat = &mut self.seat;
        let badge = mem::replace(&mut fragment.badge, Badge::blank());
        table.shared.join_seat::<Meet>(seat, badge.into_seat());
        table
            .shared
            .compare_exchange_with::<Update>(seat, 0, 0, 0, value);
        fragment.badge = table.shared.split_seat::<Part>(seat).into_badge();
    }

    /// Writes a new value, which no code holds, into the authority and the fragment, which had the
    /// same value before.
    pub fn change_to<N: GhostValue<D>>(&mut self, fragment: &mut Fragment<D, B>)
        ensures agrees { slice_get self.old fragment.old.0 ≡ Some fragment.old.1 }
        ensures authority { self.new ≡ slice_set self.old fragment.old.0 (Some N.value) }
        ensures fragment { fragment.new ≡ (fragment.old.0, Some N.value) }
    {
        let table = &self.table;
        let seat = &mut self.seat;
        let badge = mem::replace(&mut fragment.badge, Badge::blank());
        table.shared.join_seat::<Meet>(seat, badge.into_seat());
        table.shared.load::<UpdateTo<N>>(seat, 0);
        fragment.badge = table.shared.split_seat::<Part>(seat).into_badge();
    }

    /// Takes back a fragment, whose value was the authority's. Its place stays, with no value.
    pub fn take_back(&mut self, fragment: Fragment<D, B>)
        ensures agrees { slice_get self.old fragment.0 ≡ Some fragment.1 }
        ensures authority { self.new ≡ slice_set self.old fragment.0 None }
    {
        let table = &self.table;
        let seat = &mut self.seat;
        let Fragment { badge, name: _ } = fragment;
        table.shared.join_seat::<Meet>(seat, badge.into_seat());
        table.shared.load::<End>(seat, 0);
    }
}
