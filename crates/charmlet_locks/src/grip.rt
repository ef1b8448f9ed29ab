//! The right to the value under a taken lock.

ghost use Rattle.std.specs.Prelude.{◌≡◌, ◌<◌, ◌^◌};
ghost use Rattle.charmlet_locks.specs.Home.{HoldsPlace, word_of};

use crate::rule::{AWAITED, FREE, GhostPlaces, Give, Numbering, Places, word_index};
use atomic_table::Seat;
use std::marker::Model;

/// A value whose lock is taken, and which goes back when this is dropped. Until then `grip` lends
/// it. A changed value must have the number of its place again before the drop.
pub struct Held<'a, T: Drop, N: Numbering<T>> {
    pub grip: Grip<'a, T, N>,
    pub ghost right: { grip.number ≡ grip.place },
}

impl<'a, T: Drop, N: Numbering<T>> Drop for Held<'a, T, N> {
    fn drop(self) {
        let Held { grip } = self;
        grip.give_back();
    }
}

/// The right to a place whose lock is taken. A contract sees the place, and its value.
pub struct Grip<'a, T: Drop, N: Numbering<T>> {
    table: &'a Places<T, N>,
    seat: Seat<Option<T>, GhostPlaces>,
    place: usize,
}

impl<'a, T: Drop, N: Numbering<T>> Model for Grip<'a, T, N> {
    ghost use Rattle.std.specs.Prelude.{◌≡◌, ◌<◌, ◌^◌};
    ghost use Rattle.charmlet_locks.specs.Home.{HasPlace, value_in, word_of};
    ghost use Rattle.charmlet_locks.specs.Locks.{Gripped, gripped};

    ghost Value = { Gripped T };

    ghost view = { λ g. gripped N.number g.place (value_in g.seat.me.1) };

    ghost invariant = { λ g. (g.table.now.shared.table_id.words
        ≡ word_of g.table.now.shared.table_id.slots)
        × (g.place < g.table.now.shared.table_id.slots) × (g.place < 2 ^ 32)
        × (g.seat.table_id ≡ g.table.now.shared.table_id)
        × HasPlace g.place g.seat.me };
}

impl<'a, T: Drop, N: Numbering<T>> Grip<'a, T, N> {
    ghost use Rattle.std.specs.Prelude.{◌≡◌, [], Some};
    ghost use Rattle.std.specs.Borrow.{Lends, sem};
    ghost use mir.Syntax.{named};
    ghost use Rattle.charmlet_locks.specs.contracts.grip.Grip.{the_row};
    ghost use Rattle.charmlet_locks.specs.Locks.{gripped};

    /// The right to the place that the seat holds.
    pub(crate) fn new(
        table: &'a Places<T, N>,
        seat: Seat<Option<T>, GhostPlaces>,
        place: usize,
    ) -> Self
        requires table { (table.now.shared.table_id.words
            ≡ word_of table.now.shared.table_id.slots)
            × (place < table.now.shared.table_id.slots) × (place < 2 ^ 32) }
        requires seat { seat.table_id ≡ table.now.shared.table_id }
        requires holds { HoldsPlace N.number place [] seat.me }
        ensures place { result.place ≡ place }
        ensures right { result.number ≡ place }
    {
        Grip { table, seat, place }
    }

    /// Borrows the value, which can be changed, or replaced by another one.
    pub fn get_mut(&mut self) -> &mut T
        ensures* writes_back { sem 𝓛 (Lends
            (the_row (record { mir = named 1; lft = [] }) T.row N.row N.Numbering)
            T.row self.entry result (λ w. gripped N.number self.old.place (Some w))) }
        ensures value { self.old.value ≡ Some result.now }
        ensures number { self.old.number ≡ N.number result.now }
    {
        let table = self.table;
        let place = self.place;
        let seat = &mut self.seat;
        seat.slot_mut(&table.shared, place).as_mut().unwrap()
    }

    /// Gives the value back, which has the number of the place, and wakes a thread that waits for
    /// it.
    pub(crate) fn give_back(self)
        requires { self.number ≡ self.place }
    {
        let Grip {
            table,
            mut seat,
            place,
        } = self;
        let word = word_index(place);
        if table.shared.swap::<Give>(&mut seat, word, FREE) == AWAITED {
            table.shared.wake_one(word);
        }
        // A badge holds no place: the value was given back.
        drop(seat.into_badge());
    }
}
