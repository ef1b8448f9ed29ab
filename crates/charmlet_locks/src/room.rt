//! Locks that are being filled.

ghost use Rattle.std.specs.Prelude.{◌≡◌, ◌+◌, ◌<◌, ◌^◌, IfOk};
ghost use Rattle.charmlet_locks.specs.Home.{first_words, vacancies, word_of};
ghost use Rattle.charmlet_locks.specs.declared.rule.GhostPlaces.TheVariants.{Begun};
ghost use Rattle.charmlet_locks.specs.Locks.{shown};

use crate::locks::Locks;
use crate::rule::{Begin, FREE, GhostPlaces, Give, Numbering, Places, TAKEN, word_index};
use atomic_table::{Seat, Table};
use std::alloc::{AllocError, Global};
use std::marker::Model;

/// The first word, while all places are vacant.
const VACANT: u64 = 0;

/// The first word afterwards.
const BEGUN: u64 = 1;

/// Locks without values yet. A contract sees how many places there are, and how many of them have
/// their value.
#[derive(Drop)]
pub struct LockRoom<T: Drop, N: Numbering<T>> {
    table: Places<T, N>,
    seat: Seat<Option<T>, GhostPlaces>,
    count: usize,
    filled: usize,
}

impl<T: Drop, N: Numbering<T>> Model for LockRoom<T, N> {
    ghost use Rattle.std.specs.Prelude.{◌≡◌, ◌+◌, ◌<◌, ◌≤◌, ◌^◌, ◌-◌};
    ghost use Rattle.charmlet_locks.specs.Home.{vacancies, word_of};
    ghost use Rattle.charmlet_locks.specs.Locks.{RoomShown, shown};
    ghost use Rattle.charmlet_locks.specs.declared.rule.GhostPlaces.TheVariants.{Begun};

    ghost Value = { RoomShown };

    ghost view = { λ r. shown r.count r.filled };

    ghost invariant = { λ r. (r.table.shared.table_id.words ≡ word_of r.count)
        × (r.table.shared.table_id.slots ≡ r.count)
        × (r.seat.table_id ≡ r.table.shared.table_id)
        × (r.filled ≤ r.count) × (r.count < 2 ^ 32)
        × (r.filled < r.count → r.seat.me.0 ≡ Begun)
        × (r.seat.me.1 ≡ vacancies r.filled (r.count - r.filled)) };
}

impl<T: Drop, N: Numbering<T>> LockRoom<T, N> {
    /// Locks for this many places, without values. This call takes all the memory that locks need.
    /// It fails only when out of memory.
    pub fn new(alloc: Global, count: usize) -> Result<LockRoom<T, N>, AllocError>
        requires { count < 2 ^ 32 }
        ensures { IfOk result (λ room. room ≡ shown count 0) }
    {
        let words = vacant_words(alloc, count)?;
        let (table, mut seat) = Table::vacant(alloc, words.as_slice(), count, &())?;
        table.shared.swap::<Begin>(&mut seat, 0, BEGUN);
        Ok(LockRoom::vacant(table, seat, count))
    }

    /// Locks of a table, without values. The seat holds all places of the table.
    pub(crate) fn vacant(
        table: Places<T, N>,
        seat: Seat<Option<T>, GhostPlaces>,
        count: usize,
    ) -> LockRoom<T, N>
        requires table { (table.shared.table_id.words ≡ word_of count)
            × (table.shared.table_id.slots ≡ count) × (count < 2 ^ 32) }
        requires seat { seat.table_id ≡ table.shared.table_id }
        requires begun { 0 < count → seat.me.0 ≡ Begun }
        requires vacant { seat.me.1 ≡ vacancies 0 count }
        ensures { result ≡ shown count 0 }
    {
        LockRoom {
            table,
            seat,
            count,
            filled: 0,
        }
    }

    /// How many places have their values.
    pub fn filled(&self) -> usize
        ensures { result ≡ self.now.filled }
    {
        self.filled
    }

    /// Puts a value under the next lock, whose number it has. It takes no memory.
    pub fn put(&mut self, value: T)
        requires room { self.old.filled < self.old.places }
        requires number { N.number value ≡ self.old.filled }
        ensures { self.new ≡ shown self.old.places (self.old.filled + 1) }
    {
        let table = &self.table;
        let seat = &mut self.seat;
        let place = self.filled;
        drop(table.shared.exchange(seat, place, Some(value)));
        table.shared.swap::<Give>(seat, word_index(place), FREE);
        self.filled = place + 1;
    }

    /// Turns the room into locks, once each place has its value. It takes no memory.
    pub fn into_locks(self) -> Locks<T, N>
        requires { self.filled ≡ self.places }
        ensures { result ≡ self.places }
    {
        let LockRoom {
            table,
            seat: _,
            count,
            filled: _,
        } = self;
        Locks::new(table, count)
    }
}

/// The words of this many locks, all taken.
fn vacant_words(alloc: Global, count: usize) -> Result<Vec<u64>, AllocError>
    requires { count < 2 ^ 32 }
    ensures { IfOk result (λ words. words.items ≡ first_words count) }
{
    let len = word_index(count);
    let mut words = Vec::with_capacity(alloc, len)?;
    words.push_reserved(VACANT);
    while words.len() < len {
        words.push_reserved(TAKEN);
    }
    Ok(words)
}
