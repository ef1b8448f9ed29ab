//! Locks that threads share.

ghost use Rattle.std.specs.Prelude.{◌≡◌, ◌-◌, ◌<◌, ◌≤◌, ◌^◌, [], false, true, IfErr, IfOk, IfSome, vec_len};
ghost use Rattle.std.specs.Vec.{vec_capacity};
ghost use Rattle.charmlet_locks.specs.Home.{HoldsFrom, HoldsPlace, word_of};
ghost use Rattle.charmlet_locks.specs.Locks.{AreInOrder, shown};
ghost use Rattle.charmlet_locks.specs.declared.rule.GhostPlaces.TheVariants.{Begun, Nothing};

use crate::grip::{Grip, Held};
use crate::room::LockRoom;
use crate::rule::{
    AWAITED, FREE, GhostPlaces, Give, Note, Numbering, Places, Sit, TAKEN, Take, word_index,
};
use atomic_table::Seat;
use std::hint;
use std::marker::Model;
use std::sync::Wait;

/// How often a thread looks at a taken lock before it sleeps.
const SPINS: u32 = 100;

/// A lock for each place, counted from 0. Under the lock of a place lies a value with the number of
/// that place, so a thread that takes the lock never has to check that the right value lies there.
/// Threads share the locks by reference. A contract sees how many there are.
#[derive(Drop)]
pub struct Locks<T: Drop, N: Numbering<T>> {
    table: Places<T, N>,
    count: usize,
}

impl<T: Drop, N: Numbering<T>> Model for Locks<T, N> {
    ghost use Rattle.std.specs.Prelude.{◌≡◌, ℕ, ◌<◌, ◌^◌};
    ghost use Rattle.charmlet_locks.specs.Home.{word_of};

    ghost Value = { ℕ };

    ghost view = { λ l. l.count };

    ghost invariant = { λ l. (l.table.shared.table_id.words ≡ word_of l.count)
        × (l.table.shared.table_id.slots ≡ l.count) × (l.count < 2 ^ 32) };
}

impl<T: Drop, N: Numbering<T>> Locks<T, N> {
    /// The locks of a table.
    pub(crate) fn new(table: Places<T, N>, count: usize) -> Locks<T, N>
        requires { (table.shared.table_id.words ≡ word_of count)
            × (table.shared.table_id.slots ≡ count) × (count < 2 ^ 32) }
        ensures { result ≡ count }
    {
        Locks { table, count }
    }

    /// How many places there are.
    pub fn len(&self) -> usize
        ensures { result ≡ self.now }
    {
        self.count
    }

    /// Waits until the lock of a place is free, and takes it. A thread that has the lock already
    /// waits for ever.
    pub fn lock<'a, R: Wait>(&'a self, rt: &R, place: usize) -> Held<'a, T, N>
        requires { place < self.now }
        ensures { result.grip.place ≡ place }
    {
        let table = &self.table;
        let mut seat = new_seat(table);
        seize(table, rt, &mut seat, place);
        let grip = Grip::new(table, seat, place);
        Held { grip }
    }

    /// Takes the lock of a place, or answers `None` if it is taken.
    pub fn try_lock<'a>(&'a self, place: usize) -> Option<Held<'a, T, N>>
        requires { place < self.now }
        ensures { IfSome result (λ held. held.grip.place ≡ place) }
    {
        let table = &self.table;
        let mut seat = new_seat(table);
        if !try_seize(table, &mut seat, place) {
            return None;
        }
        let grip = Grip::new(table, seat, place);
        Some(Held { grip })
    }

    /// Takes all values out, in the order of their places, into a list with room for them. The room
    /// that is left can be filled again. It takes no memory, and never waits. If a `Held` was never
    /// dropped, nothing is taken out, and the locks and the list come back.
    pub fn into_values(
        self,
        values: Vec<T>,
    ) -> Result<(LockRoom<T, N>, Vec<T>), (Locks<T, N>, Vec<T>)>
        requires none { vec_len values ≡ 0 }
        requires room { self ≤ vec_capacity values }
        ensures room { IfOk result (λ out. out.0 ≡ shown self 0) }
        ensures values { IfOk result (λ out. AreInOrder N.number self out.1.items) }
        ensures back { IfErr result (λ back. (back.0 ≡ self) × (back.1 ≡ values)) }
    {
        let Locks { table, count } = self;
        let mut seat = new_seat(&table);
        if !seize_all(&table, &mut seat, count) {
            // A badge holds no place: each lock that was taken was given back.
            drop(seat.into_badge());
            return Err((Locks { table, count }, values));
        }
        let mut values = values;
        for place in 0..count {
            let value = table.shared.exchange(&mut seat, place, None).unwrap();
            seat.turn();
            values.push_reserved(value);
        }
        Ok((LockRoom::vacant(table, seat, count), values))
    }
}

/// A new seat, which holds nothing.
fn new_seat<T: Drop, N: Numbering<T>>(table: &Places<T, N>) -> Seat<Option<T>, GhostPlaces>
    requires { table.now.shared.table_id.words ≡ word_of table.now.shared.table_id.slots }
    ensures seat { result.table_id ≡ table.now.shared.table_id }
    ensures holds { result.me ≡ (Nothing, []) }
{
    table.shared.load_new_seat::<Sit>(0).1
}

/// Takes the lock of a place if it is free, and returns whether it was.
fn try_seize<T: Drop, N: Numbering<T>>(
    table: &Places<T, N>,
    seat: &mut Seat<Option<T>, GhostPlaces>,
    place: usize,
) -> bool
    requires table { (table.now.shared.table_id.words ≡ word_of table.now.shared.table_id.slots)
        × (place < table.now.shared.table_id.slots) × (place < 2 ^ 32) }
    requires seat { seat.old.table_id ≡ table.now.shared.table_id }
    ensures seat { seat.new.table_id ≡ seat.old.table_id }
    ensures took { result ≡ true → HoldsPlace N.number place seat.old.me.1 seat.new.me }
    ensures left { result ≡ false → seat.new.me ≡ seat.old.me }
{
    let word = word_index(place);
    let found = table
        .shared
        .compare_exchange::<Take<N>>(seat, word, FREE, TAKEN);
    found == FREE
}

/// Takes the lock of a place once it is free.
fn seize<T: Drop, N: Numbering<T>, R: Wait>(
    table: &Places<T, N>,
    rt: &R,
    seat: &mut Seat<Option<T>, GhostPlaces>,
    place: usize,
)
    requires table { (table.now.shared.table_id.words ≡ word_of table.now.shared.table_id.slots)
        × (place < table.now.shared.table_id.slots) × (place < 2 ^ 32) }
    requires seat { seat.old.table_id ≡ table.now.shared.table_id }
    ensures seat { seat.new.table_id ≡ seat.old.table_id }
    ensures holds { HoldsPlace N.number place seat.old.me.1 seat.new.me }
{
    let word = word_index(place);
    for _ in 0..SPINS {
        if table.shared.peek(word) == FREE && try_seize(table, seat, place) {
            return;
        }
        hint::spin_loop();
    }
    wait_for(table, rt, seat, place);
}

/// Takes the lock of a place that has been taken for long. The thread sleeps meanwhile.
fn wait_for<T: Drop, N: Numbering<T>, R: Wait>(
    table: &Places<T, N>,
    rt: &R,
    seat: &mut Seat<Option<T>, GhostPlaces>,
    place: usize,
)
    requires table { (table.now.shared.table_id.words ≡ word_of table.now.shared.table_id.slots)
        × (place < table.now.shared.table_id.slots) × (place < 2 ^ 32) }
    requires seat { seat.old.table_id ≡ table.now.shared.table_id }
    ensures seat { seat.new.table_id ≡ seat.old.table_id }
    ensures holds { HoldsPlace N.number place seat.old.me.1 seat.new.me }
{
    let word = word_index(place);
    for _ in rt.forever() {
        let found = table
            .shared
            .compare_exchange::<Take<N>>(seat, word, FREE, AWAITED);
        if found == FREE {
            return;
        }
        table
            .shared
            .compare_exchange::<Note>(seat, word, TAKEN, AWAITED);
        table.shared.park(rt, word, AWAITED as u32);
    }
    unreachable!()
}

/// Takes all locks if each of them is free, and returns whether they were.
fn seize_all<T: Drop, N: Numbering<T>>(
    table: &Places<T, N>,
    seat: &mut Seat<Option<T>, GhostPlaces>,
    count: usize,
) -> bool
    requires table { (table.now.shared.table_id.words ≡ word_of count)
        × (table.now.shared.table_id.slots ≡ count) × (count < 2 ^ 32) }
    requires seat { seat.old.table_id ≡ table.now.shared.table_id }
    requires none { seat.old.me.1 ≡ [] }
    ensures seat { seat.new.table_id ≡ seat.old.table_id }
    ensures took { result ≡ true → HoldsFrom N.number 0 count seat.new.me.1 }
    ensures begun { result ≡ true → 0 < count → seat.new.me.0 ≡ Begun }
    ensures left { result ≡ false → seat.new.me.1 ≡ [] }
{
    for taken in 0..count {
        let place = count - 1 - taken;
        if !try_seize(table, seat, place) {
            give_back(table, seat, place + 1, count);
            return false;
        }
    }
    true
}

/// Gives back the places from the first one on, which the seat has taken.
fn give_back<T: Drop, N: Numbering<T>>(
    table: &Places<T, N>,
    seat: &mut Seat<Option<T>, GhostPlaces>,
    first: usize,
    count: usize,
)
    requires table { (table.now.shared.table_id.words ≡ word_of count)
        × (table.now.shared.table_id.slots ≡ count) × (count < 2 ^ 32) }
    requires seat { seat.old.table_id ≡ table.now.shared.table_id }
    requires places { (first ≤ count) × HoldsFrom N.number first (count - first) seat.old.me.1 }
    requires begun { first < count → seat.old.me.0 ≡ Begun }
    ensures seat { seat.new.table_id ≡ seat.old.table_id }
    ensures none { seat.new.me.1 ≡ [] }
{
    for place in first..count {
        let word = word_index(place);
        if table.shared.swap::<Give>(seat, word, FREE) == AWAITED {
            table.shared.wake_one(word);
        }
    }
}
