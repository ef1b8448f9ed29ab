//! Numbers in rising order, in a ring with a cursor. The numbers before the cursor stand last in
//! the ring, so that a change at the cursor is a change at the ring's two ends. A change elsewhere
//! turns the ring by the distance between the two places: a run of rising changes goes round it
//! once.

ghost use Rattle.std.specs.Prelude.{◌≡◌, ◌+◌, ◌<◌, ◌≤◌, [], ◌∷◌, ◌++◌, length, take, drop, slice_get, Some};
ghost use Rattle.std.specs.VecDeque.{deque_capacity, deque_len};
ghost use Rattle.charmlet_ready_queue.specs.SeqNos.SeqNos.{AllBefore, AllFrom, Climbs, in_order, turned, with_number, without_number};

use crate::seq_nos::ticks::Ticks;
use std::collections::VecDeque;
use std::sync::ledger::Ledger;

/// The number at this place of the order. It takes one look, and it is the only way to read a
/// number.
pub(crate) fn look<L: Ledger>(
    ring: &VecDeque<u64>,
    behind: usize,
    place: usize,
    ticks: &mut Ticks<L>,
) -> u64
    requires behind { behind ≤ length ring.now.items }
    requires place { place < length ring.now.items }
    ensures number { slice_get (in_order behind ring.now.items) place ≡ Some result }
    ensures ticks { ticks.new ≡ ticks.old + 1 }
{
    ticks.tick();
    if place < behind {
        ring[ring.len() - behind + place]
    } else {
        ring[place - behind]
    }
}

/// The place of the number, or, if it isn't there, of the first number after it. The search tries
/// this place first, and then its neighbours.
fn place_of<L: Ledger>(
    ring: &VecDeque<u64>,
    behind: usize,
    number: u64,
    first: usize,
    ticks: &mut Ticks<L>,
) -> usize
    requires behind { behind ≤ length ring.now.items }
    requires climbs { Climbs (in_order behind ring.now.items) }
    ensures within { result ≤ length ring.now.items }
    ensures before { AllBefore number (take result (in_order behind ring.now.items)) }
    ensures from { AllFrom number (drop result (in_order behind ring.now.items)) }
{
    let mut low = 0;
    let mut high = ring.len();
    let mut middle = if first < high { first } else { 0 };
    let mut is_first = true;
    while low < high {
        let here = look(ring, behind, middle, ticks);
        if here == number {
            return middle;
        }
        if here < number {
            low = middle + 1;
        } else {
            high = middle;
        }
        middle = guess(low, high, is_first, here < number);
        is_first = false;
    }
    low
}

/// The next place to look at between two places: after the first look it is the nearer one, that
/// is, the lower one if the search goes on upwards; later it is the middle.
fn guess(low: usize, high: usize, was_first: bool, goes_on: bool) -> usize
    ensures from { low < high → low ≤ result }
    ensures to { low < high → result < high }
{
    if !was_first {
        return low + high.saturating_sub(low) / 2;
    }
    if goes_on { low } else { high.saturating_sub(1) }
}

/// Turns the ring, so that the cursor stands at this place.
fn turn_to(ring: &mut VecDeque<u64>, behind: usize, place: usize)
    requires behind { behind ≤ length ring.old.items }
    requires place { place ≤ length ring.old.items }
    ensures items { ring.new.items ≡ turned place (in_order behind ring.old.items) }
    ensures capacity { deque_capacity ring.new ≡ deque_capacity ring.old }
{
    if behind == place {
        return;
    }
    if behind <= place {
        ring.rotate_left(place - behind);
    } else {
        ring.rotate_right(behind - place);
    }
}

/// Takes the number out, if it is there, and returns the cursor's new place.
pub(crate) fn take_out<L: Ledger>(
    ring: &mut VecDeque<u64>,
    behind: usize,
    number: u64,
    ticks: &mut Ticks<L>,
) -> usize
    requires behind { behind ≤ length ring.old.items }
    requires climbs { Climbs (in_order behind ring.old.items) }
    ensures behind { result ≤ length ring.new.items }
    ensures seq_nos { in_order result ring.new.items
        ≡ without_number number (in_order behind ring.old.items) }
    ensures capacity { deque_capacity ring.new ≡ deque_capacity ring.old }
{
    let place = place_of(ring, behind, number, behind, ticks);
    if place == ring.len() {
        return behind;
    }
    if look(ring, behind, place, ticks) != number {
        return behind;
    }
    turn_to(ring, behind, place);
    let _number = ring.pop_front();
    place
}

/// Puts the number in its place, if it isn't there, and returns the cursor's new place.
pub(crate) fn put_in<L: Ledger>(
    ring: &mut VecDeque<u64>,
    behind: usize,
    number: u64,
    ticks: &mut Ticks<L>,
) -> usize
    requires behind { behind ≤ length ring.old.items }
    requires climbs { Climbs (in_order behind ring.old.items) }
    requires room { deque_len ring.old < deque_capacity ring.old }
    ensures behind { result ≤ length ring.new.items }
    ensures seq_nos { in_order result ring.new.items
        ≡ with_number number (in_order behind ring.old.items) }
    ensures capacity { deque_capacity ring.new ≡ deque_capacity ring.old }
{
    let place = place_of(ring, behind, number, behind.saturating_sub(1), ticks);
    if place < ring.len() && look(ring, behind, place, ticks) == number {
        return behind;
    }
    turn_to(ring, behind, place);
    ring.push_back_reserved(number);
    place + 1
}

/// Puts a number behind all others, and returns the cursor's new place.
pub(crate) fn put_last(ring: &mut VecDeque<u64>, behind: usize, number: u64) -> usize
    requires behind { behind ≤ length ring.old.items }
    requires room { deque_len ring.old < deque_capacity ring.old }
    ensures behind { result ≤ length ring.new.items }
    ensures seq_nos { in_order result ring.new.items
        ≡ in_order behind ring.old.items ++ number ∷ [] }
    ensures capacity { deque_capacity ring.new ≡ deque_capacity ring.old }
{
    let place = ring.len();
    turn_to(ring, behind, place);
    ring.push_back_reserved(number);
    place + 1
}
