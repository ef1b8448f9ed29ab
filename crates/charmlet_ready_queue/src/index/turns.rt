//! Changes of one sequence number in the lists of all processors.

ghost use Rattle.std.specs.Prelude.{◌≡◌, ◌≢◌, ℕ, ◌<◌, true, length, slice_get, Some};
ghost use Rattle.charmlet_ready_queue.specs.Index.Index.{IsBelow, IsRoomy, IsWith, IsWithout, OnEach, touches};
ghost use Rattle.charmlet_ready_queue.specs.Index.Turns.{IsAway, IsBack, IsPut, IsTaken};
ghost use Rattle.charmlet_ready_queue.specs.declared.index.lists.Lists.{Lists as ALists};

use crate::index::lists::Lists;
use crate::index::place::QueuePlace;

/// Takes a sequence number out of a list of this processor.
fn take_on(lists: &mut Vec<Lists>, on: usize, number: u64, is_ready: bool)
    requires { on < length lists.old.items }
    ensures each { OnEach (IsTaken number on is_ready) lists.old.items lists.new.items }
    ensures len { length lists.new.items ≡ length lists.old.items }
{
    lists[on].take(number, is_ready);
}

/// Puts a sequence number in its place of a list of this processor.
fn put_on(lists: &mut Vec<Lists>, on: usize, number: u64, is_ready: bool)
    requires within { on < length lists.old.items }
    requires room { (l : ALists) → slice_get lists.old.items on ≡ Some l → IsRoomy 1 l }
    ensures each { OnEach (IsPut number on is_ready) lists.old.items lists.new.items }
    ensures len { length lists.new.items ≡ length lists.old.items }
{
    lists[on].put(number, is_ready);
}

/// Adds the last sequence number of all to a list of this processor.
fn push_on(lists: &mut Vec<Lists>, on: usize, number: u64, is_ready: bool)
    requires within { on < length lists.old.items }
    requires room { (l : ALists) → slice_get lists.old.items on ≡ Some l → IsRoomy 1 l }
    requires last { (l : ALists) → slice_get lists.old.items on ≡ Some l → IsBelow number l }
    ensures each { OnEach (IsPut number on is_ready) lists.old.items lists.new.items }
    ensures len { length lists.new.items ≡ length lists.old.items }
{
    lists[on].push(number, is_ready);
}

/// Counts one sequence number fewer away from this processor.
fn take_back_on(lists: &mut Vec<Lists>, home: usize)
    requires within { home < length lists.old.items }
    requires away { (l : ALists) → slice_get lists.old.items home ≡ Some l → 0 < l.away }
    ensures each { OnEach (IsBack home) lists.old.items lists.new.items }
    ensures len { length lists.new.items ≡ length lists.old.items }
{
    lists[home].take_back();
}

/// Counts one more sequence number away from this processor.
fn send_away_on(lists: &mut Vec<Lists>, home: usize)
    requires within { home < length lists.old.items }
    requires room { (l : ALists) → slice_get lists.old.items home ≡ Some l → IsRoomy 1 l }
    ensures each { OnEach (IsAway home) lists.old.items lists.new.items }
    ensures len { length lists.new.items ≡ length lists.old.items }
{
    lists[home].send_away();
}

/// Takes a sequence number out of the lists.
pub(crate) fn take_from(lists: &mut Vec<Lists>, at: QueuePlace, number: u64)
    requires on { at.on < length lists.old.items }
    requires home { at.home < length lists.old.items }
    requires away { at.on ≢ at.home → (l : ALists) →
        slice_get lists.old.items at.home ≡ Some l → 0 < l.away }
    ensures each { OnEach (IsWithout number at) lists.old.items lists.new.items }
    ensures len { length lists.new.items ≡ length lists.old.items }
{
    take_on(lists, at.on, number, at.is_ready);
    if at.on != at.home {
        take_back_on(lists, at.home);
    }
}

/// Puts a sequence number in its place of the lists.
pub(crate) fn put_in(lists: &mut Vec<Lists>, at: QueuePlace, number: u64)
    requires on { at.on < length lists.old.items }
    requires home { at.home < length lists.old.items }
    requires room { (p : ℕ) (l : ALists) → slice_get lists.old.items p ≡ Some l →
        touches at p ≡ true → IsRoomy 1 l }
    ensures each { OnEach (IsWith number at) lists.old.items lists.new.items }
    ensures len { length lists.new.items ≡ length lists.old.items }
{
    if at.on != at.home {
        send_away_on(lists, at.home);
    }
    put_on(lists, at.on, number, at.is_ready);
}

/// Adds the last sequence number of all to the lists.
pub(crate) fn push_in(lists: &mut Vec<Lists>, at: QueuePlace, number: u64)
    requires on { at.on < length lists.old.items }
    requires home { at.home < length lists.old.items }
    requires room { (p : ℕ) (l : ALists) → slice_get lists.old.items p ≡ Some l →
        touches at p ≡ true → IsRoomy 1 l }
    requires last { (p : ℕ) (l : ALists) → slice_get lists.old.items p ≡ Some l →
        IsBelow number l }
    ensures each { OnEach (IsWith number at) lists.old.items lists.new.items }
    ensures len { length lists.new.items ≡ length lists.old.items }
{
    if at.on != at.home {
        send_away_on(lists, at.home);
    }
    push_on(lists, at.on, number, at.is_ready);
}
