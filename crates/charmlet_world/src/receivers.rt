//! Counts of the pending messages to each element.

ghost use Rattle.std.specs.Prelude.{◌≡◌, ◌+◌, ◌≤◌, ◌<◌, [], length, slice_get, Some, false, true, is_some, IfSome, IsOk, OnOk, if◌then◌else◌};
ghost use Rattle.std.specs.Map.{lookup, values_of};
ghost use Rattle.charmlet_model.specs.Names.{same_elem};
ghost use Rattle.charmlet_model.specs.Reaction.{greatest};
ghost use Rattle.charmlet_model.specs.declared.names.Elem.{Elem as AnElem};
ghost use Rattle.charmlet_world.specs.Envelopes.{no_receiver, receiver_in};
ghost use Rattle.charmlet_world.specs.declared.receivers.Receiver.{Receiver as AReceiver};
ghost use Rattle.indexmap.specs.IndexMap.{set_value_at, spare};

use charmlet_model::Elem;
use indexmap::IndexMap;
use std::alloc::{AllocError, Global};
use std::marker::Model;

/// How many messages to an element are pending, and the sequence number of the last one that came.
#[derive(Clone, Copy, Debug)]
pub struct Receiver {
    pub(crate) count: usize,
    pub(crate) youngest: u64,
}

impl Receiver {
    /// The count of an element to which no message came.
    fn new() -> Self
        ensures { result ≡ no_receiver }
    {
        Receiver {
            count: 0,
            youngest: 0,
        }
    }
}

/// A count for each element to which a message ever came. A contract sees the list, and the room
/// for more.
#[derive(Drop)]
pub(crate) struct Receivers {
    table: IndexMap<Elem, Receiver>,
    /// The index at which a search for an element begins: where the last message that left was
    /// counted.
    expected: usize,
}

impl Model for Receivers {
    ghost use Rattle.indexmap.specs.IndexMap.{spare};
    ghost use Rattle.charmlet_world.specs.Envelopes.{Received};

    ghost Value = { Received };

    ghost view = { λ r. record { entries = r.table.entries; room = spare r.table } };
}

impl Receivers {
    /// A table with no elements. It takes no memory.
    pub(crate) fn new(alloc: Global) -> Self
        ensures { result.entries ≡ [] }
    {
        Receivers {
            table: IndexMap::new(alloc),
            expected: 0,
        }
    }

    /// Makes room for this many more elements. If memory is refused, nothing changes.
    pub(crate) fn reserve(&mut self, additional: usize) -> Result<(), AllocError>
        ensures entries { self.new.entries ≡ self.old.entries }
        ensures room { self.old.room ≤ self.new.room }
        ensures ok { OnOk result (additional ≤ self.new.room) }
        ensures succeeds { additional ≤ self.old.room → IsOk result }
    {
        self.table.reserve(additional)
    }

    /// An element's count of pending messages.
    pub(crate) fn receiver(&self, elem: Elem) -> Receiver
        ensures { result ≡ receiver_in self.now.entries elem }
    {
        match index_of(&self.table, self.expected, elem) {
            Some(index) => self.table[index],
            None => Receiver::new(),
        }
    }

    /// Counts a message that comes to an element, and returns the index of that count. The search
    /// tries the expected index first. It takes no memory.
    pub(crate) fn count_in(&mut self, elem: Elem, seq: u64, expected: usize) -> usize
        requires room { 0 < self.old.room }
        requires few { (receiver_in self.old.entries elem).count < greatest }
        ensures count { (receiver_in self.new.entries elem).count
            ≡ (receiver_in self.old.entries elem).count + 1 }
        ensures youngest { (receiver_in self.new.entries elem).youngest ≡ seq }
        ensures others { (y : AnElem) → same_elem elem y ≡ false →
            receiver_in self.new.entries y ≡ receiver_in self.old.entries y }
        ensures room { self.old.room ≤ self.new.room + 1 }
    {
        let index = index_for(&mut self.table, expected, elem);
        let receiver = at(&self.table, index);
        let count = receiver.count + 1;
        set(
            &mut self.table,
            index,
            Receiver {
                count,
                youngest: seq,
            },
        );
        index
    }

    /// Counts a message that leaves. The search tries the index at which its receiver was counted
    /// first.
    pub(crate) fn count_out(&mut self, elem: Elem, expected: usize)
        requires some { 0 < (receiver_in self.old.entries elem).count }
        ensures count { (receiver_in self.new.entries elem).count + 1
            ≡ (receiver_in self.old.entries elem).count }
        ensures youngest { (receiver_in self.new.entries elem).youngest
            ≡ (receiver_in self.old.entries elem).youngest }
        ensures others { (y : AnElem) → same_elem elem y ≡ false →
            receiver_in self.new.entries y ≡ receiver_in self.old.entries y }
        ensures room { self.new.room ≡ self.old.room }
    {
        let Some(index) = index_of(&self.table, expected, elem) else {
            unreachable!()
        };
        let receiver = at(&self.table, index);
        let count = receiver.count - 1;
        let youngest = receiver.youngest;
        set(&mut self.table, index, Receiver { count, youngest });
        self.expected = index;
    }
}

/// The index of the element's entry, if it has one. The search tries the expected index first.
fn index_of(table: &IndexMap<Elem, Receiver>, expected: usize, elem: Elem) -> Option<usize>
    ensures found { IfSome result (λ i. slice_get table.now.entries i
        ≡ Some (elem, receiver_in table.now.entries elem)) }
    ensures which { is_some result ≡ is_some (lookup (same_elem elem) table.now.entries) }
{
    if stands_at(table, expected, elem) {
        return Some(expected);
    }
    search(table, elem)
}

/// The index of the element's entry among all, if it has one. It isn't inlined, since it is seldom
/// called.
#[inline(never)]
fn search(table: &IndexMap<Elem, Receiver>, elem: Elem) -> Option<usize>
    ensures found { IfSome result (λ i. slice_get table.now.entries i
        ≡ Some (elem, receiver_in table.now.entries elem)) }
    ensures which { is_some result ≡ is_some (lookup (same_elem elem) table.now.entries) }
{
    table.get_index_of(&elem)
}

/// Whether the element's entry stands at this index.
fn stands_at(table: &IndexMap<Elem, Receiver>, index: usize, elem: Elem) -> bool
    ensures found { result ≡ true → slice_get table.now.entries index
        ≡ Some (elem, receiver_in table.now.entries elem) }
    ensures which { result ≡ true → is_some (lookup (same_elem elem) table.now.entries) ≡ true }
{
    // The length tells the prover that the elements are distinct.
    let _len = table.len();
    match table.get_index(index) {
        Some((here, _receiver)) => *here == elem,
        None => false,
    }
}

/// The index of the element's entry, which is made if there is none. The search tries the expected
/// index first. It takes no memory.
fn index_for(table: &mut IndexMap<Elem, Receiver>, expected: usize, elem: Elem) -> usize
    requires { 0 < spare table.old }
    ensures found { slice_get table.new.entries result
        ≡ Some (elem, receiver_in table.old.entries elem) }
    ensures same { (y : AnElem) →
        receiver_in table.new.entries y ≡ receiver_in table.old.entries y }
    ensures room { spare table.old ≤ spare table.new + 1 }
{
    if stands_at(table, expected, elem) {
        return expected;
    }
    let Ok((index, was)) = table.insert_full(elem, Receiver::new()) else {
        unreachable!()
    };
    let Some(receiver) = was else {
        return index;
    };
    // The element had an entry, to which its value comes back.
    set(table, index, receiver);
    index
}

/// The count at this index.
fn at(table: &IndexMap<Elem, Receiver>, index: usize) -> Receiver
    requires { index < length table.now.entries }
    ensures { slice_get (values_of table.now.entries) index ≡ Some result }
{
    table[index]
}

/// Sets the count at this index.
fn set(table: &mut IndexMap<Elem, Receiver>, index: usize, receiver: Receiver)
    requires { index < length table.old.entries }
    ensures entries { table.new.entries ≡ set_value_at table.old.entries index receiver }
    ensures changed { (x y : AnElem) (r : AReceiver) →
        slice_get table.old.entries index ≡ Some (x, r) → receiver_in table.new.entries y
        ≡ (if same_elem x y then receiver else receiver_in table.old.entries y) }
    ensures room { spare table.new ≡ spare table.old }
{
    let (_elem, here) = table.pair_mut(index);
    *here = receiver;
}
