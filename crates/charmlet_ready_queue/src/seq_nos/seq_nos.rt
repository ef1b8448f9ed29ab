//! Sequence numbers of messages, in rising order.

ghost use Rattle.std.specs.Prelude.{◌≡◌, ◌+◌, ◌<◌, ◌≤◌, [], ◌∷◌, ◌++◌, length, slice_get, Some, OnOk, IsOk};
ghost use Rattle.charmlet_ready_queue.specs.SeqNos.SeqNos.{AllBefore, Climbs, with_number, without_number};

use crate::seq_nos::ring::{look, put_in, put_last, take_out};
use crate::seq_nos::ticks::Ticks;
use std::alloc::{AllocError, Global};
use std::collections::VecDeque;
use std::marker::{Brand, Model};
use std::sync::ledger::{Blank, Ledger};

/// Sequence numbers of messages, in rising order. A contract sees the numbers, and the room for
/// them in all. A change costs a few looks, and moves as many numbers as lie between its place and
/// the last change's, so many changes in rising order move each number once.
#[derive(Drop)]
pub struct SeqNos {
    ring: VecDeque<u64>,
    /// How many sequence numbers come before the place of the last change.
    behind: usize,
}

impl Model for SeqNos {
    ghost use Rattle.std.specs.Prelude.{length, ◌≤◌};
    ghost use Rattle.std.specs.VecDeque.{deque_capacity};
    ghost use Rattle.charmlet_ready_queue.specs.SeqNos.SeqNos.{Line, IsInOrder, in_order};

    ghost Value = { Line };

    ghost view = { λ b. record {
      seq_nos = in_order b.behind b.ring.items;
      capacity = deque_capacity b.ring;
    } };

    ghost invariant = { λ b. IsInOrder b.behind b.ring.items (deque_capacity b.ring) };
}

impl SeqNos {
    /// An empty list of sequence numbers. It takes no memory.
    pub fn new(alloc: Global) -> Self
        ensures { result.seq_nos ≡ [] }
    {
        SeqNos {
            ring: VecDeque::new(alloc),
            behind: 0,
        }
    }

    /// How many sequence numbers there are.
    pub fn len(&self) -> usize
        ensures { result ≡ length self.now.seq_nos }
    {
        self.ring.len()
    }

    /// How many sequence numbers there is room for in all.
    pub fn capacity(&self) -> usize
        ensures capacity { result ≡ self.now.capacity }
        ensures fits { length self.now.seq_nos ≤ self.now.capacity }
    {
        self.ring.capacity()
    }

    /// Makes room for this many sequence numbers in all. If memory is refused, no sequence number
    /// changes.
    pub fn reserve(&mut self, capacity: usize) -> Result<(), AllocError>
        ensures seq_nos { self.new.seq_nos ≡ self.old.seq_nos }
        ensures capacity { self.old.capacity ≤ self.new.capacity }
        ensures ok { OnOk result (capacity ≤ self.new.capacity) }
        ensures succeeds { capacity ≤ self.old.capacity → IsOk result }
    {
        self.ring.reserve(capacity.saturating_sub(self.ring.len()))
    }

    /// The sequence number at this place. It takes one look.
    pub fn at<L: Ledger>(&self, place: usize, ticks: &mut Ticks<L>) -> u64
        requires { place < length self.now.seq_nos }
        ensures seq_no { slice_get self.now.seq_nos place ≡ Some result }
        ensures ticks { ticks.new ≡ ticks.old + 1 }
    {
        look(&self.ring, self.behind, place, ticks)
    }

    /// Adds a sequence number behind all others. There has to be room for it. It takes no memory.
    pub fn push(&mut self, number: u64)
        requires room { length self.old.seq_nos < self.old.capacity }
        requires last { AllBefore number self.old.seq_nos }
        ensures seq_nos { self.new.seq_nos ≡ self.old.seq_nos ++ number ∷ [] }
        ensures capacity { self.new.capacity ≡ self.old.capacity }
        ensures climbs { Climbs self.new.seq_nos }
    {
        self.behind = put_last(&mut self.ring, self.behind, number);
    }

    /// Takes a sequence number out, if it is there. The search begins where the last one was taken.
    /// It takes no memory.
    pub fn take(&mut self, number: u64)
        ensures seq_nos { self.new.seq_nos ≡ without_number number self.old.seq_nos }
        ensures capacity { self.new.capacity ≡ self.old.capacity }
        ensures climbs { Climbs self.old.seq_nos }
    {
        self.take_counted::<Brand>(number, Blank::new(1));
    }

    /// Puts a sequence number, for which there is room, in its place. It takes no memory.
    pub fn put(&mut self, number: u64)
        requires { length self.old.seq_nos < self.old.capacity }
        ensures seq_nos { self.new.seq_nos ≡ with_number number self.old.seq_nos }
        ensures capacity { self.new.capacity ≡ self.old.capacity }
        ensures climbs { Climbs self.old.seq_nos }
    {
        self.put_counted::<Brand>(number, Blank::new(1));
    }

    /// Works as `take`, with a count of looks of its own.
    fn take_counted<L: Ledger>(&mut self, number: u64, blank: Blank)
        requires name { blank.name ≡ L.name }
        requires parts { blank.parts ≡ L.parts }
        requires some { 0 < blank.parts }
        ensures seq_nos { self.new.seq_nos ≡ without_number number self.old.seq_nos }
        ensures capacity { self.new.capacity ≡ self.old.capacity }
        ensures climbs { Climbs self.old.seq_nos }
    {
        let mut ticks = Ticks::<L>::new(blank);
        self.behind = take_out(&mut self.ring, self.behind, number, &mut ticks);
    }

    /// Works as `put`, with a count of looks of its own.
    fn put_counted<L: Ledger>(&mut self, number: u64, blank: Blank)
        requires room { length self.old.seq_nos < self.old.capacity }
        requires name { blank.name ≡ L.name }
        requires parts { blank.parts ≡ L.parts }
        requires some { 0 < blank.parts }
        ensures seq_nos { self.new.seq_nos ≡ with_number number self.old.seq_nos }
        ensures capacity { self.new.capacity ≡ self.old.capacity }
        ensures climbs { Climbs self.old.seq_nos }
    {
        let mut ticks = Ticks::<L>::new(blank);
        self.behind = put_in(&mut self.ring, self.behind, number, &mut ticks);
    }
}
