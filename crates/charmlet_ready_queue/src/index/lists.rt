//! The sequence numbers on one processor.

ghost use Rattle.std.specs.Prelude.{◌≡◌, ◌+◌, ◌≤◌, ◌<◌, [], OnOk, if◌then◌else◌};
ghost use Rattle.charmlet_ready_queue.specs.SeqNos.SeqNos.{with_number, without_number};
ghost use Rattle.charmlet_ready_queue.specs.Index.Index.{IsBelow, IsRoomy};

use crate::seq_nos::SeqNos;
use std::alloc::{AllocError, Global};

/// The sequence numbers on one processor: those that are ready, and those that wait. It also counts
/// the sequence numbers on other processors whose elements have their home here.
#[derive(Drop)]
pub struct Lists {
    pub ready: SeqNos,
    pub waiting: SeqNos,
    pub away: usize,
}

impl Lists {
    /// Lists with no sequence numbers. It takes no memory.
    pub(crate) fn new(alloc: Global) -> Self
        ensures ready { result.ready.seq_nos ≡ [] }
        ensures waiting { result.waiting.seq_nos ≡ [] }
        ensures away { result.away ≡ 0 }
        ensures roomy { IsRoomy 0 result }
    {
        Lists {
            ready: SeqNos::new(alloc),
            waiting: SeqNos::new(alloc),
            away: 0,
        }
    }

    /// Makes room in each list for all sequence numbers that may have to stand there, and for this
    /// many more. If memory is refused, no sequence number changes.
    pub(crate) fn reserve(&mut self, headroom: usize) -> Result<(), AllocError>
        ensures ready { self.new.ready.seq_nos ≡ self.old.ready.seq_nos }
        ensures waiting { self.new.waiting.seq_nos ≡ self.old.waiting.seq_nos }
        ensures away { self.new.away ≡ self.old.away }
        ensures ready_capacity { self.old.ready.capacity ≤ self.new.ready.capacity }
        ensures waiting_capacity { self.old.waiting.capacity ≤ self.new.waiting.capacity }
        ensures ok { OnOk result (IsRoomy headroom self.new) }
    {
        let Some(here) = self.ready.len().checked_add(self.waiting.len()) else {
            return Err(AllocError);
        };
        let Some(load) = here.checked_add(self.away) else {
            return Err(AllocError);
        };
        let Some(wanted) = load.checked_add(headroom) else {
            return Err(AllocError);
        };
        grow(&mut self.ready, wanted)?;
        grow(&mut self.waiting, wanted)?;
        Ok(())
    }

    /// Takes a sequence number out of the list in which it is.
    pub(crate) fn take(&mut self, number: u64, is_ready: bool)
        ensures ready { self.new.ready.seq_nos ≡ (if is_ready
            then without_number number self.old.ready.seq_nos else self.old.ready.seq_nos) }
        ensures waiting { self.new.waiting.seq_nos ≡ (if is_ready then self.old.waiting.seq_nos
            else without_number number self.old.waiting.seq_nos) }
        ensures away { self.new.away ≡ self.old.away }
        ensures ready_capacity { self.new.ready.capacity ≡ self.old.ready.capacity }
        ensures waiting_capacity { self.new.waiting.capacity ≡ self.old.waiting.capacity }
    {
        if is_ready {
            self.ready.take(number);
        } else {
            self.waiting.take(number);
        }
    }

    /// Puts a sequence number in its place in one list. There has to be room for it.
    pub(crate) fn put(&mut self, number: u64, is_ready: bool)
        requires { IsRoomy 1 self.old }
        ensures ready { self.new.ready.seq_nos ≡ (if is_ready
            then with_number number self.old.ready.seq_nos else self.old.ready.seq_nos) }
        ensures waiting { self.new.waiting.seq_nos ≡ (if is_ready then self.old.waiting.seq_nos
            else with_number number self.old.waiting.seq_nos) }
        ensures away { self.new.away ≡ self.old.away }
        ensures ready_capacity { self.new.ready.capacity ≡ self.old.ready.capacity }
        ensures waiting_capacity { self.new.waiting.capacity ≡ self.old.waiting.capacity }
    {
        if is_ready {
            self.ready.put(number);
        } else {
            self.waiting.put(number);
        }
    }

    /// Adds the last sequence number of all to one list. There has to be room for it.
    pub(crate) fn push(&mut self, number: u64, is_ready: bool)
        requires roomy { IsRoomy 1 self.old }
        requires last { IsBelow number self.old }
        ensures ready { self.new.ready.seq_nos ≡ (if is_ready
            then with_number number self.old.ready.seq_nos else self.old.ready.seq_nos) }
        ensures waiting { self.new.waiting.seq_nos ≡ (if is_ready then self.old.waiting.seq_nos
            else with_number number self.old.waiting.seq_nos) }
        ensures away { self.new.away ≡ self.old.away }
        ensures ready_capacity { self.new.ready.capacity ≡ self.old.ready.capacity }
        ensures waiting_capacity { self.new.waiting.capacity ≡ self.old.waiting.capacity }
    {
        if is_ready {
            self.ready.push(number);
        } else {
            self.waiting.push(number);
        }
    }

    /// Counts one more sequence number elsewhere whose element has its home here.
    pub(crate) fn send_away(&mut self)
        requires { IsRoomy 1 self.old }
        ensures ready { self.new.ready ≡ self.old.ready }
        ensures waiting { self.new.waiting ≡ self.old.waiting }
        ensures away { self.new.away ≡ self.old.away + 1 }
    {
        // The room tells the prover that the count fits.
        let _capacity = self.ready.capacity();
        self.away += 1;
    }

    /// Counts one sequence number fewer elsewhere whose element has its home here.
    pub(crate) fn take_back(&mut self)
        requires { 0 < self.old.away }
        ensures ready { self.new.ready ≡ self.old.ready }
        ensures waiting { self.new.waiting ≡ self.old.waiting }
        ensures away { self.new.away + 1 ≡ self.old.away }
    {
        self.away -= 1;
    }
}

/// Makes room for this many sequence numbers in all. If that takes memory, it makes room for a
/// quarter more, so that a growing list is seldom moved.
fn grow(seq_nos: &mut SeqNos, wanted: usize) -> Result<(), AllocError>
    ensures seq_nos { seq_nos.new.seq_nos ≡ seq_nos.old.seq_nos }
    ensures capacity { seq_nos.old.capacity ≤ seq_nos.new.capacity }
    ensures ok { OnOk result (wanted ≤ seq_nos.new.capacity) }
{
    if wanted <= seq_nos.capacity() {
        return Ok(());
    }
    seq_nos.reserve(wanted.saturating_add(wanted / 4))
}
