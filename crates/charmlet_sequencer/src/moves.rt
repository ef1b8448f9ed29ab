//! Moves of elements between two shelves.

ghost use Rattle.std.specs.Prelude.{◌≡◌, ◌≢◌, ℕ, false, Ok, Some, IfErr, IfOk, OnErr, OnOk};
ghost use Rattle.charmlet_model.specs.Core as core;
ghost use Rattle.charmlet_model.specs.Core.{Refuses, place_of};
ghost use Rattle.charmlet_model.specs.Run.{Goes};
ghost use Rattle.charmlet_delivery.specs.Workplace.{done_or_refused};
ghost use Rattle.charmlet_sequencer.specs.Relocating.{Carries, IsAway, StaysOrLeaves};
ghost use Rattle.charmlet_sequencer.specs.Relocating.{KeepsObjectsOfBoth};
ghost use Rattle.charmlet_sequencer.specs.Sequencer.{store_of};

use crate::names::RuntimeName;
use crate::part::write;
use crate::processor_state::ProcessorState;
use crate::sequencer::Sequencer;
use charmlet_chare::Chare;
use charmlet_disk::Disk;
use charmlet_migrate::move_between;
use charmlet_model::{Elem, Refusal};

impl<D: Disk, C: Chare, B: RuntimeName> Sequencer<D, C, B> {
    /// The processor that an element has to leave for a move to this one, or `None` if the element
    /// is there already: then the move is done, and nothing changes. It needs no shelf. An element
    /// that has to leave is [relocated](Self::relocate); only that call tests whether a message is
    /// assigned to one of the two processors.
    ///
    /// The refusal, which is the move's, is the first that applies of `Halted`, `BadPes` and
    /// `Absent`. It takes no memory.
    pub fn locate_for_move(&self, elem: Elem, processor: u16) -> Result<Option<u16>, Refusal>
        ensures ok { IfOk result (λ source. StaysOrLeaves (store_of self.now) elem processor
            source) }
        ensures running { OnOk result (self.now.core.halted ≡ false) }
        ensures err { IfErr result (λ refusal. Goes (store_of self.now)
            (core.Move elem processor) (Refuses refusal) (store_of self.now)) }
        ensures away { (place : ℕ) → IsAway self.now.core elem place processor →
            self.now.core.halted ≡ false → result ≡ Ok (Some place) }
    {
        self.history.facts();
        match self.history.test_move(elem, processor) {
            Ok(None) => Ok(None),
            Err(refusal) if refusal != Refusal::Uncommitted => Err(refusal),
            // Whether a message is assigned is tested under the locks.
            _ => Ok(self.history.where_is(elem)),
        }
    }

    /// Moves an element from one shelf to the other. A blank of its kind is taken from the stock,
    /// is set to its version, gets its state, and stands on the other shelf, with the element's two
    /// counts. Then the element's place changes. Only then its old object leaves its shelf and is
    /// retired. The caller checks the element's place by
    /// [`where_is`](charmlet_history::History::where_is), since it may have moved before both
    /// shelves were locked.
    ///
    /// The refusal is the first that applies of `Halted`, `Uncommitted` if one of the two
    /// processors has an assigned message, `NoBlank` and `Memory`. Then nothing changes.
    pub fn relocate(
        &mut self,
        from: &mut ProcessorState<C, B>,
        to: &mut ProcessorState<C, B>,
        elem: Elem,
    ) -> Result<(), Refusal>
        requires place { place_of self.old.core elem ≡ Some from.old.number }
        requires apart { from.old.number ≢ to.old.number }
        ensures goes { Goes (store_of self.old) (core.Move elem to.old.number)
            (done_or_refused result) (store_of self.new) }
        ensures ok { OnOk result (Carries elem from.old to.old from.new to.new) }
        ensures from { from.new ≡ record from.old { records = from.new.records } }
        ensures to { to.new ≡ record to.old { records = to.new.records } }
        ensures objects { KeepsObjectsOfBoth self.old self.new from.old to.old from.new to.new }
        ensures disk { self.new.disk ≡ self.old.disk }
        ensures err { OnErr result ((self.new ≡ self.old) × (from.new ≡ from.old)
            × (to.new ≡ to.old)) }
    {
        self.history.facts();
        self.parts.agree(&mut from.fragment);
        self.parts.agree(&mut to.fragment);
        let moved = move_between(
            &mut self.history,
            &mut from.shelf,
            &mut to.shelf,
            &mut self.stock,
            elem,
        );
        self.history.facts();
        write(&mut self.parts, &mut from.fragment, &from.shelf);
        write(&mut self.parts, &mut to.fragment, &to.shelf);
        moved
    }
}
