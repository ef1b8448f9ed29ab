//! Moves between two locked shelves.

ghost use Rattle.std.specs.Prelude.{◌≡◌, ◌≢◌, ℕ, false, Ok, Some, IfErr, IfOk, OnErr, OnOk};
ghost use Rattle.charmlet_model.specs.Core as core;
ghost use Rattle.charmlet_model.specs.Core.{Refuses, place_of};
ghost use Rattle.charmlet_model.specs.Run.{Goes};
ghost use Rattle.charmlet_delivery.specs.Workplace.{done_or_refused};
ghost use Rattle.charmlet_sequencer.specs.Relocating.{Carries, IsAway, KeepsObjectsOfBoth, StaysOrLeaves};
ghost use Rattle.charmlet_hub.specs.Hub.{sequencer_in, store_in};
ghost use Rattle.charmlet_watch.specs.Moments.{Made, Steps, moment_of};

use crate::names::{WatchedName, Watcher};
use crate::noted::{Noted, note};
use crate::watched::Watched;
use charmlet_chare::Chare;
use charmlet_disk::Disk;
use charmlet_model::{Elem, Refusal};
use charmlet_sequencer::ProcessorState;

impl<D: Disk, C: Chare, B: WatchedName> Watched<D, C, B> {
    /// The processor that an element has to leave for a move to this one, or `None` if the element
    /// is there already: then the move is done, and nothing changes. It needs no shelf. An element
    /// that has to leave is [relocated](Self::relocate); only that call tests whether a message is
    /// assigned to one of the two processors.
    ///
    /// The refusal, which is the move's, is the first that applies of `Halted`, `Checkpointing`,
    /// `BadPes` and `Absent`. It takes no memory.
    pub fn locate_for_move(&self, elem: Elem, processor: u16) -> Result<Option<u16>, Refusal>
        ensures ok { IfOk result (λ source. StaysOrLeaves (store_in self.now) elem processor
            source) }
        ensures running { OnOk result (self.now.core.halted ≡ false) }
        ensures err { IfErr result (λ refusal. Goes (store_in self.now)
            (core.Move elem processor) (Refuses refusal) (store_in self.now)) }
        ensures away { (place : ℕ) → IsAway self.now.core elem place processor →
            self.now.core.halted ≡ false → self.now.busy ≡ false → result ≡ Ok (Some place) }
    {
        self.hub.locate_for_move(elem, processor)
    }

    /// Moves an element from one shelf to the other. A blank of its kind is taken from the stock,
    /// is set to its version, gets its state, and stands on the other shelf, with the element's two
    /// counts. Then the element's place changes. Only then its old object leaves its shelf and is
    /// retired. The caller checks the element's place by
    /// [`where_is`](charmlet_history::History::where_is), since it may have moved before both
    /// shelves were locked.
    ///
    /// The refusal is the first that applies of `Halted`, `Checkpointing`, `Uncommitted` if one of
    /// the two processors has an assigned message, `NoBlank` and `Memory`. Then nothing changes.
    pub fn relocate(
        &mut self,
        me: &mut Watcher<B>,
        from: &mut ProcessorState<C, B>,
        to: &mut ProcessorState<C, B>,
        elem: Elem,
    ) -> Result<(), Refusal>
        requires place { place_of self.old.core elem ≡ Some from.old.number }
        requires apart { from.old.number ≢ to.old.number }
        ensures goes { Goes (store_in self.old) (core.Move elem to.old.number)
            (done_or_refused result) (store_in self.new) }
        ensures ok { OnOk result (Carries elem from.old to.old from.new to.new) }
        ensures from { from.new ≡ record from.old { records = from.new.records } }
        ensures to { to.new ≡ record to.old { records = to.new.records } }
        ensures objects { KeepsObjectsOfBoth (sequencer_in self.old) (sequencer_in self.new)
            from.old to.old from.new to.new }
        ensures rest { self.new
            ≡ record self.old { core = self.new.core; census = self.new.census } }
        ensures err { OnErr result ((self.new ≡ self.old) × (from.new ≡ from.old)
            × (to.new ≡ to.old)) }
        ensures made { Made me.old (Steps (core.Move elem to.old.number) (done_or_refused result))
            (moment_of self.new) me.new }
    {
        let processor = to.number();
        let done = self.hub.relocate(from, to, elem);
        note(
            &mut self.sightings,
            me,
            &self.hub,
            &Noted::Move {
                elem,
                processor,
                done: &done,
            },
        );
        done
    }
}
