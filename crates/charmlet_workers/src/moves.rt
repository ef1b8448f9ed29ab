//! Moves of elements between two processors.

ghost use Rattle.std.specs.Prelude.{◌≡◌, ◌≢◌, ℕ, ◌<◌, false, true, None, Some, Ok, IfErr, IfOk, IfSome, OnErr, OnOk};
ghost use Rattle.charmlet_model.specs.Core as core;
ghost use Rattle.charmlet_model.specs.Core.{Done, place_of};
ghost use Rattle.charmlet_model.specs.Run.{Goes};
ghost use Rattle.charmlet_migrate.specs.Moving.{IsIdle};
ghost use Rattle.charmlet_sequencer.specs.Relocating.{Carries};
ghost use Rattle.charmlet_hub.specs.Hub.{store_in};
ghost use Rattle.charmlet_workers.specs.Refusals.{IsMoveCause, is_move_refusal};
ghost use Rattle.charmlet_workers.specs.Runtime.{StoodOn, named};

use crate::runtime::Runtime;
use charmlet_chare::Chare;
use charmlet_disk::Disk;
use charmlet_hub::Hub;
use charmlet_model::{Elem, Refusal};
use charmlet_sequencer::{ProcessorState, RuntimeName};
use std::sync::Wait;

impl<D: Disk, C: Chare, B: RuntimeName> Runtime<D, C, B> {
    /// Moves an element to a processor. If the element is there already, it does nothing. Otherwise
    /// it locks both shelves, by rising number, and then the hub; if the element has moved
    /// meanwhile, it looks for it again. Deliveries under way on the shelves end first: a performed
    /// delivery is committed, and an assigned message is released.
    ///
    /// The refusal is the first that applies of `Halted`, `Checkpointing`, `BadPes`, `Absent`,
    /// `NoBlank` and `Memory`. Then nothing has moved.
    pub fn move_to<R: Wait>(&self, rt: &R, elem: Elem, processor: u16) -> Result<(), Refusal>
        ensures moved { OnOk result (StoodOn self.now elem processor) }
        ensures err { IfErr result (λ refusal. is_move_refusal refusal ≡ true) }
        ensures cause { IfErr result (IsMoveCause self.now elem processor) }
    {
        for _ in rt.forever() {
            let source = self.locate_for_move(rt, elem, processor);
            let place = match source {
                Ok(Some(place)) => place,
                Ok(None) => return Ok(()),
                Err(refusal) => return Err(refusal),
            };
            match self.carry(rt, elem, place, processor) {
                Ok(true) => return Ok(()),
                Ok(false) => {}
                Err(refusal) => return Err(refusal),
            }
        }
        unreachable!()
    }

    /// The processor that an element has to leave for a move to this one, if it isn't there.
    fn locate_for_move<R: Wait>(
        &self,
        rt: &R,
        elem: Elem,
        processor: u16,
    ) -> Result<Option<u16>, Refusal>
        ensures source { IfOk result (λ source. IfSome source (λ place. (place < B.processors)
            × (processor < B.processors) × (place ≢ processor))) }
        ensures there { result ≡ Ok None → StoodOn self.now elem processor }
        ensures cause { IfErr result (IsMoveCause self.now elem processor) }
    {
        let hub = self.hub.lock(rt);
        hub.facts();
        hub.locate_for_move(elem, processor)
    }

    /// Locks both shelves and moves the element, if it still stands there. It returns whether it
    /// did.
    fn carry<R: Wait>(
        &self,
        rt: &R,
        elem: Elem,
        place: u16,
        processor: u16,
    ) -> Result<bool, Refusal>
        requires { (place < B.processors) × (processor < B.processors) × (place ≢ processor) }
        ensures moved { result ≡ Ok true → StoodOn self.now elem processor }
        ensures cause { (any : ℕ) → IfErr result (IsMoveCause self.now elem any) }
    {
        let mut first = self.shelves.lock(rt, usize::from(place.min(processor)));
        let mut second = self.shelves.lock(rt, usize::from(place.max(processor)));
        let first = first.grip.get_mut();
        let second = second.grip.get_mut();
        if place < processor {
            self.carry_between(rt, first, second, elem)
        } else {
            self.carry_between(rt, second, first, elem)
        }
    }

    /// Moves the element from one locked shelf to another, if it still stands there.
    fn carry_between<R: Wait>(
        &self,
        rt: &R,
        from: &mut ProcessorState<C, B>,
        to: &mut ProcessorState<C, B>,
        elem: Elem,
    ) -> Result<bool, Refusal>
        requires { from.old.number ≢ to.old.number }
        ensures from { from.new.number ≡ from.old.number }
        ensures to { to.new.number ≡ to.old.number }
        ensures moved { result ≡ Ok true → StoodOn self.now elem to.old.number }
        ensures cause { (any : ℕ) → IfErr result (IsMoveCause self.now elem any) }
    {
        if let Err(refusal) = self.settle(rt, from) {
            return Err(refusal);
        }
        if let Err(refusal) = self.settle(rt, to) {
            return Err(refusal);
        }
        relocate_from(&mut self.hub.lock(rt), from, to, elem)
    }
}

/// Moves the element from one shelf to the other, if it stands there, and returns whether it did.
/// If no delivery is under way on either, the refusal is the first that applies of `Halted`,
/// `Checkpointing`, `NoBlank` and `Memory`. If refused, nothing changes.
fn relocate_from<D: Disk, C: Chare, B: RuntimeName>(
    hub: &mut Hub<D, C, B>,
    from: &mut ProcessorState<C, B>,
    to: &mut ProcessorState<C, B>,
    elem: Elem,
) -> Result<bool, Refusal>
    requires { from.old.number ≢ to.old.number }
    ensures from { from.new.number ≡ from.old.number }
    ensures to { to.new.number ≡ to.old.number }
    ensures stood { result ≡ Ok true →
        StoodOn (named B.opening B.before B.processors B.generation) elem to.old.number }
    ensures moves { result ≡ Ok true → Goes (store_in hub.old) (core.Move elem to.old.number) Done
        (store_in hub.new) × Carries elem from.old to.old from.new to.new }
    ensures stays { result ≡ Ok false → (hub.new ≡ hub.old) × (from.new ≡ from.old)
        × (to.new ≡ to.old) × (place_of hub.old.core elem ≢ Some from.old.number) }
    ensures err { OnErr result ((hub.new ≡ hub.old) × (from.new ≡ from.old)
        × (to.new ≡ to.old)) }
    ensures cause { IsIdle from.old → IsIdle to.old → (any : ℕ) →
        IfErr result (IsMoveCause (named B.opening B.before B.processors B.generation) elem
        any) }
{
    hub.facts();
    if hub.history().where_is(elem) != Some(from.number()) {
        return Ok(false);
    }
    match hub.relocate(from, to, elem) {
        Ok(()) => {
            hub.facts();
            Ok(true)
        }
        Err(refusal) => {
            // If no delivery is under way on them, this shows that nothing is assigned there.
            hub.agree(from);
            hub.agree(to);
            Err(refusal)
        }
    }
}
