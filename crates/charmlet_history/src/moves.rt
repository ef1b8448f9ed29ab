//! Moves: an element goes to another processor.

ghost use Rattle.std.specs.Prelude.{◌≡◌, ◌||◌, Some, None, IfOk, IfErr, OnOk, OnErr, is_some};
ghost use Rattle.std.specs.BTreeMap.{is_at};
ghost use Rattle.std.specs.Map.{lookup};
ghost use Rattle.std.specs.Ordering.{nat_cmp};
ghost use Rattle.charmlet_model.specs.Core as core;
ghost use Rattle.charmlet_model.specs.Core.{first_refusal, checks, next_core};
ghost use Rattle.charmlet_history.specs.Kept.{blank_of_move, core_in, plenty};

use crate::history::History;
use charmlet_model::{Elem, KindVersion, Refusal};
use std::alloc::AllocError;

impl History {
    /// Whether the element can move to the processor, ignoring the stock; `Ok(Some(kind_version))`
    /// if that needs a blank of that kind and version, and `Ok(None)` if the element is there
    /// already. The refusal is the first that applies of `Halted`, `BadPes`, `Absent` and
    /// `Uncommitted`, the last only for a move to another processor.
    pub fn test_move(&self, elem: Elem, processor: u16) -> Result<Option<KindVersion>, Refusal>
        ensures ok { IfOk result (λ kind_version.
            (kind_version ≡ blank_of_move (core_in self.now) elem processor)
            × (first_refusal (checks (core_in self.now) plenty (core.Move elem processor)) ≡ None)) }
        ensures err { IfErr result (λ refusal.
            first_refusal (checks (core_in self.now) plenty (core.Move elem processor))
            ≡ Some refusal) }
    {
        if self.halted {
            return Err(Refusal::Halted);
        }
        if processor >= self.present.processors() {
            return Err(Refusal::BadPes);
        }
        let Some(place) = self.element(elem).place else {
            return Err(Refusal::Absent);
        };
        if place == processor {
            return Ok(None);
        }
        if self.is_one_busy(place, processor) {
            return Err(Refusal::Uncommitted);
        }
        Ok(self.present.manifest().kind_version_of(elem.array))
    }

    /// Moves an element to the processor. It takes no memory if no message to it is pending. If
    /// memory is refused, nothing changes.
    pub fn relocate(&mut self, elem: Elem, processor: u16) -> Result<(), AllocError>
        requires can { first_refusal (checks (core_in self.old) plenty (core.Move elem processor))
            ≡ None }
        ensures ok { OnOk result (core_in self.new
            ≡ next_core (core_in self.old) (core.Move elem processor)) }
        ensures err { OnErr result (self.new ≡ self.old) }
    {
        if self.present.place_or_home(elem) == processor {
            return Ok(());
        }
        self.present.relocate(elem, processor)?;
        Ok(())
    }

    /// Whether one of two processors has an assigned message.
    fn is_one_busy(&self, processor: u16, other: u16) -> bool
        ensures { result ≡ (is_some (lookup (is_at (nat_cmp processor)) self.now.assigned)
            || is_some (lookup (is_at (nat_cmp other)) self.now.assigned)) }
    {
        self.assigned.contains(processor) || self.assigned.contains(other)
    }
}
