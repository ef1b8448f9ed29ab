//! Views of a store: its pending messages and its elements.

ghost use Rattle.std.specs.Prelude.{◌≡◌, None, length, map, IfOk, IsOk};
ghost use Rattle.charmlet_model.specs.Core.{place_of};
ghost use Rattle.charmlet_model.specs.World.{record_of};
ghost use Rattle.charmlet_history.specs.Kept.{core_in};
ghost use Rattle.charmlet_store.specs.Look.{IsLook, StandsWith};
ghost use Rattle.charmlet_store.specs.Store.{world_in};

use crate::store::Store;
use charmlet_chare::Chare;
use charmlet_model::{Elem, MsgId};
use std::alloc::AllocError;

/// A view of an element: its processor and packed state, if it is there, and how many messages it
/// sent and received in its whole life.
#[derive(Debug, Drop)]
pub struct Look {
    pub standing: Option<Standing>,
    pub sent: u64,
    pub received: u64,
}

/// The processor of a present element, and its packed state.
#[derive(Debug, Drop)]
pub struct Standing {
    pub processor: u16,
    pub packed: Vec<u8>,
}

impl<C: Chare> Store<C> {
    /// How many messages are pending.
    pub fn pending_count(&self) -> usize
        ensures { result ≡ length (world_in self.now).pending }
    {
        self.history.pending_count()
    }

    /// The ids of the pending messages, in order of arrival.
    pub fn pending(&self) -> Result<Vec<MsgId>, AllocError>
        ensures { IfOk result (λ ids. ids.items ≡ map (λ m. m.id) (world_in self.now).pending) }
    {
        let mut ids = Vec::with_capacity(self.alloc, self.pending_count())?;
        for (id, _letter) in self.history.messages() {
            ids.push(id)?;
        }
        Ok(ids)
    }

    /// Looks at an element. It fails only when out of memory, which only the packed state of a
    /// present element takes. Nothing changes.
    pub fn look(&mut self, elem: Elem) -> Result<Look, AllocError>
        ensures same { self.new ≡ self.old }
        ensures ok { IfOk result (IsLook (place_of (core_in self.old.history) elem)
            (record_of (world_in self.old) elem)) }
        ensures absent { (record_of (world_in self.old) elem).state ≡ None → IsOk result }
    {
        self.history.facts();
        let counts = self.history.element(elem);
        let standing = self.standing_of(elem)?;
        Ok(Look {
            standing,
            sent: counts.sent,
            received: counts.received,
        })
    }

    /// The processor and packed state of an element, if it is there. It fails only when out of
    /// memory. Nothing changes.
    fn standing_of(&mut self, elem: Elem) -> Result<Option<Standing>, AllocError>
        ensures same { self.new ≡ self.old }
        ensures ok { IfOk result (StandsWith (place_of (core_in self.old.history) elem)
            (record_of (world_in self.old) elem).state) }
        ensures absent { (record_of (world_in self.old) elem).state ≡ None → IsOk result }
    {
        self.history.facts();
        let Some(processor) = self.history.where_is(elem) else {
            return Ok(None);
        };
        let Some(shelf) = self.shelves.get_mut(usize::from(processor)) else {
            unreachable!()
        };
        let Ok(image) = shelf.image(elem) else {
            return Err(AllocError);
        };
        let Some(image) = image else { unreachable!() };
        Ok(Some(Standing {
            processor,
            packed: image.packed,
        }))
    }
}
