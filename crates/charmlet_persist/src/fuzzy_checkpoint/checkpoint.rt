//! The data of a fuzzy checkpoint while its store goes on.

ghost use Rattle.std.specs.Prelude.{◌≡◌, max, OnOk, OnErr};

use crate::fuzzy_checkpoint::captured_element::CapturedElement;
use charmlet_model::Elem;
use indexmap::IndexMap;
use std::alloc::AllocError;
use std::marker::Model;

/// The most bytes that a delivery takes in a catch-up list.
pub(crate) const MAX_CAUGHT_UP: usize = 4_140;

/// A fuzzy checkpoint of a store that goes on: the image's entry of each captured element, and the
/// deliveries since the checkpoint began. A contract sees these, and how many more deliveries there
/// is room for; `IsRunning` ties them to the store.
#[derive(Drop)]
pub struct FuzzyCheckpoint {
    /// How many events there were when it began, including those before the opening world.
    pub(crate) begun: u64,
    /// The captured elements. An element that was constructed since, and had no record, has no
    /// entry.
    pub(crate) captured: IndexMap<Elem, Option<CapturedElement>>,
    /// The bytes of the deliveries since the checkpoint began.
    pub(crate) caught_up: Vec<u8>,
    /// How many deliveries these are.
    pub(crate) count: u64,
    /// How many more deliveries there is room for.
    pub(crate) room: usize,
}

impl Model for FuzzyCheckpoint {
    ghost use Rattle.std.specs.Prelude.{◌+◌, ◌*◌, ◌≤◌, vec_capacity, vec_len};
    ghost use Rattle.indexmap.specs.IndexMap.{spare};
    ghost use Rattle.charmlet_shelf.specs.Risen.{risen};
    ghost use Rattle.charmlet_persist.specs.FuzzyCheckpoint.Checkpoint.{Run};

    ghost Value = { Run };

    ghost view = { λ r. record {
      begun = r.begun;
      captured = risen r.captured.entries;
      caught_up = r.caught_up.items;
      count = r.count;
      room = r.room;
    } };

    ghost invariant = { λ r. (r.room ≤ spare r.captured)
        × (vec_len r.caught_up + 4140 * r.room ≤ vec_capacity r.caught_up) };
}

impl FuzzyCheckpoint {
    /// Makes room for this many deliveries, whatever they are, if there is less. It never gives up
    /// room. When out of memory, the room is unchanged.
    pub fn reserve(&mut self, deliveries: usize) -> Result<(), AllocError>
        ensures ok { OnOk result (self.new
            ≡ record self.old { room = max self.old.room deliveries }) }
        ensures err { OnErr result (self.new ≡ self.old) }
    {
        if deliveries <= self.room {
            return Ok(());
        }
        self.captured.reserve(deliveries)?;
        self.caught_up
            .reserve(deliveries.saturating_mul(MAX_CAUGHT_UP))?;
        self.room = deliveries;
        Ok(())
    }
}
