//! Ids of deliveries, in the order of their commits.

use charmlet_model::MsgId;
use std::alloc::{AllocError, Global};
use std::marker::Model;

/// Ids of deliveries, in the order of their commits. A contract sees them and the room for more.
#[derive(Debug, Drop)]
pub struct DeliveryIds {
    ids: Vec<MsgId>,
}

impl Model for DeliveryIds {
    ghost use Rattle.std.specs.Prelude.{◌-◌};
    ghost use Rattle.std.specs.Vec.{vec_len, vec_capacity};
    ghost use Rattle.charmlet_leases.specs.Seats.Seats.{IdList};

    ghost Value = { IdList };

    ghost view = { λ s. record {
      items = s.ids.items;
      room = vec_capacity s.ids - vec_len s.ids;
    } };
}

impl DeliveryIds {
    ghost use Rattle.std.specs.Prelude.{◌≡◌, ◌<◌, ◌≤◌, ◌+◌, ◌++◌, ◌∷◌, [], IsOk, OnOk};

    /// No ids. It takes no memory.
    pub(crate) fn new(alloc: Global) -> Self
        ensures { result.items ≡ [] }
    {
        DeliveryIds {
            ids: Vec::new(alloc),
        }
    }

    /// The ids, in the order of their commits.
    pub fn as_slice(&self) -> &[MsgId]
        ensures { result.now ≡ self.now.items }
    {
        self.ids.as_slice()
    }

    /// How many more ids there is room for.
    pub fn room(&self) -> usize
        ensures { result ≡ self.now.room }
    {
        self.ids.capacity() - self.ids.len()
    }

    /// Makes room for `count` more ids, and never gives up room. It takes no memory if there is
    /// room.
    pub(crate) fn reserve(&mut self, count: usize) -> Result<(), AllocError>
        ensures items { self.new.items ≡ self.old.items }
        ensures room { OnOk result (count ≤ self.new.room) }
        ensures stays { self.old.room ≤ self.new.room }
        ensures memory { count ≤ self.old.room → IsOk result }
    {
        self.ids.reserve(count)
    }

    /// Adds an id. There has to be room for it. It takes no memory.
    pub(crate) fn push(&mut self, id: MsgId)
        requires { 0 < self.old.room }
        ensures items { self.new.items ≡ self.old.items ++ id ∷ [] }
        ensures room { self.new.room + 1 ≡ self.old.room }
    {
        self.ids.push_reserved(id);
    }
}
