//! Seats: the rights of workers to work for their processors.

use crate::seats::ids::DeliveryIds;
use crate::tickets::{Ticket, TicketQueue};
use charmlet_locks::{AuthorityName, Fragment, GhostValue};
use charmlet_model::MsgId;
use std::alloc::AllocError;
use std::marker::{Brand, Model};

/// The name of the table of one runtime's seats, with its number of processors. The call that makes
/// an authority picks both.
pub trait SeatTableName: AuthorityName {
    ghost use Rattle.std.specs.Prelude.{ℕ};

    ghost processors: { ℕ };
}

impl SeatTableName for Brand {
    ghost processors = { 0 };
}

/// The ids of a seat, which only contracts see. The one value that code makes has none.
#[derive(Drop)]
pub struct GhostIds;

impl Model for GhostIds {
    ghost use Rattle.std.specs.Prelude.{List, []};
    ghost use Rattle.charmlet_model.specs.declared.names.MsgId.{MsgId};

    ghost Value = { List MsgId };

    ghost view = { λ _. [] };
}

impl GhostValue<GhostIds> for Brand {
    ghost use Rattle.std.specs.Prelude.{[]};

    ghost value = { [] };
}

/// The right to work for a processor. It holds the ids of the deliveries that were committed with
/// it, in order, and a handle on its processor's queue of tickets. A contract sees the ids, the
/// seat's place in its authority, its processor, and the room for more ids.
#[derive(Drop)]
pub struct Seat<B: SeatTableName> {
    pub(crate) place: usize,
    pub(crate) processor: u16,
    pub(crate) ids: DeliveryIds,
    pub(crate) fragment: Fragment<GhostIds, B>,
    pub(crate) queue: TicketQueue,
}

impl<B: SeatTableName> Model for Seat<B> {
    ghost use Rattle.std.specs.Prelude.{◌≡◌, ◌<◌, Some};
    ghost use Rattle.charmlet_leases.specs.Seats.Seats.{HeldSeat};

    ghost Value = { HeldSeat };

    ghost view = { λ s. record {
      place = s.place;
      processor = s.processor;
      ids = s.ids.items;
      room = s.ids.room;
    } };

    ghost invariant = { λ s. (s.fragment ≡ (s.place, Some s.ids.items))
        × (s.processor < B.processors)
        × (s.queue ≡ s.processor) };
}

impl<B: SeatTableName> Seat<B> {
    ghost use Rattle.std.specs.Prelude.{◌≡◌, ◌<◌, ◌≤◌, IfSome, IsOk, OnOk};

    /// The seat's processor, one of the runtime's.
    pub fn processor(&self) -> u16
        ensures processor { result ≡ self.now.processor }
        ensures is_there { result < B.processors }
    {
        self.processor
    }

    /// The ids of the deliveries that were committed with the seat.
    pub fn ids(&self) -> &[MsgId]
        ensures { result.now ≡ self.now.ids }
    {
        self.ids.as_slice()
    }

    /// Takes the foremost ticket of its processor's queue, if there is one. It doesn't wait.
    pub fn next_ticket(&mut self) -> Option<Ticket>
        ensures seat { self.new ≡ self.old }
        ensures ticket { IfSome result (λ ticket. ticket.processor ≡ self.old.processor) }
    {
        self.queue.pop()
    }

    /// How many more commits there is room for.
    pub fn room(&self) -> usize
        ensures { result ≡ self.now.room }
    {
        self.ids.room()
    }

    /// Makes room for `count` more commits, and never gives up room. It fails only when out of
    /// memory, and takes none if there is room. The seat's ids stay.
    pub fn reserve(&mut self, count: usize) -> Result<(), AllocError>
        ensures place { self.new.place ≡ self.old.place }
        ensures processor { self.new.processor ≡ self.old.processor }
        ensures ids { self.new.ids ≡ self.old.ids }
        ensures room { OnOk result (count ≤ self.new.room) }
        ensures stays { self.old.room ≤ self.new.room }
        ensures memory { count ≤ self.old.room → IsOk result }
    {
        self.ids.reserve(count)
    }
}
