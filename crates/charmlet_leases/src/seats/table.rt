//! The table of seats.

ghost use Rattle.std.specs.Prelude.{◌≡◌, ◌==◌, ◌+◌, ◌<◌, ◌≤◌, ◌++◌, ◌∷◌, [], List, length, map, false, Some, None, is_ok, IsOk, IfOk, IfErr, OnOk, OnErr, slice_get, slice_set, vec_len};
ghost use Rattle.charmlet_model.specs.declared.names.MsgId as names;
ghost use Rattle.charmlet_leases.specs.Seats.Seats.{HaveAll, HeldSeat, is_out, lending_refusal, lists_out};
ghost use Rattle.charmlet_leases.specs.Seats.Woven.{IsWoven};

use crate::seats::ids::DeliveryIds;
use crate::seats::seat::{GhostIds, Seat, SeatTableName};
use crate::tickets::TicketQueue;
use charmlet_locks::{Authority, Fragment, GhostValue};
use charmlet_model::{MsgId, Refusal};
use std::alloc::{AllocError, Global};
use std::marker::{Brand, Model};

/// The table of the seats that are out, their ids, and the ids of the deliveries that were
/// committed without a seat. A contract sees all three. At run time it also has a handle on the
/// queue of tickets of each processor whose seat is out.
#[derive(Drop)]
pub struct SeatTable<B: SeatTableName> {
    alloc: Global,
    /// The processors of the seats that are out, in the order in which the seats were lent.
    out: Vec<u16>,
    /// The queues of these processors.
    queues: Vec<TicketQueue>,
    own: DeliveryIds,
    authority: Authority<GhostIds, B>,
}

impl<B: SeatTableName> Model for SeatTable<B> {
    ghost use Rattle.std.specs.Prelude.{◌≡◌, length};
    ghost use Rattle.charmlet_leases.specs.Seats.Seats.{Seats, lists_out};

    ghost Value = { Seats };

    ghost view = { λ s. record { out = s.out.items; own = s.own; lists = s.authority } };

    ghost invariant = { λ s. (length s.authority ≡ length s.out.items)
        × (length (lists_out s.authority) ≡ length s.out.items) };
}

/// The refusal `PassOut`, since not all seats that are out were handed in. The table and the seats
/// that were handed in come back.
#[derive(Drop)]
pub struct SeatsOut<B: SeatTableName> {
    pub table: SeatTable<B>,
    pub seats: Vec<Seat<B>>,
}

impl<B: SeatTableName> SeatTable<B> {
    /// A table with no seat out and no commits, over a new authority of ids. It takes no memory.
    pub fn new(alloc: Global, authority: Authority<GhostIds, B>) -> Self
        requires { authority ≡ [] }
        ensures out { result.out ≡ [] }
        ensures own { result.own.items ≡ [] }
        ensures all { HaveAll result [] }
    {
        SeatTable {
            alloc,
            out: Vec::new(alloc),
            queues: Vec::new(alloc),
            own: DeliveryIds::new(alloc),
            authority,
        }
    }

    /// How many seats are out.
    pub fn seat_count(&self) -> usize
        ensures { result ≡ length self.now.out }
    {
        self.out.len()
    }

    /// Whether the processor's seat is out.
    pub fn is_out(&self, processor: u16) -> bool
        ensures { result ≡ is_out processor self.now.out }
    {
        self.out.as_slice().iter().any(|other| *other == processor)
    }

    /// The ids of the deliveries that were committed without a seat.
    pub fn own(&self) -> &[MsgId]
        ensures { result.now ≡ self.now.own.items }
    {
        self.own.as_slice()
    }

    /// Lends a processor's seat, which has no ids yet, with a new queue of tickets. `PassOut` if it
    /// is out; otherwise `Memory`. If refused, nothing changes.
    pub fn lend(&mut self, processor: u16) -> Result<Seat<B>, Refusal>
        requires { processor < B.processors }
        ensures seat { IfOk result (λ seat. (seat.processor ≡ processor) × (seat.ids ≡ [])) }
        ensures out { OnOk result (self.new.out ≡ self.old.out ++ processor ∷ []) }
        ensures was_in { OnOk result (is_out processor self.old.out ≡ false) }
        ensures own { self.new.own ≡ self.old.own }
        ensures all { (deliveries : List names.MsgId) → HaveAll self.old deliveries →
            HaveAll self.new deliveries }
        ensures err { IfErr result (λ refusal. refusal ≡ lending_refusal processor self.old.out) }
        ensures same { OnErr result (self.new ≡ self.old) }
    {
        if self.is_out(processor) {
            return Err(Refusal::PassOut);
        }
        let place = self.out.len();
        self.out.reserve(1)?;
        let queue = add_queue(self.alloc, &mut self.queues, processor)?;
        self.out.push_reserved(processor);
        let fragment = self.authority.issue(&GhostIds);
        Ok(Seat {
            place,
            processor,
            ids: DeliveryIds::new(self.alloc),
            fragment,
            queue,
        })
    }

    /// Puts a ticket for the message into the queue of the processor, if its seat is out and the
    /// queue isn't full. Nothing else changes. It doesn't wait, and takes no memory.
    pub fn hint(&mut self, processor: u16, id: MsgId)
        ensures { self.new ≡ self.old }
    {
        let queues = self.queues.as_mut_slice();
        // Mostly the seats are lent in rising order of their processors.
        if let Some(queue) = queues.get_mut(usize::from(processor)) {
            if queue.processor() == processor {
                queue.push(id);
                return;
            }
        }
        for queue in queues.iter_mut() {
            if queue.processor() == processor {
                queue.push(id);
                return;
            }
        }
    }

    /// Adds the id of a delivery that is committed with a seat, to the seat and to the authority.
    /// The seat has to have room for it. It takes no memory.
    pub fn commit(&mut self, seat: &mut Seat<B>, id: MsgId)
        requires { 0 < seat.old.room }
        ensures ids { seat.new.ids ≡ seat.old.ids ++ id ∷ [] }
        ensures place { seat.new.place ≡ seat.old.place }
        ensures processor { seat.new.processor ≡ seat.old.processor }
        ensures room { seat.new.room + 1 ≡ seat.old.room }
        ensures out { self.new.out ≡ self.old.out }
        ensures own { self.new.own ≡ self.old.own }
        ensures had { slice_get self.old.lists seat.old.place ≡ Some (Some seat.old.ids) }
        ensures has { self.new.lists
            ≡ slice_set self.old.lists seat.old.place (Some seat.new.ids) }
        ensures all { (deliveries : List names.MsgId) → HaveAll self.old deliveries →
            HaveAll self.new (deliveries ++ id ∷ []) }
    {
        seat.ids.push(id);
        write_ids::<Brand, B>(&mut self.authority, &mut seat.fragment, &seat.ids);
    }

    /// Makes room for `count` more commits without a seat, and never gives up room. It fails only
    /// when out of memory, and takes none if there is room. The ids stay.
    pub fn reserve_own(&mut self, count: usize) -> Result<(), AllocError>
        ensures own { self.new.own.items ≡ self.old.own.items }
        ensures out { self.new.out ≡ self.old.out }
        ensures lists { self.new.lists ≡ self.old.lists }
        ensures all { (deliveries : List names.MsgId) → HaveAll self.old deliveries →
            HaveAll self.new deliveries }
        ensures room { OnOk result (count ≤ self.new.own.room) }
        ensures stays { self.old.own.room ≤ self.new.own.room }
        ensures memory { count ≤ self.old.own.room → IsOk result }
    {
        self.own.reserve(count)
    }

    /// Adds the id of a delivery that is committed without a seat. There has to be room for it. It
    /// takes no memory.
    pub fn commit_without_seat(&mut self, id: MsgId)
        requires { 0 < self.old.own.room }
        ensures own { self.new.own.items ≡ self.old.own.items ++ id ∷ [] }
        ensures room { self.new.own.room + 1 ≡ self.old.own.room }
        ensures out { self.new.out ≡ self.old.out }
        ensures lists { self.new.lists ≡ self.old.lists }
        ensures all { (deliveries : List names.MsgId) → HaveAll self.old deliveries →
            HaveAll self.new (deliveries ++ id ∷ []) }
    {
        self.own.push(id);
    }

    /// Takes all seats in, and returns the ids of the deliveries that were committed without one.
    /// These and the ids of the seats are all deliveries: each is in one of the lists, in the order
    /// of the commits. If a seat stays out, everything comes back. It takes no memory.
    pub fn close(self, seats: Vec<Seat<B>>) -> Result<DeliveryIds, SeatsOut<B>>
        ensures own { IfOk result (λ own. own ≡ self.own) }
        ensures woven { OnOk result ((deliveries : List names.MsgId) → HaveAll self deliveries →
            IsWoven (self.own.items ∷ map (λ (seat : HeldSeat). seat.ids) seats.items)
            deliveries) }
        ensures which { is_ok result ≡ (vec_len seats == length self.out) }
        ensures back { IfErr result (λ refused. (refused.table ≡ self)
            × (refused.seats ≡ seats)) }
    {
        if seats.len() != self.out.len() {
            return Err(SeatsOut { table: self, seats });
        }
        let SeatTable { own, authority, .. } = self;
        take_all(authority, seats);
        Ok(own)
    }
}

/// Adds a new queue of a processor, and answers another handle on it. It fails only when out of
/// memory, and then adds none.
fn add_queue(
    alloc: Global,
    queues: &mut Vec<TicketQueue>,
    processor: u16,
) -> Result<TicketQueue, AllocError>
    ensures { IfOk result (λ queue. queue ≡ processor) }
{
    queues.reserve(1)?;
    let mut queue = TicketQueue::new(alloc, processor)?;
    let same = queue.try_clone()?;
    queues.push_reserved(queue);
    Ok(same)
}

/// Writes a seat's ids into the authority and the seat's fragment, which had the same ids before.
fn write_ids<N: GhostValue<GhostIds>, B: SeatTableName>(
    authority: &mut Authority<GhostIds, B>,
    fragment: &mut Fragment<GhostIds, B>,
    _ids: &DeliveryIds,
)
    requires { N.value ≡ _ids.now.items }
    ensures agrees { slice_get authority.old fragment.old.0 ≡ Some fragment.old.1 }
    ensures authority { authority.new
        ≡ slice_set authority.old fragment.old.0 (Some _ids.now.items) }
    ensures fragment { fragment.new ≡ (fragment.old.0, Some _ids.now.items) }
{
    authority.change_to::<N>(fragment);
}

/// Takes in as many seats as are out: the authority's lists are theirs.
fn take_all<B: SeatTableName>(authority: Authority<GhostIds, B>, seats: Vec<Seat<B>>)
    requires { length (lists_out authority) ≡ vec_len seats }
    ensures { (deliveries : List names.MsgId) → IsWoven (lists_out authority) deliveries →
        IsWoven (map (λ (seat : HeldSeat). seat.ids) seats.items) deliveries }
{
    let mut authority = authority;
    let mut seats = seats;
    while let Some(seat) = seats.pop() {
        take_in(&mut authority, seat);
    }
}

/// Takes in a seat, whose ids are those that the authority has for it.
fn take_in<B: SeatTableName>(authority: &mut Authority<GhostIds, B>, seat: Seat<B>)
    ensures agrees { slice_get authority.old seat.place ≡ Some (Some seat.ids) }
    ensures authority { authority.new ≡ slice_set authority.old seat.place None }
    ensures fewer { length (lists_out authority.new) + 1 ≡ length (lists_out authority.old) }
{
    let Seat { fragment, .. } = seat;
    authority.take_back(fragment);
}
