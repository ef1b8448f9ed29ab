//! The floor of a run by workers: everything that a script's lines need besides the runtime.

ghost use Rattle.std.specs.Prelude.{◌≡◌, ◌++◌, [], OnOk, map};
ghost use Rattle.std.specs.List.{AllByRecursion};
ghost use Rattle.charmlet_leases.specs.Seats.Seats.{HeldSeat};

use crate::clients::Clients;
use charmlet_chare::Chare;
use charmlet_disk::Disk;
use charmlet_hub::{PassesOf, SeatsOf};
use charmlet_leases::{ClientPass, Seat};
use charmlet_model::Refusal;
use charmlet_requests::Handlers;
use charmlet_sequencer::RuntimeName;
use charmlet_stock::Stock;
use charmlet_workers::{Runtime, Worked, WorkerSlot};
use std::alloc::{AllocError, Global};
use std::sync::Wait;

/// The seats of the workers, by rising processor, an empty list with room for them, the passes of
/// the clients, the handlers, and the objects that the lines supply.
pub(crate) struct Floor<C: Chare, B: RuntimeName> {
    pub(crate) slots: Vec<WorkerSlot<B>>,
    /// The list for the end of the run, which therefore takes no memory.
    pub(crate) seats: Vec<Seat<SeatsOf<B>>>,
    pub(crate) clients: Clients<B>,
    pub(crate) handlers: Handlers,
    pub(crate) source: Stock<C>,
}

// Written by hand, so that dropping all its fields is proved once.
impl<C: Chare, B: RuntimeName> Drop for Floor<C, B> {
    fn drop(self) {
        let Floor {
            slots,
            seats,
            clients,
            handlers,
            source,
        } = self;
        drop(slots);
        drop(seats);
        drop(clients);
        drop(handlers);
        drop(source);
    }
}

impl<C: Chare, B: RuntimeName> Floor<C, B> {
    ghost use Rattle.charmlet_cli_workers.specs.Heard.{AreTidy};

    /// A floor without seats and without passes. It takes no memory.
    pub(crate) fn new(alloc: Global, handlers: Handlers, source: Stock<C>) -> Self
        ensures source { result.source ≡ source }
        ensures handlers { result.handlers ≡ handlers }
        ensures passes { result.clients.passes.items ≡ [] }
        ensures tidy { AreTidy result.clients.passes.items result.clients.places.entries }
        ensures slots { result.slots.items ≡ [] }
        ensures seats { result.seats.items ≡ [] }
    {
        Floor {
            slots: Vec::new(alloc),
            seats: Vec::new(alloc),
            clients: Clients::new(alloc),
            handlers,
            source,
        }
    }

    /// The lent seats and passes, for the end of the run.
    pub(crate) fn into_lent(self) -> Lent<B>
        ensures passes { result.passes.items ≡ self.clients.passes.items }
        ensures slots { result.slots.items ≡ self.slots.items }
        ensures seats { result.seats.items ≡ self.seats.items }
    {
        let Floor {
            slots,
            seats,
            clients,
            handlers,
            source,
        } = self;
        drop(handlers);
        drop(source);
        Lent {
            slots,
            seats,
            passes: clients.into_passes(),
        }
    }
}

/// The seats and the passes that a runtime lent, and an empty list with room for the seats.
#[derive(Drop)]
pub(crate) struct Lent<B: RuntimeName> {
    pub(crate) slots: Vec<WorkerSlot<B>>,
    pub(crate) seats: Vec<Seat<SeatsOf<B>>>,
    pub(crate) passes: Vec<ClientPass<PassesOf<B>>>,
}

/// Takes the seats of this many processors, by rising number, and makes room for them in the list
/// for the end. `Memory` if there is none for one of them; then those before it are taken.
pub(crate) fn take_seats<D: Disk, C: Chare, B: RuntimeName, R: Wait>(
    rt: &R,
    runtime: &Runtime<D, C, B>,
    slots: &mut Vec<WorkerSlot<B>>,
    seats: &mut Vec<Seat<SeatsOf<B>>>,
    processors: u16,
) -> Result<(), Refusal>
    requires { slots.old.items ≡ [] }
    ensures new { OnOk result (AllByRecursion (λ ids. ids ≡ [])
        (map (λ slot. slot.seat.ids) slots.new.items)) }
    ensures seats { seats.new.items ≡ seats.old.items }
{
    if seats.reserve(usize::from(processors)).is_err() {
        return Err(Refusal::Memory);
    }
    for processor in 0..processors {
        if slots.reserve(1).is_err() {
            return Err(Refusal::Memory);
        }
        let seat = match runtime.seat(rt, processor) {
            Ok(seat) => seat,
            Err(refusal) => return Err(refusal),
        };
        let worked = Worked {
            count: 0,
            refusal: None,
        };
        slots.push_reserved(WorkerSlot { seat, worked });
    }
    Ok(())
}

/// Puts the seats of workers into a list. It takes no memory if the list has room for them.
pub(crate) fn give_up<B: RuntimeName>(
    slots: Vec<WorkerSlot<B>>,
    seats: &mut Vec<Seat<SeatsOf<B>>>,
) -> Result<(), AllocError>
    ensures { OnOk result (map (λ (seat : HeldSeat). seat.ids) seats.new.items
        ≡ map (λ (seat : HeldSeat). seat.ids) seats.old.items
        ++ map (λ slot. slot.seat.ids) slots.items) }
{
    for slot in slots {
        let WorkerSlot { seat, worked: _ } = slot;
        seats.push(seat)?;
    }
    Ok(())
}
