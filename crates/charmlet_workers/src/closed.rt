//! The end of a runtime.

ghost use Rattle.std.specs.Prelude.{◌≡◌, [], ◌∷◌, ◌≤◌, false, IfErr, IfOk, map};
ghost use Rattle.std.specs.List.{AllByRecursion};
ghost use Rattle.charmlet_model.specs.declared.refusal.Refusal.TheVariants as refusals;
ghost use Rattle.charmlet_disk.specs.File.{CrashBytes, MayLeave};
ghost use Rattle.charmlet_halves.specs.Halves.{disk_of};
ghost use Rattle.charmlet_history.specs.Kept.{core_in};
ghost use Rattle.charmlet_persist.specs.Writes.Rest.{Agrees};
ghost use Rattle.charmlet_stock.specs.ByKind.{for_all};
ghost use Rattle.charmlet_leases.specs.Passes.Passes.{HaveAllAccepts, HeldPass, IsCurrent};
ghost use Rattle.charmlet_leases.specs.Seats.Seats.{HeldSeat};
ghost use Rattle.charmlet_leases.specs.Seats.Woven.{IsWoven};
ghost use Rattle.charmlet_sequencer.specs.Sequencer.{IsOf, is_lawful};
ghost use Rattle.charmlet_hub.specs.Hub.{deliveries_in};
ghost use Rattle.charmlet_workers.specs.Runtime.{WasTrue};

use crate::runtime::{Runtime, Spare};
use crate::runtime_room::lock_all;
use charmlet_chare::Chare;
use charmlet_disk::Disk;
use charmlet_hub::{Closed, PassesOf, SeatsOf};
use charmlet_leases::{ClientPass, Seat};
use charmlet_model::Refusal;
use charmlet_sequencer::RuntimeName;
use std::sync::Mutex;

/// A runtime that wasn't closed, why not, and the seats and passes that were handed in.
#[derive(Drop)]
pub struct NotClosed<D: Disk, C: Chare, B: RuntimeName> {
    pub refusal: Refusal,
    pub runtime: Runtime<D, C, B>,
    pub seats: Vec<Seat<SeatsOf<B>>>,
    pub passes: Vec<ClientPass<PassesOf<B>>>,
}

impl<D: Disk, C: Chare, B: RuntimeName> Runtime<D, C, B> {
    /// Takes the runtime apart, even when halted, and makes no call of the disk. A performed
    /// delivery that isn't committed is finished first, and nothing is assigned then. The objects
    /// of the store show the world after the history, and the world with which it opened is the
    /// runtime's own. The ids of the seats and those of the commits without a seat are all
    /// deliveries of the history: each is in one of these lists, in the history's order. Each pass
    /// has exactly its client's accepts, and everything that it knows of its client's requests is
    /// true of the durable events; a client without a pass has no accepts. The disk is honest if
    /// the first one was; and then a crash leaves the world after some of the history, including
    /// all durable events.
    ///
    /// It takes no memory. The only refusal is `PassOut`, if a seat or a pass that is out isn't
    /// handed in. Then the runtime, the seats and the passes come back.
    pub fn close(
        self,
        seats: Vec<Seat<SeatsOf<B>>>,
        passes: Vec<ClientPass<PassesOf<B>>>,
    ) -> Result<Closed<D, C>, NotClosed<D, C, B>>
        ensures of { IfOk result (λ closed. IsOf self.opening self.before self.processors
            (core_in closed.store.history)) }
        ensures later { IfOk result (λ closed.
            self.generation ≤ (core_in closed.store.history).generation) }
        ensures unassigned { IfOk result (λ closed.
            (core_in closed.store.history).assigned ≡ []) }
        ensures agrees { IfOk result (λ closed. Agrees (core_in closed.store.history)
            closed.halves) }
        ensures keeping { IfOk result (λ closed. closed.store.keeping ≡ for_all false) }
        ensures lawful { IfOk result (λ closed. D.honest (disk_of closed.halves) →
            (outcome : CrashBytes) → MayLeave (D.file (disk_of closed.halves)) outcome →
            is_lawful (core_in closed.store.history) outcome) }
        ensures honest { IfOk result (λ closed. B.honest → D.honest (disk_of closed.halves)) }
        ensures woven { IfOk result (λ closed. IsWoven
            (closed.own.items ∷ map (λ (seat : HeldSeat). seat.ids) seats.items)
            (deliveries_in (core_in closed.store.history).history)) }
        ensures current { IfOk result (λ closed. AllByRecursion
            (λ (held : HeldPass). IsCurrent held (core_in closed.store.history)) passes.items) }
        ensures accepts { IfOk result (λ closed. HaveAllAccepts passes.items
            (core_in closed.store.history)) }
        ensures err { IfErr result (λ back. back.refusal ≡ refusals.PassOut) }
        ensures back { IfErr result (λ back. (back.runtime ≡ self) × (back.seats ≡ seats)
            × (back.passes ≡ passes)) }
    {
        let Runtime {
            shelves: locks,
            hub,
            spare,
        } = self;
        let Spare { shelves, empty } = spare.into_inner();
        let (room, shelves) = match locks.into_values(shelves) {
            Ok(out) => out,
            Err((locks, shelves)) => {
                return Err(NotClosed {
                    refusal: Refusal::PassOut,
                    runtime: Runtime {
                        shelves: locks,
                        hub,
                        spare: Mutex::new(Spare { shelves, empty }),
                    },
                    seats,
                    passes,
                });
            }
        };
        let hub = hub.into_inner();
        hub.facts();
        match hub.close(shelves, empty, seats, passes) {
            Ok(closed) => Ok(closed),
            Err(back) => Err(NotClosed {
                refusal: back.refusal,
                runtime: lock_all(back.shelves, room, back.hub, back.empty),
                seats: back.seats,
                passes: back.passes,
            }),
        }
    }

    /// The runtime's disk alone, even if the runtime is halted, and whatever seats and passes are
    /// out. The objects are dropped, and with them the events that aren't durable and a delivery
    /// that is under way. It makes no call of the disk, takes no memory, and is never refused.
    ///
    /// The disk is honest if the first one was; and then a crash leaves the world after some of the
    /// history, including all durable events.
    pub fn into_disk(self) -> D
        ensures left { WasTrue self (λ core. D.honest result → (outcome : CrashBytes) →
            MayLeave (D.file result) outcome → is_lawful core outcome) }
        ensures honest { B.honest → D.honest result }
    {
        let Runtime { hub, .. } = self;
        let hub = hub.into_inner();
        hub.facts();
        hub.into_disk()
    }
}
