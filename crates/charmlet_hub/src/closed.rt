//! The end of a hub and its shelves.

ghost use Rattle.std.specs.Prelude.{◌≡◌, ◌≤◌, [], ◌∷◌, false, true, IfErr, IfOk, OnErr, OnOk, map, vec_len};
ghost use Rattle.std.specs.List.{AllByRecursion};
ghost use Rattle.charmlet_model.specs.declared.refusal.Refusal.TheVariants as refusals;
ghost use Rattle.charmlet_disk.specs.File.{CrashBytes, MayLeave};
ghost use Rattle.charmlet_halves.specs.Halves.{disk_of};
ghost use Rattle.charmlet_history.specs.Kept.{core_in};
ghost use Rattle.charmlet_sequencer.specs.Rest.{Agrees};
ghost use Rattle.charmlet_stock.specs.ByKind.{for_all};
ghost use Rattle.charmlet_store.specs.Store.{AreEmpty};
ghost use Rattle.charmlet_leases.specs.Passes.Passes.{AreAll, HaveAllAccepts, HeldPass, IsCurrent};
ghost use Rattle.charmlet_leases.specs.Seats.Seats.{HeldSeat};
ghost use Rattle.charmlet_leases.specs.Seats.Woven.{IsWoven};
ghost use Rattle.charmlet_sequencer.specs.Sequencer.{IsOf, is_lawful};
ghost use Rattle.charmlet_hub.specs.Hub.{HubShown, deliveries_in};
ghost use Rattle.charmlet_hub.specs.Settling.{SettleAll, are_all_in, ended};

use crate::hub::{Hub, HubParts};
use crate::names::{PassesOf, SeatsOf};
use charmlet_chare::Chare;
use charmlet_disk::Disk;
use charmlet_halves::Halves;
use charmlet_leases::{ClientPass, DeliveryIds, Seat};
use charmlet_model::Refusal;
use charmlet_sequencer::{ProcessorState, RuntimeName};
use charmlet_shelf::Shelf;
use charmlet_store::Store;

/// The parts of a closed hub: a store, in which no delivery is under way, the halves of its disk,
/// and the ids of the deliveries that were committed without a seat.
#[derive(Drop)]
pub struct Closed<D: Disk, C: Chare> {
    pub store: Store<C>,
    pub halves: Halves<D>,
    pub own: DeliveryIds,
}

/// A hub that wasn't closed, why not, and everything that was handed in.
#[derive(Drop)]
pub struct NotClosed<D: Disk, C: Chare, B: RuntimeName> {
    pub refusal: Refusal,
    pub hub: Hub<D, C, B>,
    pub shelves: Vec<ProcessorState<C, B>>,
    pub empty: Vec<Shelf<C>>,
    pub seats: Vec<Seat<SeatsOf<B>>>,
    pub passes: Vec<ClientPass<PassesOf<B>>>,
}

impl<D: Disk, C: Chare, B: RuntimeName> Hub<D, C, B> {
    /// Takes the hub and its shelves apart, even when halted, and makes no call of the disk. All
    /// shelves are handed in, in any order. A delivery that is under way on one of them ends first,
    /// as [`settle`](Self::settle) ends it, and nothing is assigned then. The objects show the
    /// world after the history. The ids of the seats and those of the commits without a seat are
    /// all deliveries of the history: each is in one of these lists, in the history's order. Each
    /// pass has exactly its client's accepts, and everything that it knows of its client's requests
    /// is true of the durable events; a client without a pass has no accepts. It takes no memory:
    /// an empty shelf for each processor, in whose place the store has its shelf, is handed in too.
    ///
    /// The only refusal is `PassOut`, if a seat or a pass that is out isn't handed in. Then
    /// everything comes back unchanged.
    pub fn close(
        self,
        shelves: Vec<ProcessorState<C, B>>,
        empty: Vec<Shelf<C>>,
        seats: Vec<Seat<SeatsOf<B>>>,
        passes: Vec<ClientPass<PassesOf<B>>>,
    ) -> Result<Closed<D, C>, NotClosed<D, C, B>>
        requires count { vec_len shelves ≡ B.processors }
        requires empty { AreEmpty B.processors empty.items }
        ensures of { IfOk result (λ closed. IsOf B.opening B.before B.processors
            (core_in closed.store.history)) }
        ensures later { IfOk result (λ closed.
            B.generation ≤ (core_in closed.store.history).generation) }
        ensures settles { IfOk result (λ closed. (last : HubShown D)
            × SettleAll self shelves.items last
            × (core_in closed.store.history ≡ last.core)
            × (closed.store.census ≡ last.census)
            × (disk_of closed.halves ≡ last.disk)
            × (closed.own ≡ last.seats.own)) }
        ensures unassigned { IfOk result (λ closed.
            (core_in closed.store.history).assigned ≡ []) }
        ensures agrees { IfOk result (λ closed. Agrees (core_in closed.store.history)
            closed.halves) }
        ensures keeping { IfOk result (λ closed. closed.store.keeping ≡ for_all false) }
        ensures disk { IfOk result (λ closed. disk_of closed.halves ≡ self.disk) }
        ensures lawful { D.honest self.disk → IfOk result (λ closed. (outcome : CrashBytes) →
            MayLeave (D.file (disk_of closed.halves)) outcome →
            is_lawful (core_in closed.store.history) outcome) }
        ensures woven { IfOk result (λ closed. IsWoven
            (closed.own.items ∷ map (λ (seat : HeldSeat). seat.ids) seats.items)
            (deliveries_in (core_in closed.store.history).history)) }
        ensures current { IfOk result (λ closed. AllByRecursion
            (λ (held : HeldPass). IsCurrent held (core_in closed.store.history)) passes.items) }
        ensures accepts { IfOk result (λ closed. HaveAllAccepts passes.items
            (core_in closed.store.history)) }
        ensures all { OnOk result (AreAll self.passes.held passes.items) }
        ensures all_in { OnOk result (are_all_in self (vec_len seats) (vec_len passes) ≡ true) }
        ensures err { IfErr result (λ back. back.refusal ≡ refusals.PassOut) }
        ensures out { OnErr result (are_all_in self (vec_len seats) (vec_len passes) ≡ false) }
        ensures back { IfErr result (λ back. (back.hub ≡ self) × (back.shelves ≡ shelves)
            × (back.empty ≡ empty) × (back.seats ≡ seats) × (back.passes ≡ passes)) }
    {
        if !self.has_all(seats.len(), passes.len()) {
            return Err(NotClosed {
                refusal: Refusal::PassOut,
                hub: self,
                shelves,
                empty,
                seats,
                passes,
            });
        }
        let mut hub = self;
        let mut shelves = shelves;
        hub.settle_all(shelves.as_mut_slice());
        hub.facts();
        let HubParts {
            sequencer,
            seats: seat_table,
            passes: pass_table,
        } = hub.into_parts();
        let apart = sequencer.take_apart(shelves, empty);
        let Ok(own) = seat_table.close(seats) else {
            unreachable!()
        };
        let Ok(()) = pass_table.close(passes) else {
            unreachable!()
        };
        Ok(Closed {
            store: apart.store,
            halves: apart.halves,
            own,
        })
    }

    /// The hub's disk alone, even when halted, and whatever is out or under way. The rest is
    /// dropped, and with it the events that aren't durable. It makes no call of the disk, and takes
    /// no memory.
    pub fn into_disk(self) -> D
        ensures { result ≡ self.disk }
    {
        let HubParts { sequencer, .. } = self.into_parts();
        sequencer.into_disk()
    }

    /// Whether this many seats and passes are all that are out.
    fn has_all(&self, seats: usize, passes: usize) -> bool
        ensures { result ≡ are_all_in self.now seats passes }
    {
        seats == self.seats.seat_count() && passes == self.passes.pass_count()
    }

    /// Ends the delivery that is under way on each of these shelves.
    fn settle_all(&mut self, shelves: &mut [ProcessorState<C, B>])
        ensures settles { SettleAll self.old shelves.old self.new }
        ensures shelves { shelves.new ≡ map ended shelves.old }
        ensures passes { self.new.passes ≡ self.old.passes }
        ensures out { self.new.seats.out ≡ self.old.seats.out }
        ensures disk { self.new.disk ≡ self.old.disk }
    {
        for i in 0..shelves.len() {
            self.settle(&mut shelves[i]);
        }
    }
}
