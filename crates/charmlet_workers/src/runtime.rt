//! The runtime: its shelves and its hub, each under its lock.

ghost use Rattle.std.specs.Prelude.{◌≡◌, ◌<◌, ◌≤◌, [], true, Err, IfErr, IfOk, OnOk};
ghost use Rattle.charmlet_model.specs.declared.refusal.Refusal.TheVariants as refusals;
ghost use Rattle.charmlet_model.specs.declared.kind.Kind.{Kind};
ghost use Rattle.charmlet_stock.specs.ByKind.{at};
ghost use Rattle.charmlet_workers.specs.Refusals.{is_lending_refusal};
ghost use Rattle.charmlet_workers.specs.Runtime.{IsLent, WereCounted};

use charmlet_chare::Chare;
use charmlet_disk::Disk;
use charmlet_hub::{Hub, PassesOf, SeatsOf};
use charmlet_leases::{ClientPass, Seat};
use charmlet_locks::{Locks, Numbering};
use charmlet_model::Refusal;
use charmlet_sequencer::{ProcessorState, RuntimeName};
use charmlet_shelf::Shelf;
use charmlet_stock::{ByKind, Tally};
use std::marker::Model;
use std::sync::{Mutex, Wait};

/// A shelf for each processor, and the hub, each under its lock. A contract sees the world with
/// which the runtime opened, how many events came before it, how many processors there are, and the
/// generation at which it opened: they are the hub's, and take no bytes.
///
/// The calls of the hub and of its shelves state what changes under the locks. The runtime's own
/// contracts tell of a change only the part in the caller's own seat or pass, and, once everything
/// is closed, the whole.
#[derive(Drop)]
pub struct Runtime<D: Disk, C: Chare, B: RuntimeName> {
    /// The lock of each processor's shelf. Processors count from 0, and each shelf lies under its
    /// own lock.
    pub(crate) shelves: ShelfLocks<C, B>,
    pub(crate) hub: Mutex<Hub<D, C, B>>,
    /// The memory for the runtime's end. No call takes this lock, which lets threads share objects
    /// that they don't look at.
    pub(crate) spare: Mutex<Spare<C, B>>,
}

impl<D: Disk, C: Chare, B: RuntimeName> Model for Runtime<D, C, B> {
    ghost use Rattle.std.specs.Prelude.{◌≡◌};
    ghost use Rattle.charmlet_workers.specs.Runtime.{RuntimeShown, named};

    ghost Value = { RuntimeShown };

    ghost view = { λ _. named B.opening B.before B.processors B.generation };

    ghost invariant = { λ r. r.shelves ≡ B.processors };
}

/// The locks of shelves, which are numbered by their processors.
pub(crate) type ShelfLocks<C, B> = Locks<ProcessorState<C, B>, ByProcessor>;

/// A shelf has the number of its processor.
pub struct ByProcessor;

impl<C: Chare, B: RuntimeName> Numbering<ProcessorState<C, B>> for ByProcessor {
    ghost number = { λ s. s.number };
}

/// The memory for closing a runtime: an empty list with room for all shelves, so that they can be
/// taken out of their locks, and an empty shelf for each processor.
#[derive(Drop)]
pub(crate) struct Spare<C: Chare, B: RuntimeName> {
    pub(crate) shelves: Vec<ProcessorState<C, B>>,
    pub(crate) empty: Vec<Shelf<C>>,
}

impl<C: Chare, B: RuntimeName> Model for Spare<C, B> {
    ghost use Rattle.std.specs.Prelude.{◌≡◌, ◌≤◌};
    ghost use Rattle.std.specs.Vec.{vec_capacity, vec_len};
    ghost use Rattle.charmlet_store.specs.Store.{AreEmpty};

    ghost Value = { Unit {0} };

    ghost view = { λ _. tt };

    ghost invariant = { λ s. (vec_len s.shelves ≡ 0)
        × (B.processors ≤ vec_capacity s.shelves)
        × AreEmpty B.processors s.empty.items };
}

impl<D: Disk, C: Chare, B: RuntimeName> Runtime<D, C, B> {
    /// Takes blank objects into the stock. If memory is refused, it hands all of them back, and
    /// nothing has changed.
    pub fn supply<R: Wait>(&self, rt: &R, blanks: Vec<C>) -> Result<(), Vec<C>>
        ensures { IfErr result (λ back. back.items ≡ blanks.items) }
    {
        self.hub.lock(rt).supply(blanks)
    }

    /// How many objects of each kind were supplied, are in the stock, and were retired. The others
    /// are on shelves.
    pub fn census<R: Wait>(&self, rt: &R) -> ByKind<Tally>
        ensures { WereCounted self.now result }
    {
        let hub = self.hub.lock(rt);
        hub.facts();
        hub.census()
    }

    /// Lends a client its pass, to which nothing was told and which has no accepts yet. `PassOut`
    /// if it is out; otherwise `Memory`. If refused, nothing changes.
    pub fn client<R: Wait>(&self, rt: &R, client: u32) -> Result<ClientPass<PassesOf<B>>, Refusal>
        ensures lent { IfOk result (IsLent client self.now.before) }
        ensures err { IfErr result (λ refusal. is_lending_refusal refusal ≡ true) }
    {
        let mut hub = self.hub.lock(rt);
        hub.facts();
        hub.lend_pass(client)
    }

    /// Lends a processor's seat, which has no ids yet. `BadPes` if there is no such processor;
    /// `PassOut` if its seat is out; otherwise `Memory`. If refused, nothing changes.
    pub fn seat<R: Wait>(&self, rt: &R, processor: u16) -> Result<Seat<SeatsOf<B>>, Refusal>
        ensures seat { IfOk result (λ seat. (seat.processor ≡ processor) × (seat.ids ≡ [])) }
        ensures is_there { OnOk result (processor < self.now.processors) }
        ensures bad { self.now.processors ≤ processor → result ≡ Err refusals.BadPes }
        ensures err { IfErr result (λ refusal. processor < self.now.processors →
            is_lending_refusal refusal ≡ true) }
    {
        let mut hub = self.hub.lock(rt);
        hub.facts();
        hub.lend_seat(processor)
    }
}
