//! The hub: the state under the lock that orders all steps.

ghost use Rattle.std.specs.Prelude.{◌≡◌, ◌+◌, ◌<◌, ◌≤◌, ◌++◌, ◌∷◌, [], List, Option, false, true, IfErr, IfOk, OnErr, OnOk, length};
ghost use Rattle.std.specs.BTreeSet.{insert_key};
ghost use Rattle.std.specs.Ordering.{nat_cmp};
ghost use Rattle.charmlet_model.specs.declared.kind.Kind as kinds;
ghost use Rattle.charmlet_model.specs.Core.{is_processor, present};
ghost use Rattle.charmlet_model.specs.Shelves.{count_of};
ghost use Rattle.charmlet_model.specs.Sound.{IsSound};
ghost use Rattle.charmlet_model.specs.World.{client_of};
ghost use Rattle.charmlet_disk.specs.File.{CrashBytes, MayLeave};
ghost use Rattle.charmlet_history.specs.Kept.{core_in, oldest_on_in};
ghost use Rattle.charmlet_history.specs.Wanting.{wanted_in};
ghost use Rattle.charmlet_requests.specs.Pass.{is_out as is_pass_out, lending_refusal as pass_refusal};
ghost use Rattle.charmlet_leases.specs.Passes.Passes.{lent_since};
ghost use Rattle.charmlet_leases.specs.Seats.Seats.{is_out as is_seat_out};
ghost use Rattle.charmlet_stock.specs.ByKind.{at};
ghost use Rattle.charmlet_delivery.specs.UnderWay.{due_in};
ghost use Rattle.charmlet_delivery.specs.Workplace.{ShowsOn};
ghost use Rattle.charmlet_sequencer.specs.Authority.{IsAuthorityIn, IsDueOn};
ghost use Rattle.charmlet_sequencer.specs.Part.{Part};
ghost use Rattle.charmlet_sequencer.specs.Sequencer.{IsOf, is_lawful, supplied_of};
ghost use Rattle.charmlet_hub.specs.Hub.{IsHub, seat_refusal, sequencer_in, shown_by, store_in};

use crate::checkpoint::GhostToken;
use crate::names::{CheckpointsOf, PassesOf, SeatsOf};
use charmlet_chare::Chare;
use charmlet_disk::Disk;
use charmlet_history::History;
use charmlet_leases::{ClientPass, GhostIds, GhostPass, PassTable, Seat, SeatTable};
use charmlet_locks::Authority;
use charmlet_model::{Kind, MsgId, Refusal};
use charmlet_persist::FuzzyCheckpoint;
use charmlet_ready_queue::Ticks;
use charmlet_sequencer::{ProcessorState, RuntimeName, Sequencer};
use charmlet_stock::{ByKind, Tally};
use std::alloc::Global;
use std::marker::Model;
use std::sync::ledger::Ledger;

/// The state under the lock that orders all steps: a sequencer, the tables of the seats and of the
/// passes that are out, and the running checkpoint, if there is one. A contract sees the core and
/// whether a checkpoint runs, the census, the disk and both authorities.
///
/// Each call is one step of the core, or leaves it unchanged. Each delivery of the history is once
/// among the ids of the seats and the hub's own, in each of these lists in the history's order. All
/// passes are current: what a pass knows of its client's requests is true of the durable events,
/// and it has exactly its client's accepts; a client without a pass has none. The hub's own list
/// has room for each assigned delivery, so that it can always be finished without memory; and so
/// has a running checkpoint. That checkpoint is one of this store, and has the elements of each
/// shelf that was handed in according to its token.
pub struct Hub<D: Disk, C: Chare, B: RuntimeName> {
    pub(crate) alloc: Global,
    pub(crate) sequencer: Sequencer<D, C, B>,
    pub(crate) seats: SeatTable<SeatsOf<B>>,
    pub(crate) passes: PassTable<PassesOf<B>>,
    /// How many processors there are.
    pub(crate) processors: u16,
    /// The running checkpoint.
    pub(crate) running: Option<FuzzyCheckpoint>,
    /// The contents of the checkpoints' tokens.
    pub(crate) tokens: Authority<GhostToken, CheckpointsOf<B>>,
}

impl<D: Disk, C: Chare, B: RuntimeName> Model for Hub<D, C, B> {
    ghost use Rattle.std.specs.Prelude.{◌≡◌, is_some};
    ghost use Rattle.charmlet_hub.specs.Checkpoint.{IsCheckpointed};
    ghost use Rattle.charmlet_hub.specs.Hub.{HubShown, IsHub, shown_by};

    ghost Value = { HubShown D };

    ghost view = { λ h. shown_by h.sequencer (is_some h.running) h.seats h.passes };

    ghost invariant = { λ h. IsHub (shown_by h.sequencer (is_some h.running) h.seats h.passes)
        × (h.processors ≡ B.processors)
        × (B.honest → D.honest h.sequencer.disk)
        × IsCheckpointed h.sequencer.core h.running h.tokens };
}

/// The parts of a hub.
#[derive(Drop)]
pub(crate) struct HubParts<D: Disk, C: Chare, B: RuntimeName> {
    pub(crate) sequencer: Sequencer<D, C, B>,
    pub(crate) seats: SeatTable<SeatsOf<B>>,
    pub(crate) passes: PassTable<PassesOf<B>>,
}

// Written by hand, so that dropping all its fields is proved here, and not in each function that
// drops a hub.
impl<D: Disk, C: Chare, B: RuntimeName> Drop for Hub<D, C, B> {
    fn drop(self) {
        let Hub {
            alloc: _,
            sequencer,
            seats,
            passes,
            processors: _,
            running,
            tokens,
        } = self;
        drop(sequencer);
        drop(seats);
        drop(passes);
        drop(running);
        drop(tokens);
    }
}

impl<D: Disk, C: Chare, B: RuntimeName> Hub<D, C, B> {
    /// The parts of the hub, without its checkpoint.
    pub(crate) fn into_parts(self) -> HubParts<D, C, B>
        ensures shown { shown_by result.sequencer self.busy result.seats result.passes ≡ self }
        ensures hub { IsHub (shown_by result.sequencer self.busy result.seats result.passes) }
    {
        let Hub {
            alloc: _,
            sequencer,
            seats,
            passes,
            processors: _,
            running,
            tokens,
        } = self;
        drop(running);
        drop(tokens);
        HubParts {
            sequencer,
            seats,
            passes,
        }
    }

    /// A hub over a sequencer in whose history nothing has happened, with new tables of seats, of
    /// passes and of checkpoints: no seat and no pass is out, and no checkpoint runs. It takes no
    /// memory.
    pub fn new(
        alloc: Global,
        sequencer: Sequencer<D, C, B>,
        processors: u16,
        seats: Authority<GhostIds, SeatsOf<B>>,
        passes: Authority<GhostPass, PassesOf<B>>,
        tokens: Authority<GhostToken, CheckpointsOf<B>>,
    ) -> Self
        requires history { sequencer.core.history ≡ [] }
        requires assigned { sequencer.core.assigned ≡ [] }
        requires processors { processors ≡ B.processors }
        requires seats { seats ≡ [] }
        requires passes { passes ≡ [] }
        requires tokens { tokens ≡ [] }
        requires honest { B.honest → D.honest sequencer.disk }
        ensures sequencer { sequencer_in result ≡ sequencer }
        ensures idle { result.busy ≡ false }
        ensures seats { result.seats.out ≡ [] }
        ensures own { result.seats.own.items ≡ [] }
        ensures passes { result.passes.out ≡ [] }
    {
        Hub {
            alloc,
            sequencer,
            seats: SeatTable::new(alloc, seats),
            passes: PassTable::new(alloc, passes),
            processors,
            running: None,
            tokens,
        }
    }

    /// States the facts that hold of every hub. Its store is the one that it is named for, at no
    /// earlier generation; its history is legal. For each shelf, it has the records of the world
    /// after that history and the delivery that is assigned there. For each kind all supplied
    /// objects are on the shelves, in the stock, or retired. On an honest disk a crash now leaves
    /// the world after some of the history, including all durable events. All deliveries are in the
    /// seats or in the hub's own list; all passes are current; and the disk is honest if the first
    /// one was.
    pub fn facts(&self)
        ensures of { IsOf B.opening B.before B.processors self.now.core }
        ensures later { B.generation ≤ self.now.core.generation }
        ensures sound { IsSound self.now.core }
        ensures authority { (parts : List (Option Part))
            × IsAuthorityIn self.now.core self.now.census parts }
        ensures lawful { D.honest self.now.disk → (outcome : CrashBytes) →
            MayLeave (D.file self.now.disk) outcome → is_lawful self.now.core outcome }
        ensures hub { IsHub self.now }
        ensures honest { B.honest → D.honest self.now.disk }
    {
        self.sequencer.facts();
    }

    /// The history, for reading.
    pub fn history(&self) -> &History
        ensures { core_in result.now ≡ self.now.core }
    {
        self.sequencer.history()
    }

    /// How many processors there are.
    pub fn processors(&self) -> u16
        ensures named { result ≡ B.processors }
        ensures core { result ≡ self.now.core.processors }
    {
        self.sequencer.facts();
        self.processors
    }

    /// Shows that the shelf and the hub agree. The shelf is a processor's, it has the records of
    /// its elements in the world after the history, and its delivery under way is the one that is
    /// assigned. Nothing is compared, and nothing changes.
    pub fn agree(&mut self, locked: &mut ProcessorState<C, B>)
        ensures on { locked.old.number < self.old.core.processors }
        ensures shows { ShowsOn locked.old.number locked.old.records self.old.core.places
            (present self.old.core) }
        ensures due { IsDueOn self.old.core locked.old.number (due_in locked.old.phase) }
        ensures hub { self.new ≡ self.old }
        ensures locked { locked.new ≡ locked.old }
    {
        self.sequencer.agree(locked);
    }

    /// How many objects of each kind were supplied, are in the stock, and were retired.
    pub fn census(&self) -> ByKind<Tally>
        ensures { result ≡ self.now.census }
    {
        self.sequencer.census()
    }

    /// How many pending messages want a blank of this kind: those that construct an element that
    /// isn't there. It takes no memory.
    pub fn wanted_blanks(&self, kind: Kind) -> usize
        ensures { result ≡ wanted_in self.now.core kind }
    {
        self.sequencer.history().wanted_blanks(kind)
    }

    /// The oldest pending message on the processor that can be delivered, if there is one. A
    /// message is on its receiver's processor, or on the receiver's home if it isn't there. It
    /// takes at most one look.
    pub fn oldest_on<L: Ledger>(&self, processor: u16, ticks: &mut Ticks<L>) -> Option<MsgId>
        ensures oldest { result ≡ oldest_on_in self.now.core processor }
        ensures ticks { ticks.new ≤ ticks.old + 1 }
    {
        self.sequencer.oldest_on(processor, ticks)
    }

    /// Takes blank objects into the stock. If memory is refused, it hands all of them back, and
    /// nothing has changed.
    pub fn supply(&mut self, blanks: Vec<C>) -> Result<(), Vec<C>>
        ensures rest { self.new ≡ record self.old { census = self.new.census } }
        ensures blanks { OnOk result ((kind : kinds.Kind) → (store_in self.new).blanks kind
            ≡ (store_in self.old).blanks kind + count_of C.state blanks.items kind) }
        ensures supplied { OnOk result ((kind : kinds.Kind) →
            supplied_of (sequencer_in self.new) kind
            ≡ supplied_of (sequencer_in self.old) kind + count_of C.state blanks.items kind) }
        ensures retired { OnOk result ((kind : kinds.Kind) → (at self.new.census kind).retired
            ≡ (at self.old.census kind).retired) }
        ensures err { IfErr result (λ back. (back.items ≡ blanks.items)
            × (self.new ≡ self.old)) }
    {
        self.sequencer.supply(blanks)
    }

    /// Lends a processor's seat, which has no ids yet. `BadPes` if there is no such processor;
    /// `PassOut` if its seat is out; otherwise `Memory`. If refused, nothing changes.
    pub fn lend_seat(&mut self, processor: u16) -> Result<Seat<SeatsOf<B>>, Refusal>
        ensures seat { IfOk result (λ seat. (seat.processor ≡ processor) × (seat.ids ≡ [])) }
        ensures is_there { OnOk result (is_processor self.old.core processor ≡ true) }
        ensures was_in { OnOk result (is_seat_out processor self.old.seats.out ≡ false) }
        ensures out { OnOk result (self.new.seats.out ≡ self.old.seats.out ++ processor ∷ []) }
        ensures own { self.new.seats.own ≡ self.old.seats.own }
        ensures rest { self.new ≡ record self.old { seats = self.new.seats } }
        ensures err { IfErr result (λ refusal. refusal ≡ seat_refusal self.old processor) }
        ensures same { OnErr result (self.new ≡ self.old) }
    {
        self.sequencer.facts();
        if processor >= self.processors {
            return Err(Refusal::BadPes);
        }
        self.seats.lend(processor)
    }

    /// Lends a client its pass, to which nothing was told. `PassOut` if it is out; otherwise
    /// `Memory`. If refused, nothing changes.
    pub fn lend_pass(&mut self, client: u32) -> Result<ClientPass<PassesOf<B>>, Refusal>
        ensures pass { IfOk result (λ pass. pass ≡ lent_since client
            (client_of (present self.old.core) client).last
            (self.old.core.before + length self.old.core.history)) }
        ensures was_in { OnOk result (is_pass_out client self.old.passes.out ≡ false) }
        ensures out { OnOk result (self.new.passes.out
            ≡ insert_key nat_cmp self.old.passes.out client) }
        ensures rest { self.new ≡ record self.old { passes = self.new.passes } }
        ensures err { IfErr result (λ refusal. refusal
            ≡ pass_refusal client self.old.passes.out) }
        ensures same { OnErr result (self.new ≡ self.old) }
    {
        self.passes.lend(self.sequencer.history(), client)
    }
}
