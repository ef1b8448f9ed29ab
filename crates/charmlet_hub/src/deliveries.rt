//! Deliveries by a hub and a shelf that is lent to it.

ghost use Rattle.std.specs.Prelude.{◌≡◌, ◌+◌, ◌<◌, ◌++◌, ◌∷◌, [], Some, false, true, is_some, IfErr, IfOk, IfSome, IsOk, OnErr, OnOk, slice_get, slice_set};
ghost use Rattle.charmlet_model.specs.declared.refusal.Refusal.TheVariants as refusals;
ghost use Rattle.charmlet_model.specs.Core as core;
ghost use Rattle.charmlet_model.specs.Core.{Done, Refuses, assigned_to};
ghost use Rattle.charmlet_model.specs.Run.{Goes};
ghost use Rattle.charmlet_shelf.specs.Shelf.{is_assigned, settled};
ghost use Rattle.charmlet_shelf.specs.declared.phase.Phase.TheVariants as phases;
ghost use Rattle.charmlet_delivery.specs.UnderWay.{due_in};
ghost use Rattle.charmlet_delivery.specs.Workplace.{done_or_refused};
ghost use Rattle.charmlet_sequencer.specs.Authority.{IsDueOn};
ghost use Rattle.charmlet_sequencer.specs.Sequencer.{KeepsObjects, store_of};
ghost use Rattle.charmlet_sequencer.specs.Shelf.{delivery_in, is_done};
ghost use Rattle.charmlet_hub.specs.Checkpoint.{HasRoom, IsNoted, roomier};
ghost use Rattle.charmlet_hub.specs.Hub.{roomless, sequencer_in, store_in};
ghost use Rattle.charmlet_hub.specs.Settling.{Settles, ended};

use crate::hub::Hub;
use crate::names::SeatsOf;
use charmlet_chare::Chare;
use charmlet_disk::Disk;
use charmlet_leases::Seat;
use charmlet_model::{MsgId, Refusal};
use charmlet_persist::FuzzyCheckpoint;
use charmlet_sequencer::{ProcessorState, RuntimeName, Sequencer};
use std::alloc::AllocError;

impl<D: Disk, C: Chare, B: RuntimeName> Hub<D, C, B> {
    /// Assigns a pending message to the shelf's processor. A message that constructs its receiver
    /// takes a blank from the stock. It makes room for the delivery, in the hub's own list too and
    /// in a running checkpoint, whatever is delivered elsewhere before it.
    ///
    /// The refusal is the first that applies of `Halted`, `BadPes`, `Uncommitted`, `NoMessage`,
    /// `Absent`, `Elsewhere`, `HistoryFull`, `NoBlank` and `Memory`. Then nothing changes, except
    /// the room in the hub's own list.
    pub fn assign(&mut self, locked: &mut ProcessorState<C, B>, id: MsgId) -> Result<(), Refusal>
        ensures goes { Goes (store_in self.old) (core.Assign locked.old.number id)
            (done_or_refused result) (store_in self.new) }
        ensures ok { OnOk result (is_assigned locked.new.phase ≡ true) }
        ensures due { OnOk result (IsDueOn self.new.core locked.old.number
            (due_in locked.new.phase)) }
        ensures shelf { locked.new ≡ record locked.old { phase = locked.new.phase } }
        ensures objects { KeepsObjects (sequencer_in self.old) (sequencer_in self.new)
            locked.old locked.new }
        ensures rest { roomless self.new ≡ record (roomless self.old) {
          core = self.new.core;
          census = self.new.census;
        } }
        ensures err { OnErr result ((roomless self.new ≡ roomless self.old)
            × (locked.new ≡ locked.old)) }
    {
        self.sequencer.facts();
        let most = usize::from(self.processors);
        if self.seats.reserve_own(most).is_err() {
            return Err(self.assign_refusal(locked.number(), id));
        }
        if reserve(&mut self.running, most).is_err() {
            return Err(self.assign_refusal(locked.number(), id));
        }
        self.sequencer.assign(locked, id)
    }

    /// Why a message can't be assigned to the processor if memory is refused.
    fn assign_refusal(&self, processor: u16, id: MsgId) -> Refusal
        ensures { Goes (store_in self.now) (core.Assign processor id) (Refuses result)
            (store_in self.now) }
    {
        let wanted = match self.sequencer.history().test_delivery(processor, id) {
            Ok(wanted) => wanted,
            Err(refusal) => return refusal,
        };
        let Some(kind_version) = wanted else {
            return Refusal::Memory;
        };
        let kind = kind_version.kind();
        if self.sequencer.census().get(kind).in_stock == 0 {
            return Refusal::NoBlank(kind);
        }
        Refusal::Memory
    }

    /// Adds the receiver's delivery on the shelf to the history, and its id to the seat, which has
    /// to have room for it. It answers the id. An object that the delivery destroyed is retired.
    /// The processors that are to deliver the receiver's sends get tickets for them. It takes no
    /// memory. The only refusal is `Halted`: then nothing changes, and the delivery can still be
    /// [finished](Self::finish).
    pub fn commit(
        &mut self,
        locked: &mut ProcessorState<C, B>,
        seat: &mut Seat<SeatsOf<B>>,
    ) -> Result<MsgId, Refusal>
        requires done { is_done locked.old.phase ≡ true }
        requires room { 0 < seat.old.room }
        ensures goes { Goes (store_in self.old) (core.Commit locked.old.number)
            (done_or_refused result) (store_in self.new) }
        ensures id { IfOk result (λ id. (delivery_in locked.old.phase ≡ Some id)
            × (assigned_to self.old.core locked.old.number ≡ Some id)) }
        ensures seat { IfOk result (λ id. seat.new ≡ record seat.old {
          ids = seat.old.ids ++ id ∷ [];
          room = seat.new.room;
        }) }
        ensures room { OnOk result (seat.new.room + 1 ≡ seat.old.room) }
        ensures shelf { OnOk result (locked.new ≡ settled locked.old) }
        ensures objects { KeepsObjects (sequencer_in self.old) (sequencer_in self.new)
            locked.old locked.new }
        ensures own { self.new.seats.own ≡ self.old.seats.own }
        ensures out { self.new.seats.out ≡ self.old.seats.out }
        ensures had { OnOk result (slice_get self.old.seats.lists seat.old.place
            ≡ Some (Some seat.old.ids)) }
        ensures has { OnOk result (self.new.seats.lists
            ≡ slice_set self.old.seats.lists seat.old.place (Some seat.new.ids)) }
        ensures rest { self.new ≡ record self.old {
          core = self.new.core;
          census = self.new.census;
          seats = self.new.seats;
        } }
        ensures err { IfErr result (λ refusal. refusal ≡ refusals.Halted) }
        ensures same { OnErr result ((self.new ≡ self.old) × (locked.new ≡ locked.old)
            × (seat.new ≡ seat.old)) }
        ensures runs { self.old.core.halted ≡ false → IsOk result }
    {
        let sent = locked.sent();
        let committed = self.commit_quietly(locked, seat);
        if committed.is_ok() {
            self.hint_sent(sent);
        }
        committed
    }

    /// Commits as `commit` does, without tickets.
    fn commit_quietly(
        &mut self,
        locked: &mut ProcessorState<C, B>,
        seat: &mut Seat<SeatsOf<B>>,
    ) -> Result<MsgId, Refusal>
        requires done { is_done locked.old.phase ≡ true }
        requires room { 0 < seat.old.room }
        ensures goes { Goes (store_in self.old) (core.Commit locked.old.number)
            (done_or_refused result) (store_in self.new) }
        ensures id { IfOk result (λ id. (delivery_in locked.old.phase ≡ Some id)
            × (assigned_to self.old.core locked.old.number ≡ Some id)) }
        ensures seat { IfOk result (λ id. seat.new ≡ record seat.old {
          ids = seat.old.ids ++ id ∷ [];
          room = seat.new.room;
        }) }
        ensures room { OnOk result (seat.new.room + 1 ≡ seat.old.room) }
        ensures shelf { OnOk result (locked.new ≡ settled locked.old) }
        ensures objects { KeepsObjects (sequencer_in self.old) (sequencer_in self.new)
            locked.old locked.new }
        ensures own { self.new.seats.own ≡ self.old.seats.own }
        ensures out { self.new.seats.out ≡ self.old.seats.out }
        ensures had { OnOk result (slice_get self.old.seats.lists seat.old.place
            ≡ Some (Some seat.old.ids)) }
        ensures has { OnOk result (self.new.seats.lists
            ≡ slice_set self.old.seats.lists seat.old.place (Some seat.new.ids)) }
        ensures rest { self.new ≡ record self.old {
          core = self.new.core;
          census = self.new.census;
          seats = self.new.seats;
        } }
        ensures err { IfErr result (λ refusal. refusal ≡ refusals.Halted) }
        ensures same { OnErr result ((self.new ≡ self.old) × (locked.new ≡ locked.old)
            × (seat.new ≡ seat.old)) }
        ensures runs { self.old.core.halted ≡ false → IsOk result }
    {
        self.sequencer.facts();
        self.sequencer.agree(locked);
        let Some(id) = locked.delivery() else {
            unreachable!()
        };
        if let Err(refusal) = commit_recorded(&mut self.sequencer, &mut self.running, locked) {
            return Err(refusal);
        }
        self.seats.commit(seat, id);
        Ok(id)
    }

    /// Adds the delivery as [`commit`](Self::commit) does, without a seat: its id goes to the hub's
    /// own list. So any thread that takes the lock of a shelf with a performed delivery can commit
    /// it. It takes no memory. The only refusal is `Halted`: then nothing changes.
    pub fn commit_without_seat(
        &mut self,
        locked: &mut ProcessorState<C, B>,
    ) -> Result<MsgId, Refusal>
        requires { is_done locked.old.phase ≡ true }
        ensures goes { Goes (store_in self.old) (core.Commit locked.old.number)
            (done_or_refused result) (store_in self.new) }
        ensures id { IfOk result (λ id. (delivery_in locked.old.phase ≡ Some id)
            × (assigned_to self.old.core locked.old.number ≡ Some id)) }
        ensures own { IfOk result (λ id. self.new.seats.own.items
            ≡ self.old.seats.own.items ++ id ∷ []) }
        ensures shelf { OnOk result (locked.new ≡ settled locked.old) }
        ensures objects { KeepsObjects (sequencer_in self.old) (sequencer_in self.new)
            locked.old locked.new }
        ensures seats { self.new.seats
            ≡ record self.old.seats { own = self.new.seats.own } }
        ensures rest { self.new ≡ record self.old {
          core = self.new.core;
          census = self.new.census;
          seats = self.new.seats;
        } }
        ensures err { IfErr result (λ refusal. refusal ≡ refusals.Halted) }
        ensures same { OnErr result ((self.new ≡ self.old) × (locked.new ≡ locked.old)) }
        ensures runs { self.old.core.halted ≡ false → IsOk result }
    {
        let sent = locked.sent();
        let committed = self.commit_without_seat_quietly(locked);
        if committed.is_ok() {
            self.hint_sent(sent);
        }
        committed
    }

    /// Commits as `commit_without_seat` does, without tickets.
    fn commit_without_seat_quietly(
        &mut self,
        locked: &mut ProcessorState<C, B>,
    ) -> Result<MsgId, Refusal>
        requires { is_done locked.old.phase ≡ true }
        ensures goes { Goes (store_in self.old) (core.Commit locked.old.number)
            (done_or_refused result) (store_in self.new) }
        ensures id { IfOk result (λ id. (delivery_in locked.old.phase ≡ Some id)
            × (assigned_to self.old.core locked.old.number ≡ Some id)) }
        ensures own { IfOk result (λ id. self.new.seats.own.items
            ≡ self.old.seats.own.items ++ id ∷ []) }
        ensures shelf { OnOk result (locked.new ≡ settled locked.old) }
        ensures objects { KeepsObjects (sequencer_in self.old) (sequencer_in self.new)
            locked.old locked.new }
        ensures seats { self.new.seats
            ≡ record self.old.seats { own = self.new.seats.own } }
        ensures rest { self.new ≡ record self.old {
          core = self.new.core;
          census = self.new.census;
          seats = self.new.seats;
        } }
        ensures err { IfErr result (λ refusal. refusal ≡ refusals.Halted) }
        ensures same { OnErr result ((self.new ≡ self.old) × (locked.new ≡ locked.old)) }
        ensures runs { self.old.core.halted ≡ false → IsOk result }
    {
        self.sequencer.facts();
        self.sequencer.agree(locked);
        let Some(id) = locked.delivery() else {
            unreachable!()
        };
        if let Err(refusal) = commit_recorded(&mut self.sequencer, &mut self.running, locked) {
            return Err(refusal);
        }
        self.seats.commit_without_seat(id);
        Ok(id)
    }

    /// Adds the delivery as [`commit_without_seat`](Self::commit_without_seat) does, even if the
    /// store is halted. So an object that has reacted already can be counted, and the store can be
    /// taken apart. It takes no memory.
    pub fn finish(&mut self, locked: &mut ProcessorState<C, B>) -> MsgId
        requires { is_done locked.old.phase ≡ true }
        ensures goes { Goes (store_in self.old) (core.Finish locked.old.number) Done
            (store_in self.new) }
        ensures id { (delivery_in locked.old.phase ≡ Some result)
            × (assigned_to self.old.core locked.old.number ≡ Some result) }
        ensures own { self.new.seats.own.items ≡ self.old.seats.own.items ++ result ∷ [] }
        ensures shelf { locked.new ≡ settled locked.old }
        ensures objects { KeepsObjects (sequencer_in self.old) (sequencer_in self.new)
            locked.old locked.new }
        ensures seats { self.new.seats
            ≡ record self.old.seats { own = self.new.seats.own } }
        ensures rest { self.new ≡ record self.old {
          core = self.new.core;
          census = self.new.census;
          seats = self.new.seats;
        } }
    {
        self.sequencer.facts();
        self.sequencer.agree(locked);
        let Some(id) = locked.delivery() else {
            unreachable!()
        };
        record_delivery(&mut self.sequencer, &mut self.running, locked);
        self.sequencer.finish(locked);
        self.seats.commit_without_seat(id);
        id
    }

    /// Releases the assigned message: it is pending again, and the blank of a construction is back
    /// in the stock. It takes no memory.
    pub fn release(&mut self, locked: &mut ProcessorState<C, B>)
        requires { is_assigned locked.old.phase ≡ true }
        ensures goes { Goes (store_in self.old) (core.Release locked.old.number) Done
            (store_in self.new) }
        ensures shelf { locked.new ≡ record locked.old { phase = phases.Idle } }
        ensures objects { KeepsObjects (sequencer_in self.old) (sequencer_in self.new)
            locked.old locked.new }
        ensures rest { self.new
            ≡ record self.old { core = self.new.core; census = self.new.census } }
    {
        self.sequencer.facts();
        self.sequencer.release(locked);
    }

    /// Ends the delivery that is under way on the shelf, even when halted: a performed delivery is
    /// [finished](Self::finish), and an assigned message is [released](Self::release). It takes no
    /// memory.
    pub fn settle(&mut self, locked: &mut ProcessorState<C, B>)
        ensures settles { Settles self.old locked.old self.new }
        ensures shelf { locked.new ≡ ended locked.old }
        ensures objects { KeepsObjects (sequencer_in self.old) (sequencer_in self.new)
            locked.old locked.new }
        ensures rest { self.new ≡ record self.old {
          core = self.new.core;
          census = self.new.census;
          seats = self.new.seats;
        } }
    {
        if locked.is_done() {
            self.finish(locked);
        } else if locked.is_assigned() {
            self.release(locked);
        }
    }
}

/// Makes room in a running checkpoint for this many deliveries. It fails only when out of memory,
/// and then the room is unchanged.
fn reserve(running: &mut Option<FuzzyCheckpoint>, deliveries: usize) -> Result<(), AllocError>
    ensures ok { OnOk result (running.new ≡ roomier deliveries running.old) }
    ensures err { OnErr result (running.new ≡ running.old) }
    ensures busy { is_some running.new ≡ is_some running.old }
{
    match running {
        Some(running) => running.reserve(deliveries),
        None => Ok(()),
    }
}

/// Adds the receiver's delivery on the shelf to the history, and to the catch-up list of a running
/// checkpoint. It takes no memory. The only refusal is `Halted`: then nothing changes.
fn commit_recorded<D: Disk, C: Chare, B: RuntimeName>(
    sequencer: &mut Sequencer<D, C, B>,
    running: &mut Option<FuzzyCheckpoint>,
    locked: &mut ProcessorState<C, B>,
) -> Result<(), Refusal>
    requires done { is_done locked.old.phase ≡ true }
    requires running { IfSome running.old (HasRoom sequencer.old.core) }
    ensures goes { Goes (store_of sequencer.old) (core.Commit locked.old.number)
        (done_or_refused result) (store_of sequencer.new) }
    ensures ok { OnOk result (locked.new ≡ settled locked.old) }
    ensures objects { KeepsObjects sequencer.old sequencer.new locked.old locked.new }
    ensures disk { sequencer.new.disk ≡ sequencer.old.disk }
    ensures noted { OnOk result (IsNoted sequencer.old.core locked.old.number running.old
        running.new) }
    ensures busy { is_some running.new ≡ is_some running.old }
    ensures err { IfErr result (λ refusal. refusal ≡ refusals.Halted) }
    ensures same { OnErr result ((sequencer.new ≡ sequencer.old)
        × (running.new ≡ running.old) × (locked.new ≡ locked.old)) }
    ensures runs { sequencer.old.core.halted ≡ false → IsOk result }
{
    record_unless_halted(sequencer, running, locked);
    sequencer.commit(locked)
}

/// Records the receiver's delivery on the shelf in the catch-up list of a running checkpoint,
/// before it is committed, unless the store is halted.
fn record_unless_halted<D: Disk, C: Chare, B: RuntimeName>(
    sequencer: &mut Sequencer<D, C, B>,
    running: &mut Option<FuzzyCheckpoint>,
    locked: &mut ProcessorState<C, B>,
)
    requires done { is_done locked.old.phase ≡ true }
    requires running { IfSome running.old (HasRoom sequencer.old.core) }
    ensures noted { sequencer.old.core.halted ≡ false →
        IsNoted sequencer.old.core locked.old.number running.old running.new }
    ensures halted { sequencer.old.core.halted ≡ true → running.new ≡ running.old }
    ensures busy { is_some running.new ≡ is_some running.old }
    ensures sequencer { sequencer.new ≡ sequencer.old }
    ensures locked { locked.new ≡ locked.old }
{
    if !sequencer.history().is_halted() {
        record_delivery(sequencer, running, locked);
    }
}

/// Records the delivery as `record_unless_halted` does, even if the store is halted.
fn record_delivery<D: Disk, C: Chare, B: RuntimeName>(
    sequencer: &mut Sequencer<D, C, B>,
    running: &mut Option<FuzzyCheckpoint>,
    locked: &mut ProcessorState<C, B>,
)
    requires done { is_done locked.old.phase ≡ true }
    requires running { IfSome running.old (HasRoom sequencer.old.core) }
    ensures noted { IsNoted sequencer.old.core locked.old.number running.old running.new }
    ensures busy { is_some running.new ≡ is_some running.old }
    ensures sequencer { sequencer.new ≡ sequencer.old }
    ensures locked { locked.new ≡ locked.old }
{
    if let Some(running) = running {
        sequencer.record_delivery(locked, running);
    }
}
