//! Deliveries on a locked shelf.

ghost use Rattle.std.specs.Prelude.{◌≡◌, ◌+◌, ◌<◌, ◌++◌, ◌∷◌, [], Some, false, true, IfErr, IfOk, IsOk, OnErr, OnOk, slice_get, slice_set};
ghost use Rattle.charmlet_model.specs.declared.refusal.Refusal.TheVariants as refusals;
ghost use Rattle.charmlet_model.specs.Core as core;
ghost use Rattle.charmlet_model.specs.Core.{Done, assigned_to};
ghost use Rattle.charmlet_model.specs.Run.{Goes};
ghost use Rattle.charmlet_shelf.specs.Shelf.{is_assigned, settled};
ghost use Rattle.charmlet_shelf.specs.declared.phase.Phase.TheVariants as phases;
ghost use Rattle.charmlet_delivery.specs.UnderWay.{due_in};
ghost use Rattle.charmlet_delivery.specs.Workplace.{done_or_refused};
ghost use Rattle.charmlet_sequencer.specs.Authority.{IsDueOn};
ghost use Rattle.charmlet_sequencer.specs.Sequencer.{KeepsObjects};
ghost use Rattle.charmlet_sequencer.specs.Shelf.{delivery_in, is_done};
ghost use Rattle.charmlet_hub.specs.Hub.{roomless, sequencer_in, store_in};
ghost use Rattle.charmlet_watch.specs.Moments.{Made, Steps, moment_of};

use crate::names::{WatchedName, Watcher};
use crate::noted::{Noted, note};
use crate::watched::Watched;
use charmlet_chare::Chare;
use charmlet_disk::Disk;
use charmlet_hub::SeatsOf;
use charmlet_leases::Seat;
use charmlet_model::{MsgId, Refusal};
use charmlet_sequencer::ProcessorState;

impl<D: Disk, C: Chare, B: WatchedName> Watched<D, C, B> {
    /// Assigns a pending message to the shelf's processor. A message that constructs its receiver
    /// takes a blank from the stock. It makes room for the delivery, in the hub's own list too and
    /// in a running checkpoint, whatever is delivered elsewhere before it.
    ///
    /// The refusal is the first that applies of `Halted`, `BadPes`, `Uncommitted`, `NoMessage`,
    /// `Absent`, `Elsewhere`, `HistoryFull`, `NoBlank` and `Memory`. Then nothing changes, except
    /// the room in the hub's own list.
    pub fn assign(
        &mut self,
        me: &mut Watcher<B>,
        locked: &mut ProcessorState<C, B>,
        id: MsgId,
    ) -> Result<(), Refusal>
        ensures goes { Goes (store_in self.old) (core.Assign locked.old.number id)
            (done_or_refused result) (store_in self.new) }
        ensures ok { OnOk result (is_assigned locked.new.phase ≡ true) }
        ensures due { OnOk result (IsDueOn self.new.core locked.old.number
            (due_in locked.new.phase)) }
        ensures shelf { locked.new ≡ record locked.old { phase = locked.new.phase } }
        ensures objects { KeepsObjects (sequencer_in self.old) (sequencer_in self.new)
            locked.old locked.new }
        ensures rest { roomless self.new ≡ record (roomless self.old) {
          core = self.new.core;
          census = self.new.census;
        } }
        ensures err { OnErr result ((roomless self.new ≡ roomless self.old)
            × (locked.new ≡ locked.old)) }
        ensures made { Made me.old (Steps (core.Assign locked.old.number id) (done_or_refused
            result)) (moment_of self.new) me.new }
    {
        let processor = locked.number();
        let done = self.hub.assign(locked, id);
        note(
            &mut self.sightings,
            me,
            &self.hub,
            &Noted::Assign {
                processor,
                id,
                done: &done,
            },
        );
        done
    }

    /// Adds the receiver's delivery on the shelf to the history, and its id to the seat, which has
    /// to have room for it. It answers the id. An object that the delivery destroyed is retired.
    /// The processors that are to deliver the receiver's sends get tickets for them. It takes no
    /// memory. The only refusal is `Halted`: then nothing changes, and the delivery can still be
    /// [finished](Self::finish).
    pub fn commit(
        &mut self,
        me: &mut Watcher<B>,
        locked: &mut ProcessorState<C, B>,
        seat: &mut Seat<SeatsOf<B>>,
    ) -> Result<MsgId, Refusal>
        requires done { is_done locked.old.phase ≡ true }
        requires room { 0 < seat.old.room }
        ensures goes { Goes (store_in self.old) (core.Commit locked.old.number)
            (done_or_refused result) (store_in self.new) }
        ensures id { IfOk result (λ id. (delivery_in locked.old.phase ≡ Some id)
            × (assigned_to self.old.core locked.old.number ≡ Some id)) }
        ensures seat { IfOk result (λ id. seat.new ≡ record seat.old {
          ids = seat.old.ids ++ id ∷ [];
          room = seat.new.room;
        }) }
        ensures room { OnOk result (seat.new.room + 1 ≡ seat.old.room) }
        ensures shelf { OnOk result (locked.new ≡ settled locked.old) }
        ensures objects { KeepsObjects (sequencer_in self.old) (sequencer_in self.new)
            locked.old locked.new }
        ensures own { self.new.seats.own ≡ self.old.seats.own }
        ensures out { self.new.seats.out ≡ self.old.seats.out }
        ensures had { OnOk result (slice_get self.old.seats.lists seat.old.place
            ≡ Some (Some seat.old.ids)) }
        ensures has { OnOk result (self.new.seats.lists
            ≡ slice_set self.old.seats.lists seat.old.place (Some seat.new.ids)) }
        ensures rest { self.new ≡ record self.old {
          core = self.new.core;
          census = self.new.census;
          seats = self.new.seats;
        } }
        ensures err { IfErr result (λ refusal. refusal ≡ refusals.Halted) }
        ensures same { OnErr result ((self.new ≡ self.old) × (locked.new ≡ locked.old)
            × (seat.new ≡ seat.old)) }
        ensures runs { self.old.core.halted ≡ false → IsOk result }
        ensures made { Made me.old (Steps (core.Commit locked.old.number) (done_or_refused result))
            (moment_of self.new) me.new }
    {
        let processor = locked.number();
        let committed = self.hub.commit(locked, seat);
        note(
            &mut self.sightings,
            me,
            &self.hub,
            &Noted::Commit {
                processor,
                committed: &committed,
            },
        );
        committed
    }

    /// Adds the delivery as [`commit`](Self::commit) does, without a seat: its id goes to the hub's
    /// own list. So any thread that takes the lock of a shelf with a performed delivery can commit
    /// it. It takes no memory. The only refusal is `Halted`: then nothing changes.
    pub fn commit_without_seat(
        &mut self,
        me: &mut Watcher<B>,
        locked: &mut ProcessorState<C, B>,
    ) -> Result<MsgId, Refusal>
        requires { is_done locked.old.phase ≡ true }
        ensures goes { Goes (store_in self.old) (core.Commit locked.old.number)
            (done_or_refused result) (store_in self.new) }
        ensures id { IfOk result (λ id. (delivery_in locked.old.phase ≡ Some id)
            × (assigned_to self.old.core locked.old.number ≡ Some id)) }
        ensures own { IfOk result (λ id. self.new.seats.own.items
            ≡ self.old.seats.own.items ++ id ∷ []) }
        ensures shelf { OnOk result (locked.new ≡ settled locked.old) }
        ensures objects { KeepsObjects (sequencer_in self.old) (sequencer_in self.new)
            locked.old locked.new }
        ensures seats { self.new.seats
            ≡ record self.old.seats { own = self.new.seats.own } }
        ensures rest { self.new ≡ record self.old {
          core = self.new.core;
          census = self.new.census;
          seats = self.new.seats;
        } }
        ensures err { IfErr result (λ refusal. refusal ≡ refusals.Halted) }
        ensures same { OnErr result ((self.new ≡ self.old) × (locked.new ≡ locked.old)) }
        ensures runs { self.old.core.halted ≡ false → IsOk result }
        ensures made { Made me.old (Steps (core.Commit locked.old.number) (done_or_refused result))
            (moment_of self.new) me.new }
    {
        let processor = locked.number();
        let committed = self.hub.commit_without_seat(locked);
        note(
            &mut self.sightings,
            me,
            &self.hub,
            &Noted::Commit {
                processor,
                committed: &committed,
            },
        );
        committed
    }

    /// Adds the delivery as [`commit_without_seat`](Self::commit_without_seat) does, even if the
    /// store is halted. So an object that has reacted already can be counted, and the store can be
    /// taken apart. It takes no memory.
    pub fn finish(&mut self, me: &mut Watcher<B>, locked: &mut ProcessorState<C, B>) -> MsgId
        requires { is_done locked.old.phase ≡ true }
        ensures goes { Goes (store_in self.old) (core.Finish locked.old.number) Done
            (store_in self.new) }
        ensures id { (delivery_in locked.old.phase ≡ Some result)
            × (assigned_to self.old.core locked.old.number ≡ Some result) }
        ensures own { self.new.seats.own.items ≡ self.old.seats.own.items ++ result ∷ [] }
        ensures shelf { locked.new ≡ settled locked.old }
        ensures objects { KeepsObjects (sequencer_in self.old) (sequencer_in self.new)
            locked.old locked.new }
        ensures seats { self.new.seats
            ≡ record self.old.seats { own = self.new.seats.own } }
        ensures rest { self.new ≡ record self.old {
          core = self.new.core;
          census = self.new.census;
          seats = self.new.seats;
        } }
        ensures made { Made me.old (Steps (core.Finish locked.old.number) Done) (moment_of self.new)
            me.new }
    {
        let processor = locked.number();
        let id = self.hub.finish(locked);
        note(
            &mut self.sightings,
            me,
            &self.hub,
            &Noted::Finish(processor),
        );
        id
    }

    /// Releases the assigned message: it is pending again, and the blank of a construction is back
    /// in the stock. It takes no memory.
    pub fn release(&mut self, me: &mut Watcher<B>, locked: &mut ProcessorState<C, B>)
        requires { is_assigned locked.old.phase ≡ true }
        ensures goes { Goes (store_in self.old) (core.Release locked.old.number) Done
            (store_in self.new) }
        ensures shelf { locked.new ≡ record locked.old { phase = phases.Idle } }
        ensures objects { KeepsObjects (sequencer_in self.old) (sequencer_in self.new)
            locked.old locked.new }
        ensures rest { self.new
            ≡ record self.old { core = self.new.core; census = self.new.census } }
        ensures made { Made me.old (Steps (core.Release locked.old.number) core.Done) (moment_of
            self.new) me.new }
    {
        let processor = locked.number();
        self.hub.release(locked);
        note(
            &mut self.sightings,
            me,
            &self.hub,
            &Noted::Release(processor),
        );
    }
}
