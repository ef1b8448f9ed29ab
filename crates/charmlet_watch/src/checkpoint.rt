//! Checkpoints that run while others work.

ghost use Rattle.std.specs.Prelude.{◌≡◌, ◌≢◌, ◌+◌, ◌<◌, ◌^◌, false, true, IfErr, IfOk, OnErr, OnOk};
ghost use Rattle.std.specs.Map.{keys_of};
ghost use Rattle.charmlet_model.specs.declared.refusal.Refusal.TheVariants as refusals;
ghost use Rattle.charmlet_model.specs.Core.{halted_core, present};
ghost use Rattle.charmlet_disk.specs.Calls.{AfterCall};
ghost use Rattle.charmlet_disk.specs.Disk.{LeavesOnly};
ghost use Rattle.charmlet_persist.specs.Writes.Rest.{HasOldOrSealed, HasSealed};
ghost use Rattle.charmlet_leases.specs.Passes.Passes.{event_count};
ghost use Rattle.charmlet_shelf.specs.Image.{AreImages};
ghost use Rattle.charmlet_sequencer.specs.Checkpointing.{IsSealRefusal};
ghost use Rattle.charmlet_sequencer.specs.Sequencer.{is_lawful};
ghost use Rattle.charmlet_hub.specs.Checkpoint.{IsSealed, IsTooLarge, begin_refusal, is_no_device};
ghost use Rattle.charmlet_watch.specs.Moments.{Abandons, Begins, Looks, Made, Seals, moment_of};
ghost use Rattle.std.specs.Prelude.{None, Some};

use crate::names::{WatchedName, Watcher};
use crate::noted::{Noted, note};
use crate::watched::Watched;
use charmlet_chare::Chare;
use charmlet_disk::Disk;
use charmlet_hub::{Checkpoint, NotSealed};
use charmlet_model::Refusal;
use charmlet_sequencer::ProcessorState;
use charmlet_shelf::Image;
use std::alloc::AllocError;

impl<D: Disk, C: Chare, B: WatchedName> Watched<D, C, B> {
    /// Begins a checkpoint that lets others work meanwhile: only moves and other checkpoints are
    /// refused, as `Checkpointing`, until it ends. There is room for all assigned deliveries. Each
    /// absent element that has a record is captured now. No shelf was handed in yet. Nothing is
    /// written.
    ///
    /// The refusal is the first that applies of `Halted`, `Checkpointing` if one runs already, and
    /// `Memory`. Then nothing changes.
    pub fn begin(&mut self, me: &mut Watcher<B>) -> Result<Checkpoint<B>, Refusal>
        ensures ok { IfOk result (λ checkpoint. checkpoint ≡ record {
          begun = event_count self.old.core;
          shelves = 0;
        }) }
        ensures begun { OnOk result (self.new ≡ record self.old { busy = true }) }
        ensures going { OnOk result (self.old.core.halted ≡ false) }
        ensures free { OnOk result (self.old.busy ≡ false) }
        ensures err { IfErr result (λ refusal. refusal ≡ begin_refusal self.old) }
        ensures same { OnErr result (self.new ≡ self.old) }
        ensures made { OnOk result (Made me.old Begins (moment_of self.new) me.new) }
        ensures unmade { OnErr result (Made me.old Looks (moment_of self.new) me.new) }
    {
        let begun = self.hub.begin();
        let call = if begun.is_ok() {
            Noted::Begin
        } else {
            Noted::Look
        };
        note(&mut self.sightings, me, &self.hub, &call);
        begun
    }

    /// Hands in the images of a shelf to the running checkpoint. They are those of all its
    /// elements, and the shelf's lock is held, as it was when they were made. The shelves come by
    /// rising number. It fails only when out of memory, and then the shelf wasn't handed in.
    /// Nothing else changes.
    pub fn image(
        &mut self,
        checkpoint: &mut Checkpoint<B>,
        locked: &mut ProcessorState<C, B>,
        images: Vec<Image>,
    ) -> Result<(), AllocError>
        requires next { locked.old.number ≡ checkpoint.old.shelves }
        requires images { AreImages locked.old.records (keys_of locked.old.records)
            images.items }
        ensures ok { OnOk result (checkpoint.new
            ≡ record checkpoint.old { shelves = checkpoint.old.shelves + 1 }) }
        ensures err { OnErr result (checkpoint.new ≡ checkpoint.old) }
        ensures runs { self.old.busy ≡ true }
        ensures hub { self.new ≡ self.old }
        ensures locked { locked.new ≡ locked.old }
    {
        self.hub.image(checkpoint, locked, images)
    }

    /// Ends the checkpoint, to which each shelf was handed in, and answers its generation. It makes
    /// all events durable by an image that means the present world, which replaces the store in the
    /// spare half. The image has each element as it was at a moment since the checkpoint began, and
    /// the deliveries since then. On an honest disk that half is then the taken one: it counts all
    /// events, and its log has no batch yet, and ends where the history says. No client is told
    /// anything.
    ///
    /// `Halted`; `Memory`; `ImageFull` if the generation would be past 2^40 or the file past 2^31
    /// bytes by the contents of its image: then nothing changes. `Device` halts the store. If
    /// refused, the checkpoint still runs, and its token comes back. On an honest disk a crash at
    /// any moment of the call leaves the world after some of the history, including all events that
    /// were durable before. If the store isn't halted, it leaves the world after the durable
    /// events, as it was, or the present world at the next generation, and no world between them.
    pub fn seal(
        &mut self,
        me: &mut Watcher<B>,
        checkpoint: Checkpoint<B>,
    ) -> Result<u64, NotSealed<B>>
        requires { checkpoint.shelves ≡ B.processors }
        ensures ok { IfOk result (λ generation. generation ≡ self.old.core.generation + 1) }
        ensures within { OnOk result (self.old.core.generation < 2 ^ 40) }
        ensures going { OnOk result (self.old.core.halted ≡ false) }
        ensures sealed { OnOk result (IsSealed self.old self.new) }
        ensures err { IfErr result (λ back. IsSealRefusal self.old.core back.refusal) }
        ensures full { IfErr result (λ back. back.refusal ≡ refusals.ImageFull →
            IsTooLarge self.old.core checkpoint.begun) }
        ensures refused { IfErr result (λ back. back.refusal ≢ refusals.Device →
            self.new ≡ self.old) }
        ensures failed { IfErr result (λ back. back.refusal ≡ refusals.Device → self.new
            ≡ record self.old { core = halted_core self.old.core; disk = self.new.disk }) }
        ensures back { IfErr result (λ back. back.checkpoint ≡ checkpoint) }
        ensures ran { self.old.busy ≡ true }
        ensures image { D.honest self.old.disk →
            OnOk result (HasSealed D.Disk self.new.core self.new.disk) }
        ensures any_moment { D.honest self.old.disk → LeavesOnly D.moment D.since self.old.disk
            self.new.disk (is_lawful self.old.core) }
        ensures stored { D.honest self.old.disk → self.old.core.halted ≡ false →
            LeavesOnly D.moment D.since self.old.disk self.new.disk
            (HasOldOrSealed self.old.core) }
        ensures disk { OnOk result (AfterCall D.Disk self.old.disk self.new.disk true) }
        ensures disk_err { IfErr result (λ back. AfterCall D.Disk self.old.disk self.new.disk
            (is_no_device back.refusal)) }
        ensures made { OnOk result (Made me.old (Seals None) (moment_of self.new) me.new) }
        ensures unmade { IfErr result (λ back. Made me.old (Seals (Some back.refusal))
            (moment_of self.new) me.new) }
    {
        let sealed = self.hub.seal(checkpoint);
        let call = match &sealed {
            Ok(_) => Noted::Seal(None),
            Err(back) => Noted::Seal(Some(back.refusal)),
        };
        note(&mut self.sightings, me, &self.hub, &call);
        sealed
    }

    /// Gives the checkpoint up: none of it is written.
    pub fn abandon(&mut self, me: &mut Watcher<B>, checkpoint: Checkpoint<B>)
        ensures ended { self.new ≡ record self.old { busy = false } }
        ensures ran { self.old.busy ≡ true }
        ensures made { Made me.old Abandons (moment_of self.new) me.new }
    {
        self.hub.abandon(checkpoint);
        note(&mut self.sightings, me, &self.hub, &Noted::Abandon);
    }
}
