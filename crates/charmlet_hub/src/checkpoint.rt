//! A checkpoint that runs while others work.

ghost use Rattle.std.specs.Prelude.{◌≡◌, ◌≢◌, ◌+◌, ◌<◌, ◌^◌, All, false, true, is_some, IfErr, IfOk, IfSome, OnErr, OnOk};
ghost use Rattle.std.specs.Map.{keys_of};
ghost use Rattle.charmlet_model.specs.declared.refusal.Refusal.TheVariants as refusals;
ghost use Rattle.charmlet_model.specs.Core.{halted_core, present};
ghost use Rattle.charmlet_disk.specs.Calls.{AfterCall};
ghost use Rattle.charmlet_disk.specs.Disk.{LeavesOnly};
ghost use Rattle.charmlet_halves.specs.Answers.{is_no_failure};
ghost use Rattle.charmlet_history.specs.Kept.{core_in};
ghost use Rattle.charmlet_persist.specs.Writes.Rest.{HasOldOrSealed, HasSealed};
ghost use Rattle.charmlet_leases.specs.Passes.Passes.{event_count};
ghost use Rattle.charmlet_persist.specs.FuzzyCheckpoint.Checkpoint.{AreAllCaptured, IsRunning, IsShownBy};
ghost use Rattle.charmlet_persist.specs.FuzzyCheckpoint.Sealing.{PassesLimit};
ghost use Rattle.charmlet_shelf.specs.Image.{AreImages};
ghost use Rattle.charmlet_sequencer.specs.Checkpointing.{IsSealRefusal, IsSealedCore};
ghost use Rattle.charmlet_sequencer.specs.Sequencer.{is_lawful};
ghost use Rattle.charmlet_hub.specs.Checkpoint.{IsSealed, IsTooLarge, begin_refusal, is_no_device, with_images_if};

use crate::hub::Hub;
use crate::names::CheckpointsOf;
use charmlet_chare::Chare;
use charmlet_disk::Disk;
use charmlet_history::History;
use charmlet_locks::Fragment;
use charmlet_model::Refusal;
use charmlet_persist::FuzzyCheckpoint;
use charmlet_sequencer::{ProcessorState, RuntimeName, Sequencer};
use charmlet_shelf::Image;
use std::alloc::AllocError;
use std::marker::Model;

/// How many events there were when a checkpoint began, including those before the opening world,
/// and how many shelves were handed in to it.
#[derive(Debug, Drop)]
pub struct GhostToken {
    pub(crate) begun: u64,
    pub(crate) shelves: u16,
}

impl Model for GhostToken {
    ghost use Rattle.charmlet_hub.specs.Checkpoint.{Token};

    ghost Value = { Token };

    ghost view = { λ h. record { begun = h.begun; shelves = h.shelves } };
}

/// The token of a running checkpoint's owner: that it runs, how many events there were when it
/// began, and how many shelves were handed in, those of the first processors. A contract sees both
/// numbers. It can't be dropped: a checkpoint ends by [`Hub::seal`] or [`Hub::abandon`].
pub struct Checkpoint<B: RuntimeName> {
    begun: u64,
    shelves: u16,
    fragment: Fragment<GhostToken, CheckpointsOf<B>>,
}

impl<B: RuntimeName> Model for Checkpoint<B> {
    ghost use Rattle.std.specs.Prelude.{◌≡◌, Some};
    ghost use Rattle.charmlet_hub.specs.Checkpoint.{Token};

    ghost Value = { Token };

    ghost view = { λ c. record { begun = c.begun; shelves = c.shelves } };

    ghost invariant = { λ c. c.fragment.1
        ≡ Some (record { begun = c.begun; shelves = c.shelves }) };
}

impl<B: RuntimeName> Checkpoint<B> {
    /// How many shelves were handed in, those of the first processors.
    pub fn shelves(&self) -> u16
        ensures { result ≡ self.now.shelves }
    {
        self.shelves
    }
}

/// A checkpoint that wasn't sealed, and why not. It still runs.
pub struct NotSealed<B: RuntimeName> {
    pub refusal: Refusal,
    pub checkpoint: Checkpoint<B>,
}

impl<D: Disk, C: Chare, B: RuntimeName> Hub<D, C, B> {
    /// Begins a checkpoint that lets others work meanwhile: only moves and other checkpoints are
    /// refused, as `Checkpointing`, until it ends. There is room for all assigned deliveries. Each
    /// absent element that has a record is captured now. No shelf was handed in yet. Nothing is
    /// written.
    ///
    /// The refusal is the first that applies of `Halted`, `Checkpointing` if one runs already, and
    /// `Memory`. Then nothing changes.
    pub fn begin(&mut self) -> Result<Checkpoint<B>, Refusal>
        ensures ok { IfOk result (λ checkpoint. checkpoint ≡ record {
          begun = event_count self.old.core;
          shelves = 0;
        }) }
        ensures begun { OnOk result (self.new ≡ record self.old { busy = true }) }
        ensures going { OnOk result (self.old.core.halted ≡ false) }
        ensures free { OnOk result (self.old.busy ≡ false) }
        ensures err { IfErr result (λ refusal. refusal ≡ begin_refusal self.old) }
        ensures same { OnErr result (self.new ≡ self.old) }
    {
        if self.sequencer.history().is_halted() {
            return Err(Refusal::Halted);
        }
        if self.running.is_some() {
            return Err(Refusal::Checkpointing);
        }
        self.sequencer.facts();
        let most = usize::from(self.processors);
        let Ok(running) = FuzzyCheckpoint::begin(self.alloc, self.sequencer.history(), most) else {
            return Err(Refusal::Memory);
        };
        self.running = Some(running);
        let begun = self.sequencer.history().event_count();
        let fragment = self.tokens.issue(&GhostToken { begun, shelves: 0 });
        Ok(Checkpoint {
            begun,
            shelves: 0,
            fragment,
        })
    }

    /// Hands in the images of a shelf to the running checkpoint. They are those of all its
    /// elements, and the shelf's lock is held, as it was when they were made. The shelves come by
    /// rising number. It fails only when out of memory, and then the shelf wasn't handed in.
    /// Nothing else changes.
    pub fn image(
        &mut self,
        checkpoint: &mut Checkpoint<B>,
        locked: &mut ProcessorState<C, B>,
        images: Vec<Image>,
    ) -> Result<(), AllocError>
        requires next { locked.old.number ≡ checkpoint.old.shelves }
        requires images { AreImages locked.old.records (keys_of locked.old.records)
            images.items }
        ensures ok { OnOk result (checkpoint.new
            ≡ record checkpoint.old { shelves = checkpoint.old.shelves + 1 }) }
        ensures err { OnErr result (checkpoint.new ≡ checkpoint.old) }
        ensures runs { self.old.busy ≡ true }
        ensures hub { self.new ≡ self.old }
        ensures locked { locked.new ≡ locked.old }
    {
        self.sequencer.facts();
        self.sequencer.agree(locked);
        self.tokens.agree(&mut checkpoint.fragment);
        if take_images(&mut self.running, self.sequencer.history(), images).is_err() {
            return Err(AllocError);
        }
        let begun = checkpoint.begun;
        let shelves = checkpoint.shelves + 1;
        self.tokens
            .change(&mut checkpoint.fragment, &GhostToken { begun, shelves });
        checkpoint.shelves = shelves;
        Ok(())
    }

    /// Ends the checkpoint, to which each shelf was handed in, and answers its generation. It makes
    /// all events durable by an image that means the present world, which replaces the store in the
    /// spare half. The image has each element as it was at a moment since the checkpoint began, and
    /// the deliveries since then. On an honest disk that half is then the taken one: it counts all
    /// events, and its log has no batch yet, and ends where the history says. No client is told
    /// anything.
    ///
    /// `Halted`; `Memory`; `ImageFull` if the generation would be past 2^40 or the file past 2^31
    /// bytes by the contents of its image: then nothing changes. `Device` halts the store. If
    /// refused, the checkpoint still runs, and its token comes back. On an honest disk a crash at
    /// any moment of the call leaves the world after some of the history, including all events that
    /// were durable before. If the store isn't halted, it leaves the world after the durable
    /// events, as it was, or the present world at the next generation, and no world between them.
    pub fn seal(&mut self, checkpoint: Checkpoint<B>) -> Result<u64, NotSealed<B>>
        requires { checkpoint.shelves ≡ B.processors }
        ensures ok { IfOk result (λ generation. generation ≡ self.old.core.generation + 1) }
        ensures within { OnOk result (self.old.core.generation < 2 ^ 40) }
        ensures going { OnOk result (self.old.core.halted ≡ false) }
        ensures sealed { OnOk result (IsSealed self.old self.new) }
        ensures err { IfErr result (λ back. IsSealRefusal self.old.core back.refusal) }
        ensures full { IfErr result (λ back. back.refusal ≡ refusals.ImageFull →
            IsTooLarge self.old.core checkpoint.begun) }
        ensures refused { IfErr result (λ back. back.refusal ≢ refusals.Device →
            self.new ≡ self.old) }
        ensures failed { IfErr result (λ back. back.refusal ≡ refusals.Device → self.new
            ≡ record self.old { core = halted_core self.old.core; disk = self.new.disk }) }
        ensures back { IfErr result (λ back. back.checkpoint ≡ checkpoint) }
        ensures ran { self.old.busy ≡ true }
        ensures image { D.honest self.old.disk →
            OnOk result (HasSealed D.Disk self.new.core self.new.disk) }
        ensures any_moment { D.honest self.old.disk → LeavesOnly D.moment D.since self.old.disk
            self.new.disk (is_lawful self.old.core) }
        ensures stored { D.honest self.old.disk → self.old.core.halted ≡ false →
            LeavesOnly D.moment D.since self.old.disk self.new.disk
            (HasOldOrSealed self.old.core) }
        ensures disk { OnOk result (AfterCall D.Disk self.old.disk self.new.disk true) }
        ensures disk_err { IfErr result (λ back. AfterCall D.Disk self.old.disk self.new.disk
            (is_no_device back.refusal)) }
    {
        let mut checkpoint = checkpoint;
        self.sequencer.facts();
        self.tokens.agree(&mut checkpoint.fragment);
        let sealed = seal_running(&mut self.sequencer, &mut self.running);
        self.sequencer.facts();
        match sealed {
            Ok(generation) => {
                self.end(checkpoint);
                Ok(generation)
            }
            Err(refusal) => Err(NotSealed {
                refusal,
                checkpoint,
            }),
        }
    }

    /// Gives the checkpoint up: none of it is written.
    pub fn abandon(&mut self, checkpoint: Checkpoint<B>)
        ensures ended { self.new ≡ record self.old { busy = false } }
        ensures ran { self.old.busy ≡ true }
    {
        self.end(checkpoint);
    }

    /// Takes the token back, and drops the checkpoint.
    fn end(&mut self, checkpoint: Checkpoint<B>)
        ensures ended { self.new ≡ record self.old { busy = false } }
        ensures ran { self.old.busy ≡ true }
    {
        let Checkpoint {
            begun: _,
            shelves: _,
            fragment,
        } = checkpoint;
        self.tokens.take_back(fragment);
        self.running = None;
    }
}

/// Captures the elements of a shelf in the running checkpoint. When out of memory, nothing changes.
fn take_images(
    running: &mut Option<FuzzyCheckpoint>,
    history: &History,
    images: Vec<Image>,
) -> Result<(), AllocError>
    requires runs { is_some running.old ≡ true }
    requires running { IfSome running.old (IsRunning (core_in history.now)) }
    requires shown { All (IsShownBy (present (core_in history.now))) images.items }
    ensures ok { OnOk result (running.new ≡ with_images_if running.old images.items) }
    ensures err { OnErr result (running.new ≡ running.old) }
    ensures running { IfSome running.new (IsRunning (core_in history.now)) }
{
    match running {
        Some(running) => running.capture_shelf(history, images),
        None => unreachable!(),
    }
}

/// Ends the running checkpoint, in which everything is captured, by the sequencer's part of it.
fn seal_running<D: Disk, C: Chare, B: RuntimeName>(
    sequencer: &mut Sequencer<D, C, B>,
    running: &mut Option<FuzzyCheckpoint>,
) -> Result<u64, Refusal>
    requires runs { is_some running.old ≡ true }
    requires running { IfSome running.old (IsRunning sequencer.old.core) }
    requires settled { IfSome running.old (AreAllCaptured sequencer.old.core) }
    ensures ok { IfOk result (λ generation. generation ≡ sequencer.old.core.generation + 1) }
    ensures within { OnOk result (sequencer.old.core.generation < 2 ^ 40) }
    ensures going { OnOk result (sequencer.old.core.halted ≡ false) }
    ensures sealed { OnOk result (IsSealedCore sequencer.old.core sequencer.new.core) }
    ensures err { IfErr result (IsSealRefusal sequencer.old.core) }
    ensures full { IfErr result (λ refusal. refusal ≡ refusals.ImageFull →
        IfSome running.old (PassesLimit sequencer.old.core)) }
    ensures failed { IfErr result (λ refusal. refusal ≡ refusals.Device →
        sequencer.new.core ≡ halted_core sequencer.old.core) }
    ensures refused { IfErr result (λ refusal. refusal ≢ refusals.Device →
        sequencer.new ≡ sequencer.old) }
    ensures image { D.honest sequencer.old.disk →
        OnOk result (HasSealed D.Disk sequencer.new.core sequencer.new.disk) }
    ensures any_moment { D.honest sequencer.old.disk → LeavesOnly D.moment D.since
        sequencer.old.disk sequencer.new.disk (is_lawful sequencer.old.core) }
    ensures stored { D.honest sequencer.old.disk → sequencer.old.core.halted ≡ false →
        LeavesOnly D.moment D.since sequencer.old.disk sequencer.new.disk
        (HasOldOrSealed sequencer.old.core) }
    ensures disk { AfterCall D.Disk sequencer.old.disk sequencer.new.disk
        (is_no_failure result) }
    ensures census { sequencer.new.census ≡ sequencer.old.census }
    ensures running { running.new ≡ running.old }
{
    match running {
        Some(running) => sequencer.seal_running(running),
        None => unreachable!(),
    }
}
