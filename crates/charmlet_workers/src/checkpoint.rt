//! Checkpoints of one shelf after another, while others work.

ghost use Rattle.std.specs.Prelude.{◌≡◌, ◌+◌, ◌<◌, true, IfErr, IfOk, OnOk};
ghost use Rattle.charmlet_model.specs.declared.refusal.Refusal.TheVariants as refusals;
ghost use Rattle.charmlet_migrate.specs.Moving.{IsIdle};
ghost use Rattle.charmlet_hub.specs.Checkpoint.{IsSealed};
ghost use Rattle.charmlet_workers.specs.Runtime.{WasSealed, named};
ghost use Rattle.charmlet_workers.specs.Sealing.{IsLaterGeneration, is_sealing_refusal};

use crate::pause::{NoPause, Pause};
use crate::runtime::Runtime;
use charmlet_chare::Chare;
use charmlet_disk::Disk;
use charmlet_hub::{Checkpoint, Hub, NotSealed};
use charmlet_model::Refusal;
use charmlet_sequencer::{ProcessorState, RuntimeName};
use charmlet_shelf::ImageRoom;
use std::alloc::AllocError;
use std::sync::Wait;

impl<D: Disk, C: Chare, B: RuntimeName> Runtime<D, C, B> {
    /// Makes all events durable by an image of the present world, and answers its generation, which
    /// is later than the one at which the runtime opened. The image replaces the store in the spare
    /// half. It takes the lock of one shelf after another, for as long as packing its elements
    /// takes, and then the hub's, under which it writes. Meanwhile others work: requests,
    /// deliveries, questions and flushes go on, but moves and other checkpoints are refused
    /// `Checkpointing`. A performed delivery on a shelf that isn't committed is committed first. No
    /// client is told anything.
    ///
    /// `Halted`; `Checkpointing` if one runs already; `Memory`; `ImageFull` if the generation would
    /// be past 2^40 or the file past 2^31 bytes: then nothing becomes durable, and the checkpoint
    /// has ended. `Device` halts the store.
    pub fn checkpoint<R: Wait>(&self, rt: &R) -> Result<u64, Refusal>
        ensures ok { IfOk result (IsLaterGeneration self.now.generation) }
        ensures sealed { IfOk result (WasSealed self.now) }
        ensures err { IfErr result (λ refusal. is_sealing_refusal refusal ≡ true) }
    {
        self.checkpoint_with(rt, &NoPause)
    }

    /// Makes a checkpoint as [`Runtime::checkpoint`] does, and tells the pause after each shelf.
    pub fn checkpoint_with<P: Pause, R: Wait>(&self, rt: &R, pause: &P) -> Result<u64, Refusal>
        ensures ok { IfOk result (IsLaterGeneration self.now.generation) }
        ensures sealed { IfOk result (WasSealed self.now) }
        ensures err { IfErr result (λ refusal. is_sealing_refusal refusal ≡ true) }
    {
        let begun = self.begin(rt);
        let mut checkpoint = match begun {
            Ok(checkpoint) => checkpoint,
            Err(refusal) => return Err(refusal),
        };
        let imaged = self.image_all(rt, &mut checkpoint, pause);
        match imaged {
            Ok(()) => self.seal(rt, checkpoint),
            Err(refusal) => {
                self.abandon(rt, checkpoint);
                Err(refusal)
            }
        }
    }

    /// Begins a checkpoint.
    fn begin<R: Wait>(&self, rt: &R) -> Result<Checkpoint<B>, Refusal>
        ensures ok { IfOk result (λ checkpoint. checkpoint.shelves ≡ 0) }
        ensures err { IfErr result (λ refusal. is_sealing_refusal refusal ≡ true) }
    {
        self.hub.lock(rt).begin()
    }

    /// Gives a checkpoint up.
    fn abandon<R: Wait>(&self, rt: &R, checkpoint: Checkpoint<B>) {
        self.hub.lock(rt).abandon(checkpoint);
    }

    /// Hands in all shelves, one after another.
    fn image_all<P: Pause, R: Wait>(
        &self,
        rt: &R,
        checkpoint: &mut Checkpoint<B>,
        pause: &P,
    ) -> Result<(), Refusal>
        requires { checkpoint.old.shelves ≡ 0 }
        ensures all { OnOk result (checkpoint.new.shelves ≡ B.processors) }
        ensures err { IfErr result (λ refusal. is_sealing_refusal refusal ≡ true) }
    {
        for place in 0..self.shelves.len() {
            match self.image_at(rt, checkpoint, place) {
                Ok(()) => pause.imaged(checkpoint.shelves() - 1),
                Err(refusal) => return Err(refusal),
            }
        }
        Ok(())
    }

    /// Hands in the shelf of the next processor.
    fn image_at<R: Wait>(
        &self,
        rt: &R,
        checkpoint: &mut Checkpoint<B>,
        place: usize,
    ) -> Result<(), Refusal>
        requires place { place < B.processors }
        requires next { place ≡ checkpoint.old.shelves }
        ensures next { OnOk result (checkpoint.new.shelves ≡ checkpoint.old.shelves + 1) }
        ensures err { IfErr result (λ refusal. is_sealing_refusal refusal ≡ true) }
    {
        let Ok(room) = self.image_room(rt, place) else {
            return Err(Refusal::Memory);
        };
        let mut held = self.shelves.lock(rt, place);
        self.image_shelf(rt, checkpoint, held.grip.get_mut(), room)
    }

    /// Room for the images of the shelf under one of the locks, by the present packed sizes of its
    /// objects. No lock is held while memory is taken. It fails only when out of memory.
    fn image_room<R: Wait>(&self, rt: &R, place: usize) -> Result<ImageRoom, AllocError>
        requires { place < B.processors }
    {
        let mut room = self.shelves.lock(rt, place).grip.get_mut().image_room();
        room.prepare()?;
        self.shelves
            .lock(rt, place)
            .grip
            .get_mut()
            .measure(&mut room);
        room.reserve()?;
        Ok(room)
    }

    /// Hands in the images of a locked shelf, in the memory of the room.
    fn image_shelf<R: Wait>(
        &self,
        rt: &R,
        checkpoint: &mut Checkpoint<B>,
        locked: &mut ProcessorState<C, B>,
        room: ImageRoom,
    ) -> Result<(), Refusal>
        requires { locked.old.number ≡ checkpoint.old.shelves }
        ensures number { locked.new.number ≡ locked.old.number }
        ensures next { OnOk result (checkpoint.new.shelves ≡ checkpoint.old.shelves + 1) }
        ensures err { IfErr result (λ refusal. is_sealing_refusal refusal ≡ true) }
    {
        if let Err(refusal) = self.settle(rt, locked) {
            return Err(refusal);
        }
        let images = match locked.images(room) {
            Ok(images) => images,
            Err(refusal) => return Err(refusal),
        };
        match self.hub.lock(rt).image(checkpoint, locked, images) {
            Ok(()) => Ok(()),
            Err(_) => Err(Refusal::Memory),
        }
    }

    /// Ends a checkpoint to which all shelves were handed in, or gives it up.
    fn seal<R: Wait>(&self, rt: &R, checkpoint: Checkpoint<B>) -> Result<u64, Refusal>
        requires { checkpoint.shelves ≡ B.processors }
        ensures ok { IfOk result (IsLaterGeneration self.now.generation) }
        ensures sealed { IfOk result (WasSealed self.now) }
        ensures err { IfErr result (λ refusal. is_sealing_refusal refusal ≡ true) }
    {
        let sealed = self.seal_locked(rt, checkpoint);
        match sealed {
            Ok(generation) => Ok(generation),
            Err(
                NotSealed {
                    refusal,
                    checkpoint,
                },
            ) => {
                self.abandon(rt, checkpoint);
                Err(refusal)
            }
        }
    }

    /// Ends a checkpoint to which all shelves were handed in.
    fn seal_locked<R: Wait>(&self, rt: &R, checkpoint: Checkpoint<B>) -> Result<u64, NotSealed<B>>
        requires { checkpoint.shelves ≡ B.processors }
        ensures ok { IfOk result (IsLaterGeneration self.now.generation) }
        ensures sealed { IfOk result (WasSealed self.now) }
        ensures err { IfErr result (λ back. is_sealing_refusal back.refusal ≡ true) }
    {
        seal(&mut self.hub.lock(rt), checkpoint)
    }

    /// Ends the delivery that is under way on a shelf: a performed delivery is committed, and an
    /// assigned message is released. The only refusal is `Halted`.
    pub(crate) fn settle<R: Wait>(
        &self,
        rt: &R,
        locked: &mut ProcessorState<C, B>,
    ) -> Result<(), Refusal>
        ensures number { locked.new.number ≡ locked.old.number }
        ensures idle { OnOk result (IsIdle locked.new) }
        ensures err { IfErr result (λ refusal. refusal ≡ refusals.Halted) }
    {
        if let Err(refusal) = self.catch_up(rt, locked) {
            return Err(refusal);
        }
        if locked.is_assigned() {
            self.hub.lock(rt).release(locked);
        }
        Ok(())
    }
}

/// The hub's end of a checkpoint.
fn seal<D: Disk, C: Chare, B: RuntimeName>(
    hub: &mut Hub<D, C, B>,
    checkpoint: Checkpoint<B>,
) -> Result<u64, NotSealed<B>>
    requires { checkpoint.shelves ≡ B.processors }
    ensures sealed { OnOk result (IsSealed hub.old hub.new) }
    ensures ok { IfOk result (IsLaterGeneration B.generation) }
    ensures was { IfOk result
        (WasSealed (named B.opening B.before B.processors B.generation)) }
    ensures err { IfErr result (λ back. is_sealing_refusal back.refusal ≡ true) }
{
    hub.facts();
    let sealed = hub.seal(checkpoint);
    hub.facts();
    sealed
}
