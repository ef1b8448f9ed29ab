//! Checkpoints of a hub that run while others work.

use crate::disk::ProbeDisk;
use crate::hub::hub_machine::HubMachine;
use crate::objects::Object;
use crate::store::{Failed, Running};
use charmlet_hub::{Checkpoint, NotSealed};
use charmlet_model::Refusal;
use charmlet_sequencer::ProcessorState;
use charmlet_watch::{Watched, WatchedName, Watcher};

/// What is lacking if no checkpoint runs.
const CHECKPOINT: Failed = Failed::Lacks("checkpoint");

/// What is lacking if it isn't this shelf's turn, or a shelf wasn't handed in yet.
const SHELF: Failed = Failed::Lacks("shelf");

impl<B: WatchedName> HubMachine<B> {
    /// Makes this call with the running checkpoint. A seal answers its generation.
    pub(crate) fn call_running(&mut self, call: Running) -> Result<Option<u64>, Failed> {
        match call {
            Running::Begin => self.begin(),
            Running::Image(processor) => self.image_shelf(processor),
            Running::Seal => self.seal(),
            Running::Abandon => self.abandon(),
        }
    }

    fn begin(&mut self) -> Result<Option<u64>, Failed> {
        match self.hub.begin(&mut self.me) {
            Ok(checkpoint) => {
                // A hub begins none while one runs.
                end(
                    &mut self.hub,
                    &mut self.me,
                    self.checkpoint.replace(checkpoint),
                );
                Ok(None)
            }
            Err(refusal) => Err(Failed::Refused(refusal)),
        }
    }

    fn image_shelf(&mut self, processor: u16) -> Result<Option<u64>, Failed> {
        let Some(checkpoint) = self.checkpoint.as_mut() else {
            return Err(CHECKPOINT);
        };
        match self.shelves.get_mut(usize::from(processor)) {
            Some(shelf) => image(&mut self.hub, checkpoint, shelf),
            None => Err(Failed::Refused(Refusal::BadPes)),
        }
    }

    fn seal(&mut self) -> Result<Option<u64>, Failed> {
        let processors = self.hub.processors();
        match self.checkpoint.take() {
            None => Err(CHECKPOINT),
            Some(checkpoint) if checkpoint.shelves() == processors => {
                match self.hub.seal(&mut self.me, checkpoint) {
                    Ok(generation) => Ok(Some(generation)),
                    Err(
                        NotSealed {
                            refusal,
                            checkpoint,
                        },
                    ) => {
                        end(
                            &mut self.hub,
                            &mut self.me,
                            self.checkpoint.replace(checkpoint),
                        );
                        Err(Failed::Refused(refusal))
                    }
                }
            }
            Some(checkpoint) => {
                end(
                    &mut self.hub,
                    &mut self.me,
                    self.checkpoint.replace(checkpoint),
                );
                Err(SHELF)
            }
        }
    }

    fn abandon(&mut self) -> Result<Option<u64>, Failed> {
        match self.checkpoint.take() {
            Some(checkpoint) => {
                self.hub.abandon(&mut self.me, checkpoint);
                Ok(None)
            }
            None => Err(CHECKPOINT),
        }
    }
}

/// Makes a checkpoint at once: it begins, all shelves are handed in, and it is sealed. If that is
/// refused, the checkpoint is given up.
pub(crate) fn checkpoint<B: WatchedName>(
    hub: &mut Watched<ProbeDisk, Object, B>,
    me: &mut Watcher<B>,
    shelves: &mut [ProcessorState<Object, B>],
) -> Result<u64, Failed> {
    let mut checkpoint = match hub.begin(me) {
        Ok(checkpoint) => checkpoint,
        Err(refusal) => return Err(Failed::Refused(refusal)),
    };
    let imaged = image_all(hub, &mut checkpoint, shelves);
    match imaged {
        Ok(()) => seal_or_abandon(hub, me, checkpoint),
        Err(failed) => {
            hub.abandon(me, checkpoint);
            Err(failed)
        }
    }
}

/// Hands in all shelves.
fn image_all<B: WatchedName>(
    hub: &mut Watched<ProbeDisk, Object, B>,
    checkpoint: &mut Checkpoint<B>,
    shelves: &mut [ProcessorState<Object, B>],
) -> Result<(), Failed> {
    for shelf in shelves.iter_mut() {
        image(hub, checkpoint, shelf)?;
    }
    Ok(())
}

/// Seals a checkpoint, or gives it up.
fn seal_or_abandon<B: WatchedName>(
    hub: &mut Watched<ProbeDisk, Object, B>,
    me: &mut Watcher<B>,
    checkpoint: Checkpoint<B>,
) -> Result<u64, Failed> {
    if checkpoint.shelves() != hub.processors() {
        hub.abandon(me, checkpoint);
        return Err(SHELF);
    }
    match hub.seal(me, checkpoint) {
        Ok(generation) => Ok(generation),
        Err(
            NotSealed {
                refusal,
                checkpoint,
            },
        ) => {
            hub.abandon(me, checkpoint);
            Err(Failed::Refused(refusal))
        }
    }
}

/// Ends a checkpoint, if there is one.
pub(crate) fn end<B: WatchedName>(
    hub: &mut Watched<ProbeDisk, Object, B>,
    me: &mut Watcher<B>,
    checkpoint: Option<Checkpoint<B>>,
) {
    if let Some(checkpoint) = checkpoint {
        hub.abandon(me, checkpoint);
    }
}

/// Hands in a shelf, if it is the next one.
fn image<B: WatchedName>(
    hub: &mut Watched<ProbeDisk, Object, B>,
    checkpoint: &mut Checkpoint<B>,
    shelf: &mut ProcessorState<Object, B>,
) -> Result<Option<u64>, Failed> {
    if shelf.number() != checkpoint.shelves() {
        return Err(SHELF);
    }
    let room = shelf.image_room();
    let images = shelf.images(room)?;
    match hub.image(checkpoint, shelf, images) {
        Ok(()) => Ok(None),
        Err(_) => Err(Failed::MEMORY),
    }
}
