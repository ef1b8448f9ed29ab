//! Shelves under their locks.

use crate::part::GhostPart;
use charmlet_chare::{Chare, Output};
use charmlet_locks::{AuthorityName, Fragment};
use charmlet_model::{Elem, MsgId, Refusal};
use charmlet_shelf::{Image, ImageRoom, Shelf};
use std::alloc::AllocError;
use std::marker::Model;

/// Messages that an element has sent by one delivery: their count, and the number of the last of
/// them.
#[derive(Clone, Copy, Debug)]
pub struct SentBy {
    pub elem: Elem,
    pub last: u64,
    pub count: u64,
}

/// A shelf, and its fragment of the sequencer's authority, which has the records of its elements
/// before the delivery that is under way there, and that delivery. A contract sees the shelf. Its
/// objects show these records; once the receiver has reacted, its object is ahead by exactly that
/// delivery.
pub struct ProcessorState<C: Chare, B: AuthorityName> {
    pub(crate) shelf: Shelf<C>,
    /// The receiver's output, once it has reacted.
    pub(crate) output: Option<Output>,
    pub(crate) fragment: Fragment<GhostPart, B>,
}

impl<C: Chare, B: AuthorityName> Model for ProcessorState<C, B> {
    ghost use Rattle.std.specs.Prelude.{◌≡◌, Some};
    ghost use Rattle.charmlet_shelf.specs.Shelf.{View};
    ghost use Rattle.charmlet_sequencer.specs.Part.{part_on};
    ghost use Rattle.charmlet_sequencer.specs.Shelf.{HasOutput};

    ghost Value = { View };

    ghost view = { λ s. s.shelf };

    ghost invariant = { λ s. (s.fragment ≡ (s.shelf.number, Some (part_on s.shelf)))
        × HasOutput s.shelf.phase s.output };
}

// Written by hand, so that dropping all its fields is proved here, and not in each function that
// drops one.
impl<C: Chare, B: AuthorityName> Drop for ProcessorState<C, B> {
    fn drop(self) {
        let ProcessorState {
            shelf,
            output,
            fragment,
        } = self;
        drop(shelf);
        drop(output);
        drop(fragment);
    }
}

impl<C: Chare, B: AuthorityName> ProcessorState<C, B> {
    ghost use Rattle.std.specs.Prelude.{◌≡◌, true, if◌then◌else◌, Some, IfErr, IfOk, OnErr, OnOk};
    ghost use Rattle.std.specs.Map.{keys_of};
    ghost use Rattle.charmlet_model.specs.declared.refusal.Refusal.TheVariants as refusals;
    ghost use Rattle.charmlet_shelf.specs.Image.{AreImages};
    ghost use Rattle.charmlet_shelf.specs.Shelf.{is_assigned, is_idle};
    ghost use Rattle.charmlet_persist.specs.Snapshot.Imaging.{AnswersImage};
    ghost use Rattle.charmlet_sequencer.specs.Part.{part_on};
    ghost use Rattle.charmlet_sequencer.specs.Shelf.{delivery_in, entered, is_done, sent_in};

    /// The shelf, and its fragment of the authority.
    pub(crate) fn into_parts(self) -> (Shelf<C>, Fragment<GhostPart, B>)
        ensures shelf { result.0 ≡ self }
        ensures fragment { result.1 ≡ (self.number, Some (part_on self)) }
    {
        let ProcessorState {
            shelf,
            output,
            fragment,
        } = self;
        drop(output);
        (shelf, fragment)
    }

    /// The number of the shelf's processor.
    pub fn number(&self) -> u16
        ensures { result ≡ self.now.number }
    {
        self.shelf.number()
    }

    /// Whether no delivery is under way.
    pub fn is_idle(&self) -> bool
        ensures { result ≡ is_idle self.now.phase }
    {
        self.shelf.is_idle()
    }

    /// Whether a message is assigned, and its receiver hasn't reacted yet.
    #[tactic(auto, using(crate::proofs::Shelves::done_unassigned, crate::proofs::Shelves::assigned_else))]
    pub fn is_assigned(&self) -> bool
        ensures { result ≡ is_assigned self.now.phase }
    {
        if self.is_done() {
            return false;
        }
        !self.is_idle()
    }

    /// Whether the receiver has reacted, and the delivery isn't committed yet.
    pub fn is_done(&self) -> bool
        ensures { result ≡ is_done self.now.phase }
    {
        self.shelf.outcome().is_some()
    }

    /// The id of the receiver's delivery, until it is committed.
    pub fn delivery(&self) -> Option<MsgId>
        ensures { result ≡ delivery_in self.now.phase }
    {
        match self.shelf.outcome() {
            Some(outcome) => Some(outcome.delivery().message().id),
            None => None,
        }
    }

    /// The messages that the receiver has sent by its delivery, until it is committed.
    pub fn sent(&self) -> Option<SentBy>
        ensures { result ≡ sent_in self.now.phase }
    {
        let outcome = self.shelf.outcome()?;
        let output = self.output.as_ref()?;
        let (last, _received) = outcome.counts();
        Some(SentBy {
            elem: outcome.delivery().message().to,
            last,
            count: output.sends.as_slice().len() as u64,
        })
    }

    /// Runs the receiver's reaction to the assigned message. It needs no sequencer. It fails only
    /// when out of memory, and then the shelf is unchanged.
    pub fn enter(&mut self) -> Result<(), AllocError>
        requires { is_assigned self.old.phase ≡ true }
        ensures ok { OnOk result (self.new
            ≡ record self.old { phase = entered self.old.phase }) }
        ensures err { OnErr result (self.new ≡ self.old) }
    {
        self.shelf.perform()?;
        self.output = self.shelf.take_output();
        Ok(())
    }

    /// An empty room for the images of as many elements as stand here now, whose memory is still to
    /// be reserved. It takes no memory.
    pub fn image_room(&self) -> ImageRoom {
        self.shelf.image_room()
    }

    /// Notes in the room the packed size of each object in bytes, as far as the room suffices. It
    /// takes no memory, and the shelf is unchanged.
    pub fn measure(&mut self, room: &mut ImageRoom)
        ensures { self.new ≡ self.old }
    {
        self.shelf.measure(room);
    }

    /// Takes the images of all elements on the shelf, in any order, in the memory of the room.
    /// `Uncommitted` if a delivery is under way; otherwise `Memory`, which is taken only if the
    /// room is too small. The shelf is unchanged. It needs no sequencer.
    pub fn images(&mut self, room: ImageRoom) -> Result<Vec<Image>, Refusal>
        ensures ok { IfOk result (λ images. (is_idle self.old.phase ≡ true)
            × AreImages self.old.records (keys_of self.old.records) images.items) }
        ensures err { IfErr result (λ refusal. refusal
            ≡ (if is_idle self.old.phase then refusals.Memory else refusals.Uncommitted)) }
        ensures same { self.new ≡ self.old }
    {
        self.shelf.images(room)
    }

    /// Takes the image of an element, or returns `None` if it isn't here. `Uncommitted` if a
    /// delivery is under way; otherwise `Memory`, but only if the element is here. The shelf is
    /// unchanged.
    pub fn image(&mut self, elem: Elem) -> Result<Option<Image>, Refusal>
        ensures image { AnswersImage self.old elem result }
        ensures same { self.new ≡ self.old }
    {
        self.shelf.image(elem)
    }
}
