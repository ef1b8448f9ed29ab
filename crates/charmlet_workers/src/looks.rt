//! Views of a runtime: an element on its shelf, and everything else in one hold of the hub.

ghost use Rattle.std.specs.Prelude.{◌≡◌, ◌+◌, ◌<◌, ◌⊎◌, Some, IfErr, IfOk, IfSome, length, map};
ghost use Rattle.charmlet_model.specs.declared.refusal.Refusal.TheVariants as refusals;
ghost use Rattle.charmlet_model.specs.Core.{place_of, present};
ghost use Rattle.charmlet_model.specs.World.{record_of};
ghost use Rattle.charmlet_history.specs.Kept.{core_in, is_quiet};
ghost use Rattle.charmlet_history.specs.Wanting.{wanted_in};
ghost use Rattle.charmlet_store.specs.Look.{IsLook};
ghost use Rattle.charmlet_delivery.specs.Workplace.{ShowsOn};
ghost use Rattle.charmlet_workers.specs.Runtime.{ArePending, ArePendingIds, WasSeen, WasTrue};

use crate::runtime::Runtime;
use charmlet_chare::Chare;
use charmlet_disk::Disk;
use charmlet_history::History;
use charmlet_model::{Elem, Kind, MsgId, Refusal};
use charmlet_sequencer::{ProcessorState, RuntimeName};
use charmlet_shelf::Image;
use charmlet_store::{Look, Standing};
use std::alloc::{AllocError, Global};
use std::sync::Wait;

impl<D: Disk, C: Chare, B: RuntimeName> Runtime<D, C, B> {
    /// How many events there are, including those before the opening world.
    pub fn event_count<R: Wait>(&self, rt: &R) -> u64
        ensures { WasTrue self.now (λ core. result ≡ core.before + length core.history) }
    {
        let hub = self.hub.lock(rt);
        hub.facts();
        hub.history().event_count()
    }

    /// How many events are durable, including those before the opening world.
    pub fn durable<R: Wait>(&self, rt: &R) -> u64
        ensures { WasTrue self.now (λ core. result ≡ core.before + core.durable) }
    {
        let hub = self.hub.lock(rt);
        hub.facts();
        hub.history().durable_count()
    }

    /// The generation of the image in the taken half.
    pub fn generation<R: Wait>(&self, rt: &R) -> u64
        ensures { WasTrue self.now (λ core. result ≡ core.generation) }
    {
        let hub = self.hub.lock(rt);
        hub.facts();
        hub.history().generation()
    }

    /// Whether the device failed in an earlier call, so that each step is refused.
    pub fn is_halted<R: Wait>(&self, rt: &R) -> bool
        ensures { WasTrue self.now (λ core. result ≡ core.halted) }
    {
        let hub = self.hub.lock(rt);
        hub.facts();
        hub.history().is_halted()
    }

    /// Whether no pending message can be delivered. It takes no memory.
    pub fn quiet<R: Wait>(&self, rt: &R) -> bool
        ensures { WasTrue self.now (λ core. result ≡ is_quiet core) }
    {
        let hub = self.hub.lock(rt);
        hub.facts();
        hub.history().quiet()
    }

    /// How many messages are pending.
    pub fn pending_count<R: Wait>(&self, rt: &R) -> usize
        ensures { ArePending self.now result }
    {
        let hub = self.hub.lock(rt);
        hub.facts();
        hub.history().pending_count()
    }

    /// The ids of the pending messages, in order of arrival. It fails only when out of memory.
    pub fn pending<R: Wait>(&self, rt: &R, alloc: Global) -> Result<Vec<MsgId>, AllocError>
        ensures { IfOk result (λ ids. ArePendingIds self.now ids.items) }
    {
        let hub = self.hub.lock(rt);
        hub.facts();
        pending_in(alloc, hub.history())
    }

    /// How many pending messages want a blank of this kind: those that construct an element that
    /// isn't there. Each takes a blank from the stock when it is delivered, and is refused
    /// `NoBlank` if the stock has none. A stock isn't kept on the disk, so after a restart it holds
    /// only the handed-in blanks that the restart left. It takes no memory.
    pub fn wanted_blanks<R: Wait>(&self, rt: &R, kind: Kind) -> usize
        ensures { WasTrue self.now (λ core. result ≡ wanted_in core kind) }
    {
        let hub = self.hub.lock(rt);
        hub.facts();
        hub.wanted_blanks(kind)
    }

    /// Looks at an element: its counts, and, if it is there, its processor and its packed state, as
    /// they were at one moment. It locks the hub to find the element, and then the shelf on which
    /// it stands; if the element has moved meanwhile, it looks again.
    ///
    /// A performed delivery on that shelf that isn't committed is committed first, or refused as
    /// `Halted`. `Memory` is the only other refusal, for the packed state.
    pub fn look<R: Wait>(&self, rt: &R, elem: Elem) -> Result<Look, Refusal>
        ensures seen { IfOk result (WasSeen self.now elem) }
        ensures err { IfErr result (λ refusal. (refusal ≡ refusals.Halted)
            ⊎ (refusal ≡ refusals.Memory)) }
    {
        for _ in rt.forever() {
            let place = match self.find(rt, elem) {
                Ok(place) => place,
                Err(look) => return Ok(look),
            };
            match self.look_at(rt, elem, place) {
                Ok(Some(look)) => return Ok(look),
                Ok(None) => {}
                Err(refusal) => return Err(refusal),
            }
        }
        unreachable!()
    }

    /// The processor of an element, or the view of one that isn't there.
    fn find<R: Wait>(&self, rt: &R, elem: Elem) -> Result<u16, Look>
        ensures place { IfOk result (λ place. place < B.processors) }
        ensures seen { IfErr result (WasSeen self.now elem) }
    {
        let hub = self.hub.lock(rt);
        hub.facts();
        absent_look(hub.history(), elem)
    }

    /// The view of an element, if it stands on the processor.
    fn look_at<R: Wait>(&self, rt: &R, elem: Elem, place: u16) -> Result<Option<Look>, Refusal>
        requires { place < B.processors }
        ensures seen { IfOk result (λ o. IfSome o (WasSeen self.now elem)) }
        ensures err { IfErr result (λ refusal. (refusal ≡ refusals.Halted)
            ⊎ (refusal ≡ refusals.Memory)) }
    {
        let mut held = self.shelves.lock(rt, usize::from(place));
        self.look_on(rt, held.grip.get_mut(), elem)
    }

    /// The view of an element, if it stands on the locked shelf.
    fn look_on<R: Wait>(
        &self,
        rt: &R,
        locked: &mut ProcessorState<C, B>,
        elem: Elem,
    ) -> Result<Option<Look>, Refusal>
        ensures number { locked.new.number ≡ locked.old.number }
        ensures seen { IfOk result (λ o. IfSome o (WasSeen self.now elem)) }
        ensures err { IfErr result (λ refusal. (refusal ≡ refusals.Halted)
            ⊎ (refusal ≡ refusals.Memory)) }
    {
        if let Err(refusal) = self.settle(rt, locked) {
            return Err(refusal);
        }
        self.agree(rt, locked);
        match locked.image(elem) {
            Ok(Some(image)) => Ok(Some(standing_look(locked.number(), image))),
            Ok(None) => Ok(None),
            Err(refusal) => Err(refusal),
        }
    }

    /// Takes the hub's lock, to show that the shelf and the world agreed at that moment about the
    /// elements on its processor. Nothing changes.
    fn agree<R: Wait>(&self, rt: &R, locked: &mut ProcessorState<C, B>)
        ensures shows { WasTrue self.now (λ core. ShowsOn locked.old.number locked.old.records
            core.places (present core)) }
        ensures same { locked.new ≡ locked.old }
    {
        let mut hub = self.hub.lock(rt);
        hub.facts();
        hub.agree(locked);
    }
}

/// The processor of an element, or the view of one that isn't there.
fn absent_look(history: &History, elem: Elem) -> Result<u16, Look>
    ensures place { IfOk result (λ place. place < (core_in history.now).processors) }
    ensures look { IfErr result (IsLook (place_of (core_in history.now) elem)
        (record_of (present (core_in history.now)) elem)) }
{
    history.facts();
    if let Some(place) = history.where_is(elem) {
        return Ok(place);
    }
    let counts = history.element(elem);
    Err(Look {
        standing: None,
        sent: counts.sent,
        received: counts.received,
    })
}

/// The view of an element with this image, on this processor.
fn standing_look(processor: u16, image: Image) -> Look
    ensures { result ≡ record {
      standing = Some (record { processor = processor; packed = image.packed });
      sent = image.sent;
      received = image.received;
    } }
{
    let Image {
        elem: _,
        sent,
        received,
        packed,
    } = image;
    Look {
        standing: Some(Standing { processor, packed }),
        sent,
        received,
    }
}

/// The ids of the pending messages of a history, in order of arrival.
fn pending_in(alloc: Global, history: &History) -> Result<Vec<MsgId>, AllocError>
    ensures { IfOk result (λ ids. ids.items
        ≡ map (λ m. m.id) (present (core_in history.now)).pending) }
{
    let mut ids = Vec::with_capacity(alloc, history.pending_count())?;
    for (id, _letter) in history.messages() {
        ids.push(id)?;
    }
    Ok(ids)
}
