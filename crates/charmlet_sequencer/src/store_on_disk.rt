//! The end of a sequencer and its shelves.

ghost use Rattle.std.specs.Prelude.{◌≡◌, [], false, None, Some, length, slice_get, slice_set, vec_len};
ghost use Rattle.std.specs.List.{All};
ghost use Rattle.charmlet_disk.specs.File.{CrashBytes, MayLeave};
ghost use Rattle.charmlet_halves.specs.Halves.{disk_of};
ghost use Rattle.charmlet_history.specs.Kept.{core_in};
ghost use Rattle.charmlet_persist.specs.Writes.Rest.{Agrees};
ghost use Rattle.charmlet_migrate.specs.Moving.{IsIdle};
ghost use Rattle.charmlet_stock.specs.ByKind.{for_all};
ghost use Rattle.charmlet_store.specs.Store.{AreEmpty};
ghost use Rattle.charmlet_sequencer.specs.Part.{part_on};
ghost use Rattle.charmlet_sequencer.specs.Sequencer.{is_lawful};

use crate::names::RuntimeName;
use crate::part::GhostPart;
use crate::processor_state::ProcessorState;
use crate::sequencer::{Sequencer, SequencerParts};
use charmlet_chare::Chare;
use charmlet_disk::Disk;
use charmlet_halves::Halves;
use charmlet_locks::{Authority, AuthorityName};
use charmlet_shelf::Shelf;
use charmlet_store::Store;

/// The parts of a sequencer and its shelves: a store, and the halves of its disk.
#[derive(Drop)]
pub struct StoreOnDisk<D: Disk, C: Chare> {
    pub store: Store<C>,
    pub halves: Halves<D>,
}

impl<D: Disk, C: Chare, B: RuntimeName> Sequencer<D, C, B> {
    /// Takes a sequencer and its shelves apart, even when halted, if no delivery is under way: then
    /// nothing is assigned. It makes no call of the disk, and takes no memory. All shelves are
    /// handed in at once, in any order. The store has each in the place of its processor, for which
    /// an empty shelf is handed in.
    pub fn take_apart(
        self,
        shelves: Vec<ProcessorState<C, B>>,
        empty: Vec<Shelf<C>>,
    ) -> StoreOnDisk<D, C>
        requires count { vec_len shelves ≡ B.processors }
        requires idle { All IsIdle shelves.items }
        requires empty { AreEmpty B.processors empty.items }
        ensures core { core_in result.store.history ≡ self.core }
        ensures unassigned { (core_in result.store.history).assigned ≡ [] }
        ensures census { result.store.census ≡ self.census }
        ensures keeping { result.store.keeping ≡ for_all false }
        ensures disk { disk_of result.halves ≡ self.disk }
        ensures agrees { Agrees (core_in result.store.history) result.halves }
        ensures lawful { D.honest self.disk → (outcome : CrashBytes) →
            MayLeave (D.file (disk_of result.halves)) outcome →
            is_lawful (core_in result.store.history) outcome }
    {
        self.history.facts();
        let SequencerParts {
            alloc,
            history,
            halves,
            stock,
            mut parts,
        } = self.into_parts();
        let mut shelves = shelves;
        let mut slots = empty;
        while let Some(locked) = shelves.pop() {
            take_in(&mut parts, &mut slots, locked);
        }
        let store = Store {
            alloc,
            history,
            shelves: slots,
            stock,
        };
        StoreOnDisk { store, halves }
    }

    /// The sequencer's disk alone, even when halted. The rest is dropped, and with it the events
    /// that aren't durable. It makes no call of the disk, and takes no memory.
    pub fn into_disk(self) -> D
        ensures { result ≡ self.disk }
    {
        let SequencerParts { halves, .. } = self.into_parts();
        halves.into_disk()
    }
}

/// Takes back the fragment of a shelf, and puts the shelf into the place of its processor.
fn take_in<C: Chare, B: AuthorityName>(
    parts: &mut Authority<GhostPart, B>,
    slots: &mut Vec<Shelf<C>>,
    locked: ProcessorState<C, B>,
)
    requires count { vec_len slots.old ≡ length parts.old }
    ensures agrees { slice_get parts.old locked.number ≡ Some (Some (part_on locked)) }
    ensures parts { parts.new ≡ slice_set parts.old locked.number None }
    ensures slots { slots.new.items ≡ slice_set slots.old.items locked.number locked }
{
    let (shelf, fragment) = locked.into_parts();
    let place = usize::from(shelf.number());
    parts.take_back(fragment);
    slots[place] = shelf;
}
