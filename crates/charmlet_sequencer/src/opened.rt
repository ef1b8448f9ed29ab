//! A sequencer and its shelves, of a new or restored store.

ghost use Rattle.std.specs.Prelude.{◌≡◌, ◌+◌, ◌<◌, ◌≤◌, ◌∷◌, ◌++◌, [], false, Some, length, vec_len};
ghost use Rattle.std.specs.Vec.{vec_capacity};
ghost use Rattle.charmlet_halves.specs.Halves.{disk_of};
ghost use Rattle.charmlet_history.specs.Kept.{core_in};
ghost use Rattle.charmlet_persist.specs.Writes.Rest.{Agrees, IsCurrent, IsKept};
ghost use Rattle.charmlet_migrate.specs.Moving.{IsIdle};
ghost use Rattle.charmlet_stock.specs.ByKind.{for_all};
ghost use Rattle.charmlet_sequencer.specs.Opened.{AreShelvesOf};
ghost use Rattle.charmlet_sequencer.specs.Part.{part_on};
ghost use Rattle.charmlet_sequencer.specs.Sequencer.{IsOf};

use crate::names::RuntimeName;
use crate::part::{GhostPart, write};
use crate::processor_state::ProcessorState;
use crate::sequencer::Sequencer;
use charmlet_chare::Chare;
use charmlet_disk::Disk;
use charmlet_halves::Halves;
use charmlet_locks::{Authority, AuthorityName};
use charmlet_shelf::Shelf;
use charmlet_store::{Store, StoreParts};

/// A sequencer, and the shelf of each processor, before they come under their locks.
#[derive(Drop)]
pub struct Opened<D: Disk, C: Chare, B: RuntimeName> {
    pub sequencer: Sequencer<D, C, B>,
    /// The shelf of each processor. Processors count from 0.
    pub shelves: Vec<ProcessorState<C, B>>,
}

/// Opens a sequencer and its shelves, under its name, of a store in which nothing is assigned, as a
/// restart leaves it. The list has room for the shelves. It takes no memory.
pub fn open_store<D: Disk, C: Chare, B: RuntimeName>(
    store: Store<C>,
    halves: Halves<D>,
    parts: Authority<GhostPart, B>,
    shelves: Vec<ProcessorState<C, B>>,
) -> Opened<D, C, B>
    requires named { IsOf B.opening B.before B.processors (core_in store.history) }
    requires generation { B.generation ≡ (core_in store.history).generation }
    requires unassigned { (core_in store.history).assigned ≡ [] }
    requires dropping { store.keeping ≡ for_all false }
    requires agrees { Agrees (core_in store.history) halves }
    requires kept { D.honest (disk_of halves) → IsKept (core_in store.history) halves }
    requires current { D.honest (disk_of halves) → (core_in store.history).halted ≡ false →
        IsCurrent halves }
    requires parts { parts ≡ [] }
    requires none { vec_len shelves ≡ 0 }
    requires room { B.processors ≤ vec_capacity shelves }
    ensures core { result.sequencer.core ≡ core_in store.history }
    ensures census { result.sequencer.census ≡ store.census }
    ensures disk { result.sequencer.disk ≡ disk_of halves }
    ensures shelves { AreShelvesOf result.sequencer result.shelves.items }
{
    let alloc = store.alloc;
    let StoreParts {
        history,
        shelves: slots,
        stock,
    } = store.into_parts();
    let mut shelves = shelves;
    let mut parts = parts;
    for shelf in slots {
        add_idle(&mut parts, &mut shelves, shelf);
    }
    let sequencer = Sequencer {
        alloc,
        history,
        halves,
        stock,
        parts,
    };
    Opened { sequencer, shelves }
}

/// Adds a shelf on which no delivery is under way, and its part of the authority. There has to be
/// room for the shelf.
#[tactic(auto, using(crate::proofs::Reopened::write_last))]
fn add_idle<C: Chare, B: AuthorityName>(
    parts: &mut Authority<GhostPart, B>,
    shelves: &mut Vec<ProcessorState<C, B>>,
    shelf: Shelf<C>,
)
    requires number { length parts.old ≡ shelf.number }
    requires idle { IsIdle shelf }
    requires room { vec_len shelves.old < vec_capacity shelves.old }
    ensures parts { parts.new ≡ parts.old ++ Some (part_on shelf) ∷ [] }
    ensures shelves { shelves.new.items ≡ shelves.old.items ++ shelf ∷ [] }
    ensures len { vec_len shelves.new ≡ vec_len shelves.old + 1 }
    ensures capacity { vec_capacity shelves.old ≤ vec_capacity shelves.new }
{
    let mut fragment = parts.issue(&GhostPart);
    write(parts, &mut fragment, &shelf);
    shelves.push_reserved(ProcessorState {
        shelf,
        output: None,
        fragment,
    });
}
