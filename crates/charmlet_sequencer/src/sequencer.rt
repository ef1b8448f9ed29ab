//! The sequencer, which orders the steps of all processors.

ghost use Rattle.std.specs.Prelude.{◌≡◌, ◌≢◌, ◌+◌, ◌≤◌, List, Option, false, true, IfErr, IsOk, OnErr, OnOk, length};
ghost use Rattle.charmlet_model.specs.declared.kind.Kind as kinds;
ghost use Rattle.charmlet_model.specs.declared.refusal.Refusal.TheVariants as refusals;
ghost use Rattle.charmlet_model.specs.Core as core;
ghost use Rattle.charmlet_model.specs.Core.{Done};
ghost use Rattle.charmlet_model.specs.Run.{Goes};
ghost use Rattle.charmlet_model.specs.Shelves.{count_of};
ghost use Rattle.charmlet_model.specs.Sound.{IsSound};
ghost use Rattle.charmlet_disk.specs.Calls.{AfterCall};
ghost use Rattle.charmlet_disk.specs.Disk.{LeavesOnly};
ghost use Rattle.charmlet_disk.specs.File.{CrashBytes, MayLeave};
ghost use Rattle.charmlet_halves.specs.Answers.{is_no_failure};
ghost use Rattle.charmlet_history.specs.Kept.{core_in, counts_or_refused, oldest_on_in};
ghost use Rattle.charmlet_persist.specs.Writes.Rest.{HasOldOrSealed};
ghost use Rattle.charmlet_shelf.specs.Shelf.{is_assigned, settled};
ghost use Rattle.charmlet_stock.specs.ByKind.{at};
ghost use Rattle.charmlet_shelf.specs.declared.phase.Phase.TheVariants as phases;
ghost use Rattle.charmlet_delivery.specs.UnderWay.{due_in};
ghost use Rattle.charmlet_delivery.specs.Workplace.{done_or_refused};
ghost use Rattle.charmlet_sequencer.specs.Authority.{IsAuthorityIn, IsDueOn};
ghost use Rattle.charmlet_sequencer.specs.Part.{Part};
ghost use Rattle.charmlet_sequencer.specs.Sequencer.{IsOf, KeepsObjects, is_lawful, store_of, supplied_of};
ghost use Rattle.charmlet_sequencer.specs.Shelf.{is_done};
ghost use Rattle.charmlet_sequencer.specs.Together.{AreTied, shown_by};

use crate::names::RuntimeName;
use crate::part::{GhostPart, write};
use crate::processor_state::ProcessorState;
use charmlet_chare::Chare;
use charmlet_delivery::{assign, commit, finish, release};
use charmlet_disk::Disk;
use charmlet_halves::Halves;
use charmlet_history::History;
use charmlet_locks::Authority;
use charmlet_model::{MsgId, Refusal};
use charmlet_persist::flush;
use charmlet_ready_queue::Ticks;
use charmlet_stock::{ByKind, Stock, Tally};
use std::alloc::Global;
use std::marker::Model;
use std::sync::ledger::Ledger;

/// The order of all steps: a history, the halves of a disk, the stock, and the authority of the
/// shelves. A contract sees the core, the census and the disk.
///
/// Each call is one step of the core, or leaves it unchanged. The history is legal. For each kind,
/// all supplied objects are on the shelves, in the stock, or retired. A shelf that is lent to a
/// call shows the world after the history, and the delivery under way there is the one that is
/// assigned to its processor. On an honest disk a crash leaves the world after some of the history,
/// including all durable events.
pub struct Sequencer<D: Disk, C: Chare, B: RuntimeName> {
    pub(crate) alloc: Global,
    pub(crate) history: History,
    pub(crate) halves: Halves<D>,
    pub(crate) stock: Stock<C>,
    /// The elements on each processor's shelf, and the delivery that is assigned there.
    pub(crate) parts: Authority<GhostPart, B>,
}

impl<D: Disk, C: Chare, B: RuntimeName> Model for Sequencer<D, C, B> {
    ghost use Rattle.charmlet_history.specs.Kept.{core_in};
    ghost use Rattle.charmlet_sequencer.specs.Sequencer.{HasOpened, SequencerShown};
    ghost use Rattle.charmlet_sequencer.specs.Together.{AreTied, shown_by};

    ghost Value = { SequencerShown D };

    ghost view = { λ h. shown_by h.history h.stock h.halves };

    ghost invariant = { λ h. HasOpened B.opening B.before B.processors B.generation
        (core_in h.history) × AreTied h.history h.stock h.parts h.halves };
}

/// The parts of a sequencer.
#[derive(Drop)]
pub(crate) struct SequencerParts<D: Disk, C: Chare, B: RuntimeName> {
    pub(crate) alloc: Global,
    pub(crate) history: History,
    pub(crate) halves: Halves<D>,
    pub(crate) stock: Stock<C>,
    pub(crate) parts: Authority<GhostPart, B>,
}

// Written by hand, so that dropping all its fields is proved here, and not in each function that
// drops a sequencer.
impl<D: Disk, C: Chare, B: RuntimeName> Drop for Sequencer<D, C, B> {
    fn drop(self) {
        let Sequencer {
            alloc: _,
            history,
            halves,
            stock,
            parts,
        } = self;
        drop(history);
        drop(halves);
        drop(stock);
        drop(parts);
    }
}

impl<D: Disk, C: Chare, B: RuntimeName> Sequencer<D, C, B> {
    /// The parts of the sequencer, which is given up for them.
    pub(crate) fn into_parts(self) -> SequencerParts<D, C, B>
        ensures shown { shown_by result.history result.stock result.halves ≡ self }
        ensures of { IsOf B.opening B.before B.processors (core_in result.history) }
        ensures tied { AreTied result.history result.stock result.parts result.halves }
    {
        let Sequencer {
            alloc,
            history,
            halves,
            stock,
            parts,
        } = self;
        SequencerParts {
            alloc,
            history,
            halves,
            stock,
            parts,
        }
    }

    /// States the facts that hold of every sequencer. Its store is the one that it is named for, at
    /// no earlier generation; the history was made by events, each in its turn. For each shelf, it
    /// has the records of the world after that history and the delivery that is assigned there. For
    /// each kind all supplied objects are on the shelves, in the stock, or retired. On an honest
    /// disk a crash now leaves the world after some of the history, including all durable events,
    /// and exactly the world after the durable events unless the store is halted. Its core says
    /// that no checkpoint runs: a running one is not the sequencer's.
    pub fn facts(&self)
        ensures of { IsOf B.opening B.before B.processors self.now.core }
        ensures later { B.generation ≤ self.now.core.generation }
        ensures sound { IsSound self.now.core }
        ensures authority { (parts : List (Option Part))
            × IsAuthorityIn self.now.core self.now.census parts }
        ensures lawful { D.honest self.now.disk → (outcome : CrashBytes) →
            MayLeave (D.file self.now.disk) outcome → is_lawful self.now.core outcome }
        ensures stored { D.honest self.now.disk → self.now.core.halted ≡ false →
            (outcome : CrashBytes) → MayLeave (D.file self.now.disk) outcome →
            HasOldOrSealed self.now.core outcome }
        ensures idle { self.now.core.busy ≡ false }
    {
        self.history.facts();
        let _ = &self.halves;
    }

    /// The history, for reading.
    pub fn history(&self) -> &History
        ensures { core_in result.now ≡ self.now.core }
    {
        &self.history
    }

    /// How many objects of each kind were supplied, are in the stock, and were retired.
    pub fn census(&self) -> ByKind<Tally>
        ensures { result ≡ self.now.census }
    {
        self.stock.census()
    }

    /// The oldest pending message on the processor that can be delivered, if there is one. A
    /// message is on its receiver's processor, or on the receiver's home if it isn't there. It
    /// takes at most one look.
    pub fn oldest_on<L: Ledger>(&self, processor: u16, ticks: &mut Ticks<L>) -> Option<MsgId>
        ensures oldest { result ≡ oldest_on_in self.now.core processor }
        ensures ticks { ticks.new ≤ ticks.old + 1 }
    {
        self.history.oldest_on(processor, ticks)
    }

    /// Takes blank objects into the stock. If memory is refused, it hands all of them back, and
    /// nothing has changed.
    pub fn supply(&mut self, blanks: Vec<C>) -> Result<(), Vec<C>>
        ensures core { self.new.core ≡ self.old.core }
        ensures blanks { OnOk result ((kind : kinds.Kind) → (store_of self.new).blanks kind
            ≡ (store_of self.old).blanks kind + count_of C.state blanks.items kind) }
        ensures supplied { OnOk result ((kind : kinds.Kind) → supplied_of self.new kind
            ≡ supplied_of self.old kind + count_of C.state blanks.items kind) }
        ensures retired { OnOk result ((kind : kinds.Kind) → (at self.new.census kind).retired
            ≡ (at self.old.census kind).retired) }
        ensures disk { self.new.disk ≡ self.old.disk }
        ensures err { IfErr result (λ back. (back.items ≡ blanks.items)
            × (self.new ≡ self.old)) }
    {
        self.history.facts();
        self.stock.supply(blanks)
    }

    /// Assigns a pending message to the shelf's processor. A message that constructs its receiver
    /// takes a blank from the stock. It makes room for the delivery, whatever is delivered
    /// elsewhere before it.
    ///
    /// The refusal is the first that applies of `Halted`, `BadPes`, `Uncommitted`, `NoMessage`,
    /// `Absent`, `Elsewhere`, `HistoryFull`, `NoBlank` and `Memory`. Then nothing changes.
    pub fn assign(&mut self, locked: &mut ProcessorState<C, B>, id: MsgId) -> Result<(), Refusal>
        ensures goes { Goes (store_of self.old) (core.Assign locked.old.number id)
            (done_or_refused result) (store_of self.new) }
        ensures ok { OnOk result (is_assigned locked.new.phase ≡ true) }
        ensures due { IsDueOn self.new.core locked.old.number (due_in locked.new.phase) }
        ensures shelf { locked.new ≡ record locked.old { phase = locked.new.phase } }
        ensures objects { KeepsObjects self.old self.new locked.old locked.new }
        ensures disk { self.new.disk ≡ self.old.disk }
        ensures err { OnErr result ((self.new ≡ self.old) × (locked.new ≡ locked.old)) }
    {
        self.history.facts();
        self.parts.agree(&mut locked.fragment);
        let assigned = assign(
            self.alloc,
            &mut self.history,
            &mut locked.shelf,
            &mut self.stock,
            id,
        );
        self.history.facts();
        write(&mut self.parts, &mut locked.fragment, &locked.shelf);
        assigned
    }

    /// Adds the receiver's delivery on the shelf to the history. An object that it destroyed is
    /// retired. It takes no memory. The only refusal is `Halted`: then nothing changes, and the
    /// delivery can still be [finished](Self::finish).
    pub fn commit(&mut self, locked: &mut ProcessorState<C, B>) -> Result<(), Refusal>
        requires { is_done locked.old.phase ≡ true }
        ensures goes { Goes (store_of self.old) (core.Commit locked.old.number)
            (done_or_refused result) (store_of self.new) }
        ensures ok { OnOk result (locked.new ≡ settled locked.old) }
        ensures objects { KeepsObjects self.old self.new locked.old locked.new }
        ensures disk { self.new.disk ≡ self.old.disk }
        ensures err { IfErr result (λ refusal. refusal ≡ refusals.Halted) }
        ensures same { OnErr result ((self.new ≡ self.old) × (locked.new ≡ locked.old)) }
        ensures runs { self.old.core.halted ≡ false → IsOk result }
    {
        self.history.facts();
        self.parts.agree(&mut locked.fragment);
        let Some(output) = locked.output.take() else {
            unreachable!()
        };
        let committed = commit(
            &mut self.history,
            &mut locked.shelf,
            &mut self.stock,
            output,
        );
        self.history.facts();
        write(&mut self.parts, &mut locked.fragment, &locked.shelf);
        if let Err(refused) = committed {
            locked.output = Some(refused.output);
            return Err(refused.refusal);
        }
        Ok(())
    }

    /// Adds the delivery as [`commit`](Self::commit) does, even if the store is halted. So an
    /// object that has reacted already can be counted, and the store can be taken apart. It takes
    /// no memory.
    pub fn finish(&mut self, locked: &mut ProcessorState<C, B>)
        requires { is_done locked.old.phase ≡ true }
        ensures goes { Goes (store_of self.old) (core.Finish locked.old.number) Done
            (store_of self.new) }
        ensures shelf { locked.new ≡ settled locked.old }
        ensures objects { KeepsObjects self.old self.new locked.old locked.new }
        ensures disk { self.new.disk ≡ self.old.disk }
    {
        self.history.facts();
        self.parts.agree(&mut locked.fragment);
        let Some(output) = locked.output.take() else {
            unreachable!()
        };
        finish(
            &mut self.history,
            &mut locked.shelf,
            &mut self.stock,
            output,
        );
        self.history.facts();
        write(&mut self.parts, &mut locked.fragment, &locked.shelf);
    }

    /// Releases the assigned message: it is pending again, and the blank of a construction is back
    /// in the stock. It takes no memory.
    pub fn release(&mut self, locked: &mut ProcessorState<C, B>)
        requires { is_assigned locked.old.phase ≡ true }
        ensures goes { Goes (store_of self.old) (core.Release locked.old.number) Done
            (store_of self.new) }
        ensures shelf { locked.new ≡ record locked.old { phase = phases.Idle } }
        ensures objects { KeepsObjects self.old self.new locked.old locked.new }
        ensures disk { self.new.disk ≡ self.old.disk }
    {
        self.history.facts();
        self.parts.agree(&mut locked.fragment);
        release(&mut self.history, &mut locked.shelf, &mut self.stock);
        self.history.facts();
        write(&mut self.parts, &mut locked.fragment, &locked.shelf);
    }

    /// Makes all events durable, and answers how many there are, including those before the opening
    /// world. It takes no memory; with no events to write it makes no call of the disk.
    ///
    /// `Halted`; `LogFull` if the file would have more than 2^31 bytes, including the closed gate
    /// after its log: then nothing changes. `Device` halts the store. On an honest disk a crash at
    /// any moment of the call leaves the world after some of the history, including all events that
    /// were durable before.
    pub fn flush(&mut self) -> Result<u64, Refusal>
        ensures goes { Goes (store_of self.old) core.Flush (counts_or_refused result)
            (store_of self.new) }
        ensures any_moment { D.honest self.old.disk → LeavesOnly D.moment D.since self.old.disk
            self.new.disk (is_lawful self.old.core) }
        ensures disk { AfterCall D.Disk self.old.disk self.new.disk (is_no_failure result) }
        ensures idle { self.old.core.durable ≡ length self.old.core.history →
            self.new.disk ≡ self.old.disk }
        ensures census { self.new.census ≡ self.old.census }
        ensures memory { IfErr result (λ refusal. refusal ≢ refusals.Memory) }
        ensures err { IfErr result (λ refusal. refusal ≢ refusals.Device →
            self.new ≡ self.old) }
    {
        self.history.facts();
        let flushed = flush(&mut self.history, &mut self.halves);
        self.history.facts();
        flushed
    }
}
