//! Views of an engine, and blanks for its stock.

ghost use Rattle.std.specs.Prelude.{◌≡◌, ◌+◌, ◌≤◌, None, length, map, IfErr, IfOk, IfSome, IsOk, OnErr, OnOk};
ghost use Rattle.charmlet_model.specs.declared.kind.Kind as kinds;
ghost use Rattle.charmlet_model.specs.Core.{place_of};
ghost use Rattle.charmlet_model.specs.Shelves.{count_of};
ghost use Rattle.charmlet_model.specs.World.{record_of};
ghost use Rattle.charmlet_history.specs.Kept.{is_quiet, next_in};
ghost use Rattle.charmlet_persist.specs.Snapshot.Showing.{IsImageOf, IsRefusal, IsWithinLimits};
ghost use Rattle.charmlet_stock.specs.ByKind.{with_at};
ghost use Rattle.charmlet_stock.specs.Pile.{with_out};
ghost use Rattle.charmlet_stock.specs.Stock.{blanks_in, census_of, keeping_of, part_of, tally_in};
ghost use Rattle.charmlet_store.specs.Census.{census_in};
ghost use Rattle.charmlet_store.specs.Look.{IsLook};
ghost use Rattle.charmlet_engine.specs.Advances.{Advances};
ghost use Rattle.charmlet_engine.specs.Engine.{core_of, supplied_of, view_of, world_of};

use crate::engine::Engine;
use charmlet_chare::Chare;
use charmlet_disk::Disk;
use charmlet_model::{Elem, Event, Kind, MsgId, Refusal};
use charmlet_persist::image_of;
use charmlet_ready_queue::Ticks;
use charmlet_stock::Stock;
use charmlet_store::{Census, Look};
use std::alloc::AllocError;
use std::sync::ledger::Ledger;

impl<D: Disk, C: Chare> Engine<D, C> {
    /// Takes blank objects into the stock. If memory is refused, it hands all of them back, and
    /// nothing has changed. It makes no call of the disk.
    pub fn supply(&mut self, blanks: Vec<C>) -> Result<(), Vec<C>>
        ensures core { core_of self.new ≡ core_of self.old }
        ensures ok { OnOk result ((kind : kinds.Kind) → (view_of self.new).blanks kind
            ≡ (view_of self.old).blanks kind + count_of C.state blanks.items kind) }
        ensures supplied { OnOk result ((kind : kinds.Kind) → supplied_of self.new kind
            ≡ supplied_of self.old kind + count_of C.state blanks.items kind) }
        ensures err { IfErr result (λ objects. (objects.items ≡ blanks.items)
            × ((view_of self.new).blanks ≡ (view_of self.old).blanks)
            × (supplied_of self.new ≡ supplied_of self.old)) }
        ensures disk { self.new.disk ≡ self.old.disk }
        ensures advances { Advances D.Disk self.old self.new }
    {
        self.store.supply(blanks)
    }

    /// Draws `count` blanks of a kind into the stock from another one, which has to have them. If
    /// memory is refused, both are unchanged. It makes no call of the disk.
    pub fn transfer_from(
        &mut self,
        source: &mut Stock<C>,
        kind: Kind,
        count: usize,
    ) -> Result<(), AllocError>
        requires enough { count ≤ blanks_in source.old kind }
        ensures core { core_of self.new ≡ core_of self.old }
        ensures drawn { OnOk result ((k : kinds.Kind) → (view_of self.new).blanks k
            ≡ (view_of self.old).blanks k + part_of kind count k) }
        ensures left { OnOk result ((k : kinds.Kind) → blanks_in source.old k
            ≡ blanks_in source.new k + part_of kind count k) }
        ensures source { OnOk result (census_of source.new
            ≡ with_at (census_of source.old) kind (with_out (tally_in source.old kind) count)) }
        ensures supplied { OnOk result ((k : kinds.Kind) → supplied_of self.new k
            ≡ supplied_of self.old k + part_of kind count k) }
        ensures err { OnErr result ((view_of self.new ≡ view_of self.old)
            × (supplied_of self.new ≡ supplied_of self.old)
            × (census_of source.new ≡ census_of source.old)) }
        ensures source_keeping { keeping_of source.new ≡ keeping_of source.old }
        ensures disk { self.new.disk ≡ self.old.disk }
        ensures advances { Advances D.Disk self.old self.new }
    {
        self.store.transfer_from(source, kind, count)
    }

    /// The oldest message that can be delivered, together with the processor that is to deliver it:
    /// the place of its receiver, or its home if it isn't there. It is `None` exactly if no message
    /// can be delivered.
    pub fn next(&self) -> Option<(u16, MsgId)>
        ensures { result ≡ next_in (core_of self.now) }
    {
        self.store.next()
    }

    /// Answers as `next`, and counts the looks at pending messages: at most one for each processor.
    pub fn next_in<L: Ledger>(&self, ticks: &mut Ticks<L>) -> Option<(u16, MsgId)>
        ensures next { result ≡ next_in (core_of self.now) }
        ensures ticks { ticks.new ≤ ticks.old + (core_of self.now).processors }
    {
        self.store.next_in(ticks)
    }

    /// Whether no pending message can be delivered. It takes no memory.
    pub fn quiet(&self) -> bool
        ensures { result ≡ is_quiet (core_of self.now) }
    {
        self.store.quiet()
    }

    /// How many messages are pending.
    pub fn pending_count(&self) -> usize
        ensures { result ≡ length (world_of self.now).pending }
    {
        self.store.pending_count()
    }

    /// The ids of the pending messages, in order of arrival. It fails only when out of memory.
    pub fn pending(&self) -> Result<Vec<MsgId>, AllocError>
        ensures { IfOk result (λ ids. ids.items ≡ map (λ m. m.id) (world_of self.now).pending) }
    {
        self.store.pending()
    }

    /// Looks at an element. It fails only when out of memory, which only the packed state of a
    /// present element takes. Nothing changes.
    pub fn look(&mut self, elem: Elem) -> Result<Look, AllocError>
        ensures same { self.new ≡ self.old }
        ensures advances { Advances D.Disk self.old self.new }
        ensures ok { IfOk result (IsLook (place_of (core_of self.old) elem)
            (record_of (world_of self.old) elem)) }
        ensures absent { (record_of (world_of self.old) elem).state ≡ None → IsOk result }
    {
        self.store.look(elem)
    }

    /// How many objects of the kind were supplied, are on the shelves, are in the stock, and were
    /// retired. Each supplied object is on a shelf, in the stock, or retired.
    pub fn census(&self, kind: Kind) -> Census
        ensures counts { result ≡ census_in self.now.store kind }
        ensures adds_up { result.supplied ≡ result.on_shelves + result.in_stock + result.retired }
    {
        self.store.census(kind)
    }

    /// The events since the engine was created or restarted, in order, if [`Engine::note_events`]
    /// was called.
    pub fn events(&self) -> Option<&[Event]>
        ensures { IfSome result (λ events. events.now ≡ (core_of self.now).history) }
    {
        self.store.history.events()
    }

    /// Keeps the events from now on, so that [`Engine::events`] returns them. None may have
    /// happened yet, and no message may be assigned. Without this call no event is kept, since an
    /// engine doesn't need them. It makes no call of the disk, and takes no memory.
    pub fn note_events(&mut self)
        ensures core { core_of self.new ≡ core_of self.old }
        ensures blanks { (view_of self.new).blanks ≡ (view_of self.old).blanks }
        ensures supplied { supplied_of self.new ≡ supplied_of self.old }
        ensures disk { self.new.disk ≡ self.old.disk }
    {
        self.store.history.note_events();
    }

    /// How many events there are, including those before the opening world.
    pub fn event_count(&self) -> u64
        ensures { result ≡ (core_of self.now).before + length (core_of self.now).history }
    {
        self.store.history.event_count()
    }

    /// The bytes that a checkpoint would write after an open gate. They are an image of the present
    /// world, of the next generation and with a count of all events, and a log that has no batch
    /// yet. Nothing changes, and it makes no call of the disk. `Memory` if out of memory;
    /// `ImageFull` if the next generation would be past 2^40, or the file past 2^31 bytes.
    pub fn image(&mut self) -> Result<Vec<u8>, Refusal>
        ensures same { self.new ≡ self.old }
        ensures advances { Advances D.Disk self.old self.new }
        ensures ok { IfOk result (λ bytes. IsImageOf (core_of self.old) bytes.items) }
        ensures within { IfOk result (λ _. IsWithinLimits (core_of self.old)) }
        ensures err { IfErr result (IsRefusal (core_of self.old)) }
    {
        let shelves = self.store.shelves.as_mut_slice();
        image_of(self.store.alloc, &self.store.history, shelves)
    }

    /// The generation of the image in the taken half.
    pub fn generation(&self) -> u64
        ensures { result ≡ (core_of self.now).generation }
    {
        self.store.history.generation()
    }

    /// How many events are durable, including those before the opening world.
    pub fn durable(&self) -> u64
        ensures { result ≡ (core_of self.now).before + (core_of self.now).durable }
    {
        self.store.history.durable_count()
    }

    /// Whether the device failed in an earlier call, so that each step is refused.
    pub fn is_halted(&self) -> bool
        ensures { result ≡ (core_of self.now).halted }
    {
        self.store.history.is_halted()
    }
}
