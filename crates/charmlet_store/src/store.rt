//! A store in memory, on 1 to 64 processors.

ghost use Rattle.std.specs.Prelude.{◌≡◌, ◌+◌, ◌≤◌, [], ℕ, IsOk, true, false, if◌then◌else◌, IfErr, IfOk, OnErr, OnOk};
ghost use Rattle.charmlet_model.specs.declared.kind.Kind as kinds;
ghost use Rattle.charmlet_model.specs.declared.refusal.Refusal.TheVariants as refusals;
ghost use Rattle.charmlet_model.specs.Fit.{IsFit};
ghost use Rattle.charmlet_model.specs.Core as core;
ghost use Rattle.charmlet_model.specs.Run.{Goes};
ghost use Rattle.charmlet_model.specs.Shelves.{ShowsAll, count_of, records_of};
ghost use Rattle.charmlet_model.specs.Sound.{new_world, opened};
ghost use Rattle.charmlet_locate.specs.Locations.{is_processor_count};
ghost use Rattle.charmlet_history.specs.Kept.{core_in, is_quiet, next_in, told_or_refused};
ghost use Rattle.charmlet_migrate.specs.Workplace.{done_or_refused};
ghost use Rattle.charmlet_stock.specs.ByKind.{for_all, with_at};
ghost use Rattle.charmlet_stock.specs.Pile.{with_out};
ghost use Rattle.charmlet_stock.specs.Stock.{blanks_in, census_of, keeping_of, part_of, tally_in};
ghost use Rattle.charmlet_store.specs.Dismantled.{IsCountedIn};
ghost use Rattle.charmlet_migrate.specs.StoreParts.{FitTogether};
ghost use Rattle.charmlet_store.specs.Together.{shown_by};
ghost use Rattle.charmlet_store.specs.Store.{AreEmpty, IsNew, store_in, supplied_in, world_in};
ghost use Rattle.charmlet_migrate.specs.UnderWay.{Ends};

use crate::dismantled::{Dismantled, lift_all};
use charmlet_chare::Chare;
use charmlet_history::{History, Request};
use charmlet_migrate::{deliver_on, move_among};
use charmlet_model::{Elem, Kind, MsgId, Refusal, Told};
use charmlet_ready_queue::Ticks;
use charmlet_shelf::Shelf;
use charmlet_stock::Stock;
use std::alloc::{AllocError, Global};
use std::marker::Model;
use std::sync::ledger::Ledger;

/// A history, a shelf for each processor with its objects, and a stock of blank ones. A store knows
/// no disk: the code that writes the history to a disk proves that the parts still fit together. A
/// contract sees the history's contents, the census of the objects, and which retired ones are
/// kept.
pub struct Store<C: Chare> {
    pub alloc: Global,
    pub history: History,
    /// The shelf of each processor. Processors count from 0.
    pub shelves: Vec<Shelf<C>>,
    pub stock: Stock<C>,
}

impl<C: Chare> Model for Store<C> {
    ghost use Rattle.charmlet_store.specs.Store.{StoreShown};
    ghost use Rattle.charmlet_migrate.specs.StoreParts.{FitTogether};
    ghost use Rattle.charmlet_store.specs.Together.{shown_by};

    ghost Value = { StoreShown };

    ghost view = { λ s. shown_by s.history s.stock };

    ghost invariant = { λ s. FitTogether s.history s.shelves.items s.stock };
}

/// The parts of a store.
#[derive(Drop)]
pub struct StoreParts<C: Chare> {
    pub history: History,
    /// The shelf of each processor. Processors count from 0.
    pub shelves: Vec<Shelf<C>>,
    pub stock: Stock<C>,
}

// Written by hand, so that dropping all its fields is proved here, and not in each crate that drops
// a store.
impl<C: Chare> Drop for Store<C> {
    fn drop(self) {
        let Store {
            alloc: _,
            history,
            shelves,
            stock,
        } = self;
        drop(history);
        drop(shelves);
        drop(stock);
    }
}

impl<C: Chare> Store<C> {
    /// A store of a history in which nothing has happened, with an empty shelf for each processor.
    /// Its stock is empty. It takes no memory.
    pub fn new(alloc: Global, history: History, shelves: Vec<Shelf<C>>) -> Self
        requires new { IsNew (core_in history) }
        requires empty { AreEmpty (core_in history).processors shelves.items }
        ensures core { core_in result.history ≡ core_in history }
        ensures blanks { (kind : kinds.Kind) → (store_in result).blanks kind ≡ 0 }
        ensures supplied { (kind : kinds.Kind) → supplied_in result kind ≡ 0 }
        ensures keeping { result.keeping ≡ for_all false }
    {
        Store {
            alloc,
            history,
            shelves,
            stock: Stock::new(alloc),
        }
    }

    /// The parts of the store, which is given up for them.
    pub fn into_parts(self) -> StoreParts<C>
        ensures shown { shown_by result.history result.stock ≡ self }
        ensures fit { FitTogether result.history result.shelves.items result.stock }
    {
        let Store {
            alloc: _,
            history,
            shelves,
            stock,
        } = self;
        StoreParts {
            history,
            shelves,
            stock,
        }
    }

    /// Takes blank objects into the stock. If memory is refused, it hands all of them back, and
    /// nothing has changed.
    pub fn supply(&mut self, blanks: Vec<C>) -> Result<(), Vec<C>>
        ensures core { (store_in self.new).core ≡ (store_in self.old).core }
        ensures ok { OnOk result ((kind : kinds.Kind) →
            (store_in self.new).blanks kind
            ≡ (store_in self.old).blanks kind + count_of C.state blanks.items kind) }
        ensures supplied { OnOk result ((kind : kinds.Kind) →
            supplied_in self.new kind ≡ supplied_in self.old kind + count_of C.state blanks.items
            kind) }
        ensures err { IfErr result (λ objects. (objects.items ≡ blanks.items)
            × ((store_in self.new).blanks ≡ (store_in self.old).blanks)
            × (supplied_in self.new ≡ supplied_in self.old)) }
        ensures keeping { self.new.keeping ≡ self.old.keeping }
    {
        self.stock.supply(blanks)
    }

    /// Draws `count` blanks of a kind into the stock from another one, which has to have them. If
    /// memory is refused, both are unchanged.
    pub fn transfer_from(
        &mut self,
        source: &mut Stock<C>,
        kind: Kind,
        count: usize,
    ) -> Result<(), AllocError>
        requires enough { count ≤ blanks_in source.old kind }
        ensures core { (store_in self.new).core ≡ (store_in self.old).core }
        ensures drawn { OnOk result ((k : kinds.Kind) →
            (store_in self.new).blanks k ≡ (store_in self.old).blanks k + part_of kind count k) }
        ensures left { OnOk result ((k : kinds.Kind) →
            blanks_in source.old k ≡ blanks_in source.new k + part_of kind count k) }
        ensures source { OnOk result (census_of source.new
            ≡ with_at (census_of source.old) kind (with_out (tally_in source.old kind) count)) }
        ensures supplied { OnOk result ((k : kinds.Kind) →
            supplied_in self.new k ≡ supplied_in self.old k + part_of kind count k) }
        ensures err { OnErr result ((store_in self.new ≡ store_in self.old)
            × (supplied_in self.new ≡ supplied_in self.old)
            × (census_of source.new ≡ census_of source.old)) }
        ensures keeping { self.new.keeping ≡ self.old.keeping }
        ensures source_keeping { keeping_of source.new ≡ keeping_of source.old }
    {
        self.stock.transfer_from(source, kind, count)
    }

    /// Drops the retired objects that the stock kept, and makes it drop each later one at once. It
    /// takes no memory.
    pub fn drop_retired(&mut self)
        ensures same { store_in self.new ≡ store_in self.old }
        ensures supplied { supplied_in self.new ≡ supplied_in self.old }
        ensures dropping { self.new.keeping ≡ for_all false }
    {
        self.stock.drop_retired();
    }

    /// The oldest message that can be delivered, together with the processor that is to deliver it:
    /// the place of its receiver, or its home if it isn't there.
    pub fn next(&self) -> Option<(u16, MsgId)>
        ensures { result ≡ next_in (core_in self.now.history) }
    {
        self.history.next()
    }

    /// Answers as `next`, and counts the looks: at most one for each processor.
    pub fn next_in<L: Ledger>(&self, ticks: &mut Ticks<L>) -> Option<(u16, MsgId)>
        ensures next { result ≡ next_in (core_in self.now.history) }
        ensures ticks { ticks.new ≤ ticks.old + (core_in self.now.history).processors }
    {
        self.history.next_in(ticks)
    }

    /// Whether no pending message can be delivered. It takes no memory.
    pub fn quiet(&self) -> bool
        ensures { result ≡ is_quiet (core_in self.now.history) }
    {
        self.history.quiet()
    }

    /// Accepts a client's request, and tells the client what is durable of it. A repeat of a
    /// request in its window changes nothing. If refused, nothing changes.
    pub fn request(&mut self, client: u32, request: &Request<'_>) -> Result<Told, Refusal>
        ensures goes { Goes (store_in self.old) (core.Request client request.now.number
            request.now.to request.now.entry request.now.words.now) (told_or_refused result)
            (store_in self.new) }
        ensures supplied { supplied_in self.new ≡ supplied_in self.old }
        ensures keeping { self.new.keeping ≡ self.old.keeping }
    {
        self.history.request(client, request)
    }

    /// Tells a client what is durable of one of its requests. Nothing changes.
    pub fn status(&self, client: u32, number: u64) -> Result<Told, Refusal>
        ensures { Goes (store_in self.now) (core.Status client number) (told_or_refused result)
            (store_in self.now) }
    {
        self.history.status(client, number)
    }

    /// Delivers a pending message on a processor. If refused, nothing changes.
    pub fn deliver(&mut self, processor: u16, id: MsgId) -> Result<(), Refusal>
        ensures ends { Ends (store_in self.old) processor id result (store_in self.new) }
        ensures supplied { supplied_in self.new ≡ supplied_in self.old }
        ensures keeping { self.new.keeping ≡ self.old.keeping }
    {
        if self.history.is_halted() {
            return Err(Refusal::Halted);
        }
        let Some(shelf) = self.shelves.get_mut(usize::from(processor)) else {
            return Err(Refusal::BadPes);
        };
        let delivered = deliver_on(self.alloc, &mut self.history, shelf, &mut self.stock, id);
        self.history.facts();
        delivered
    }

    /// Moves an element to a processor. If refused, nothing changes.
    pub fn relocate(&mut self, elem: Elem, processor: u16) -> Result<(), Refusal>
        ensures goes { Goes (store_in self.old) (core.Move elem processor) (done_or_refused result)
            (store_in self.new) }
        ensures supplied { supplied_in self.new ≡ supplied_in self.old }
        ensures keeping { self.new.keeping ≡ self.old.keeping }
    {
        self.history.facts();
        match self.history.where_is(elem) {
            Some(place) if place != processor && usize::from(processor) < self.shelves.len() => {
                move_among(
                    &mut self.history,
                    self.shelves.as_mut_slice(),
                    &mut self.stock,
                    elem,
                    place,
                    processor,
                )
            }
            // The element is there already, or it can't go there.
            _ => {
                self.history.test_move(elem, processor)?;
                Ok(())
            }
        }
    }

    /// Takes the store apart, even a halted one. Each supplied object is then among the residents,
    /// in the stock, or retired. It fails only when out of memory, which the lists of places and of
    /// residents take, and only if an element is there; then the store comes back unchanged.
    pub fn dismantle(self) -> Result<Dismantled<C>, Store<C>>
        ensures shows { IfOk result (λ parts.
            ShowsAll (records_of C.state parts.residents.items) (world_in self)) }
        ensures stock { IfOk result (λ parts. (census_of parts.stock ≡ self.census)
            × (keeping_of parts.stock ≡ self.keeping)) }
        ensures counted { IfOk result (IsCountedIn C.state) }
        ensures nothing { (core_in self.history).places ≡ [] → IsOk result }
        ensures err { IfErr result (λ back. back ≡ self) }
    {
        self.history.facts();
        let Ok(places) = self.history.places() else {
            return Err(self);
        };
        let Ok(mut residents) = Vec::with_capacity(self.alloc, places.len()) else {
            return Err(self);
        };
        let Store {
            alloc: _,
            history,
            mut shelves,
            stock,
        } = self;
        lift_all(&mut residents, &history, &places, shelves.as_mut_slice());
        Ok(Dismantled { residents, stock })
    }
}

/// Empty shelves for this many processors. It fails only when out of memory.
pub fn empty_shelves<C: Chare>(alloc: Global, processors: u16) -> Result<Vec<Shelf<C>>, AllocError>
    ensures { IfOk result (λ shelves. AreEmpty processors shelves.items) }
{
    let mut shelves = Vec::with_capacity(alloc, usize::from(processors))?;
    for processor in 0..processors {
        shelves.push(Shelf::new(alloc, processor))?;
    }
    Ok(shelves)
}
