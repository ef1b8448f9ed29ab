//! Blanks for a restart.

ghost use Rattle.charmlet_replay.specs.Unused.{IsUnused};

use crate::disk::ProbeDisk;
use crate::objects::{Object, Tally, blanks};
use charmlet_engine::{Wanted, manifest, stock_from_objects};
use charmlet_model::{Kind, Refusal};
use charmlet_stock::Stock;
use std::alloc::{AllocError, Global};
use std::marker::Model;
use std::sync::Arc;

/// Blanks for a restart, all unused.
pub struct Blanks {
    stock: Stock<Object>,
}

impl Model for Blanks {
    ghost use Rattle.charmlet_replay.specs.Unused.{IsUnused};

    ghost Value = { Unit {0} };

    ghost view = { λ _. tt };

    ghost invariant = { λ blanks. IsUnused blanks.stock };
}

// Written by hand, so that dropping a stock is proved here, and not in each crate that drops
// blanks.
impl Drop for Blanks {
    fn drop(self) {
        let Blanks { stock } = self;
        drop(stock);
    }
}

impl Blanks {
    /// Blanks of these objects. When out of memory it hands all of them back.
    pub fn of(alloc: Global, objects: Vec<Object>) -> Result<Blanks, Vec<Object>> {
        match stock_from_objects(alloc, objects) {
            Ok(stock) => Ok(Blanks { stock }),
            Err(objects) => Err(objects),
        }
    }

    /// The blanks in this stock.
    pub(crate) fn of_stock(stock: Stock<Object>) -> Blanks
        requires { IsUnused stock }
    {
        Blanks { stock }
    }

    /// The stock of the blanks.
    pub(crate) fn into_stock(self) -> Stock<Object>
        ensures { IsUnused result }
    {
        let Blanks { stock } = self;
        stock
    }

    /// How many blanks there are, of all kinds.
    pub fn count(&self) -> u64 {
        let mut count = 0u64;
        for kind in &Kind::ALL {
            count = count.saturating_add(count_in(&self.stock, *kind));
        }
        count
    }

    /// Appends the objects to others. It fails only when out of memory, and then objects without
    /// room are dropped.
    pub fn append_to(self, objects: &mut Vec<Object>) -> Result<(), AllocError> {
        let mut stock = self.into_stock();
        empty_into(&mut stock, objects)
    }
}

/// How many blanks of a kind are in a stock.
pub(crate) fn count_in(stock: &Stock<Object>, kind: Kind) -> u64 {
    let census = stock.census();
    let tally = census.get(kind);
    tally.in_stock
}

/// Takes the blanks out of a stock, and appends them to other objects.
fn empty_into(stock: &mut Stock<Object>, objects: &mut Vec<Object>) -> Result<(), AllocError> {
    for kind in &Kind::ALL {
        for _ in 0..count_in(stock, *kind) {
            if let Some(object) = stock.take(*kind) {
                objects.push(object)?;
            }
        }
    }
    Ok(())
}

/// How many blanks of each kind are wanted.
fn by_kind(wanted: &Wanted) -> [(Kind, u64); 6] {
    [
        (Kind::Counter, wanted.counters),
        (Kind::Ring, wanted.rings),
        (Kind::Account, wanted.accounts),
        (Kind::Sum, wanted.sums),
        (Kind::Tree, wanted.trees),
        (Kind::Tape, wanted.tapes),
    ]
}

/// The objects that a restart from a disk wants as blanks, or none if no store is found there. It
/// looks for the store by calls that aren't counted and don't fail. It fails only when out of
/// memory.
pub fn wanted_objects(
    alloc: Global,
    tally: &Arc<Tally>,
    disk: &mut ProbeDisk,
) -> Result<Vec<Object>, AllocError> {
    match manifest(alloc, disk.inner()) {
        Ok(found) => blanks(alloc, tally, &by_kind(&found.wanted)),
        Err(Refusal::Memory) => Err(AllocError),
        Err(_) => Ok(Vec::new(alloc)),
    }
}
