//! The blanks of one kind, and its retired objects if they are kept.

ghost use Rattle.std.specs.Prelude.{◌+◌, ◌≤◌};
ghost use Rattle.std.specs.Vec.{vec_capacity, vec_len};
ghost use Rattle.charmlet_stock.specs.Retired.{dropped_of, kept_of};
ghost use Rattle.charmlet_stock.specs.Sorted.{AreOf};

use charmlet_chare::Chare;
use charmlet_model::Kind;
use std::alloc::{AllocError, Global};

/// The objects of one kind: how many were supplied, are in the stock, and were retired. The others
/// are out.
#[derive(Clone, Copy, Debug, PartialEq, Eq)]
pub struct Tally {
    pub supplied: u64,
    pub in_stock: u64,
    pub retired: u64,
}

/// The blanks of one kind, with room for all objects that are out. If retired objects are kept,
/// they are here too: all objects here are of one kind, so it doesn't matter which of them are the
/// blanks.
#[derive(Drop)]
pub(crate) struct Pile<C: Chare> {
    pub(crate) kind: Kind,
    pub(crate) objects: Vec<C>,
    pub(crate) keeps: bool,
    pub(crate) supplied: u64,
    pub(crate) retired: u64,
    ghost sorted: { AreOf C.state kind objects.items },
    ghost kept: { kept_of keeps retired ≤ vec_len objects },
    ghost counted: { vec_len objects + dropped_of keeps retired ≤ supplied },
    ghost room: { supplied ≤ vec_capacity objects + dropped_of keeps retired },
}

impl<C: Chare> Pile<C> {
    ghost use Rattle.std.specs.Prelude.{ℕ, ◌≡◌, ◌+◌, ◌<◌, ◌≤◌, true, false, OnOk, IfSome, IsSome, None};
    ghost use Rattle.charmlet_model.specs.Reaction.{kind_of};
    ghost use Rattle.charmlet_stock.specs.Pile.{HasRoomFor, IsOut, nothing, supplied_more, tally_of, with_one_back, with_one_retired, with_out, with_retired_back};
    ghost use Rattle.charmlet_stock.specs.Retired.{dropped_of, kept_of};

    /// An empty pile of this kind, which drops retired objects. It takes no memory.
    pub(crate) fn new(alloc: Global, kind: Kind) -> Self
        ensures kind { result.kind ≡ kind }
        ensures keeps { result.keeps ≡ false }
        ensures tally { tally_of result ≡ nothing }
    {
        Pile {
            kind,
            objects: Vec::new(alloc),
            keeps: false,
            supplied: 0,
            retired: 0,
        }
    }

    /// How many of the objects here are retired.
    fn kept(&self) -> usize
        ensures { result ≡ kept_of self.now.keeps self.now.retired }
    {
        if self.keeps { self.retired as usize } else { 0 }
    }

    /// How many retired objects were dropped.
    fn dropped(&self) -> u64
        ensures { result ≡ dropped_of self.now.keeps self.now.retired }
    {
        if self.keeps { 0 } else { self.retired }
    }

    /// How many objects were supplied, are here as blanks, and were retired.
    pub(crate) fn tally(&self) -> Tally
        ensures { result ≡ tally_of self.now }
    {
        Tally {
            supplied: self.supplied,
            in_stock: (self.objects.len() - self.kept()) as u64,
            retired: self.retired,
        }
    }

    /// Makes room for `count` more objects. It fails when out of memory, or if more than 2^64-1
    /// objects would have been supplied; then nothing has changed.
    pub(crate) fn reserve(&mut self, count: usize) -> Result<(), AllocError>
        ensures ok { OnOk result (HasRoomFor self.new count) }
        ensures kind { self.new.kind ≡ self.old.kind }
        ensures keeps { self.new.keeps ≡ self.old.keeps }
        ensures tally { tally_of self.new ≡ tally_of self.old }
    {
        let Some(supplied) = self.supplied.checked_add(count as u64) else {
            return Err(AllocError);
        };
        let wanted = supplied - self.dropped();
        self.objects.reserve(wanted as usize - self.objects.len())?;
        Ok(())
    }

    /// Adds a supplied object, in the room that was made.
    pub(crate) fn add(&mut self, object: C)
        requires kind { kind_of (C.state object) ≡ self.old.kind }
        requires room { HasRoomFor self.old 1 }
        ensures kind { self.new.kind ≡ self.old.kind }
        ensures keeps { self.new.keeps ≡ self.old.keeps }
        ensures room { (n : ℕ) → HasRoomFor self.old (n + 1) → HasRoomFor self.new n }
        ensures tally { tally_of self.new ≡ supplied_more (tally_of self.old) 1 }
    {
        self.supplied += 1;
        self.objects.push_reserved(object);
    }

    /// Takes a blank out, if there is one.
    pub(crate) fn take(&mut self) -> Option<C>
        ensures some { IsSome result → (tally_of self.new ≡ with_out (tally_of self.old) 1)
            × (0 < (tally_of self.old).in_stock) }
        ensures kind { self.new.kind ≡ self.old.kind }
        ensures keeps { self.new.keeps ≡ self.old.keeps }
        ensures out { IsSome result → IsOut (tally_of self.new) }
        ensures object { IfSome result (λ object. kind_of (C.state object) ≡ self.old.kind) }
        ensures none { result ≡ None → ((tally_of self.old).in_stock ≡ 0)
            × (tally_of self.new ≡ tally_of self.old) }
    {
        if self.objects.len() == self.kept() {
            return None;
        }
        self.objects.pop()
    }

    /// Puts an object back that is out.
    pub(crate) fn put(&mut self, object: C)
        requires kind { kind_of (C.state object) ≡ self.old.kind }
        requires out { IsOut (tally_of self.old) }
        ensures kind { self.new.kind ≡ self.old.kind }
        ensures keeps { self.new.keeps ≡ self.old.keeps }
        ensures tally { tally_of self.new ≡ with_one_back (tally_of self.old) }
    {
        self.objects.push_reserved(object);
    }

    /// Retires an object that is out: it is kept if retired objects are kept, and dropped
    /// otherwise.
    pub(crate) fn retire(&mut self, object: C)
        requires kind { kind_of (C.state object) ≡ self.old.kind }
        requires out { IsOut (tally_of self.old) }
        ensures kind { self.new.kind ≡ self.old.kind }
        ensures keeps { self.new.keeps ≡ self.old.keeps }
        ensures tally { tally_of self.new ≡ with_one_retired (tally_of self.old) }
    {
        if self.keeps {
            self.objects.push_reserved(object);
        } else {
            drop(object);
        }
        self.retired += 1;
    }

    /// Keeps retired objects from now on.
    pub(crate) fn keep_retired(&mut self)
        requires { (tally_of self.old).retired ≡ 0 }
        ensures kind { self.new.kind ≡ self.old.kind }
        ensures keeps { self.new.keeps ≡ true }
        ensures tally { tally_of self.new ≡ tally_of self.old }
    {
        self.keeps = true;
    }

    /// Makes each retired object a blank again. All retired objects have to have been kept.
    pub(crate) fn take_back(&mut self)
        requires { self.old.keeps ≡ true }
        ensures kind { self.new.kind ≡ self.old.kind }
        ensures keeps { self.new.keeps ≡ true }
        ensures tally { tally_of self.new ≡ with_retired_back (tally_of self.old) }
    {
        self.retired = 0;
    }

    /// Drops the retired objects that were kept, and from now on each object that is retired.
    pub(crate) fn drop_retired(&mut self)
        ensures kind { self.new.kind ≡ self.old.kind }
        ensures keeps { self.new.keeps ≡ false }
        ensures tally { tally_of self.new ≡ tally_of self.old }
    {
        let blanks = self.objects.len() - self.kept();
        self.objects.truncate(blanks);
        self.keeps = false;
    }
}
