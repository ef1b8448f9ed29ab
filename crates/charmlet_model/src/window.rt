//! The replies to a client's last requests.

ghost use Rattle.std.specs.Prelude.{◌≡◌, IfOk, option_copied};

use crate::words::Words;
use arrayvec::ArrayVec;
use std::alloc::{AllocError, Global};
use std::marker::Model;

/// The replies to a client's last requests: up to eight items, the oldest first. Each item is a
/// reply, or `None` until there is one. A contract sees the list. Only `copy` takes memory.
#[derive(Debug)]
pub struct Window {
    items: ArrayVec<Option<Words>, 8>,
}

impl Model for Window {
    ghost use Rattle.std.specs.Prelude.{List, Option, ℕ};

    ghost Value = { List (Option (List ℕ)) };

    ghost view = { λ window. window.items.items };
}

// Written by hand, so that dropping the eight places is proved here, and not in each crate that
// drops a client.
impl Drop for Window {
    fn drop(self) {
        let Window { items } = self;
        drop(items);
    }
}

impl Window {
    ghost use Rattle.std.specs.Prelude.{◌≡◌, ◌↔◌, ◌<◌, ◌≤◌, ◌++◌, ◌∷◌, List, ℕ, [], length, slice_index_or, slice_set, IsTrue, Some, None, IfOk, option_copied};

    /// A window with no items.
    pub fn new() -> Self
        ensures { result ≡ [] }
    {
        Window {
            items: ArrayVec::new(),
        }
    }

    /// How many items there are, at most eight.
    pub fn len(&self) -> usize
        ensures count { result ≡ length self.now }
        ensures few { result ≤ 8 }
    {
        self.items.len()
    }

    /// Whether there is no item.
    pub fn is_empty(&self) -> bool
        ensures { IsTrue result ↔ (self.now ≡ []) }
    {
        self.items.is_empty()
    }

    /// The reply at `place`, if there is one. Places count from 0, which is the oldest item.
    pub fn get(&self, place: usize) -> Option<&Words>
        ensures { option_copied result ≡ slice_index_or self.now place None }
    {
        if place < self.items.len() {
            self.items[place].as_ref()
        } else {
            None
        }
    }

    /// Stores the reply at `place`.
    pub fn set(&mut self, place: usize, reply: Words)
        requires { place < length self.old }
        ensures { self.new ≡ slice_set self.old place (Some reply) }
    {
        self.items[place] = Some(reply);
    }

    /// Appends an item to the window. There have to be fewer than eight.
    pub fn push(&mut self, item: Option<Words>)
        requires { length self.old < 8 }
        ensures { self.new ≡ self.old ++ item ∷ [] }
    {
        self.items.push(item);
    }

    /// Removes the oldest item and returns it. There has to be one.
    pub fn remove_first(&mut self) -> Option<Words>
        requires { 0 < length self.old }
        ensures { self.old ≡ result ∷ self.new }
    {
        self.items.remove(0)
    }

    /// A copy of the items. It fails only when out of memory.
    pub fn copy(&self, alloc: Global) -> Result<Self, AllocError>
        ensures { IfOk result (λ copy. copy ≡ self.now) }
    {
        let mut copy = Window::new();
        for place in 0..self.len() {
            copy.push(copy_of(alloc, self.get(place))?);
        }
        Ok(copy)
    }

    /// Removes all items of the window.
    pub fn clear(&mut self)
        ensures { self.new ≡ [] }
    {
        self.items.clear();
    }
}

/// A copy of the reply, if there is one. It fails only when out of memory.
fn copy_of(alloc: Global, reply: Option<&Words>) -> Result<Option<Words>, AllocError>
    ensures { IfOk result (λ copy. copy ≡ option_copied reply.entry) }
{
    match reply {
        Some(words) => Ok(Some(Words::from_slice(alloc, words.as_slice())?)),
        None => Ok(None),
    }
}
