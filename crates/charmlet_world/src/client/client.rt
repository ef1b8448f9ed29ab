//! A client's row in the present world, and in the durable one.

ghost use Rattle.std.specs.Prelude.{◌≡◌, ◌<◌, ◌≤◌, ◌++◌, ◌∷◌, [], drop, replicate, if◌then◌else◌, slice_set, true, false, IfOk, OnErr, length, slice_index_or, None, option_copied};
ghost use Rattle.charmlet_model.specs.Core.{has_words};
ghost use Rattle.charmlet_model.specs.Row.{awaits, below, no_client, with_reply, with_request};
ghost use Rattle.charmlet_model.specs.Told.{told_of, told_of_item};
ghost use Rattle.charmlet_world.specs.Client.Client.{IsWithin, Rows, durable_row, flushed, same_rows, shown, with_present};

use arrayvec::ArrayVec;
use charmlet_model::{ClientRow, MAX_UNANSWERED, Told, Window, Words};
use std::alloc::{AllocError, Global};
use std::marker::Model;

/// A client's row in the present world, and in the durable one. A contract sees the two rows. They
/// share their replies, so that a request, a reply and a flush take no memory.
#[derive(Debug, Drop)]
pub struct Client {
    present: ClientRow,
    /// The last number of the durable row.
    durable_last: u64,
    /// The items of the durable window that the present one has dropped.
    dropped: Window,
    /// For each other item of the durable window, whether its reply is durable. These items come
    /// first in the present window.
    durable: ArrayVec<bool, 8>,
}

impl Model for Client {
    ghost Value = { Rows };

    ghost view = { λ c. record {
      present = c.present;
      durable = durable_row c.present c.durable_last c.dropped c.durable.items;
    } };

    ghost invariant = { λ c. IsWithin c.present.window c.dropped c.durable.items };
}

impl Client {
    /// A client that never made a request. It takes no memory.
    pub fn new() -> Self
        ensures { result ≡ same_rows no_client }
    {
        Client {
            present: ClientRow::new(),
            durable_last: 0,
            dropped: Window::new(),
            durable: ArrayVec::new(),
        }
    }

    /// A client with this row in both worlds. It takes no memory.
    pub fn of(row: ClientRow) -> Self
        ensures { result ≡ same_rows row }
    {
        let mut durable = ArrayVec::new();
        mark_durable(&mut durable, row.window.len());
        Client {
            durable_last: row.last,
            present: row,
            dropped: Window::new(),
            durable,
        }
    }

    /// The row in the present world.
    pub fn present(&self) -> &ClientRow
        ensures { result.now ≡ self.now.present }
    {
        &self.present
    }

    /// Accepts the client's next request, which is `number`. The durable row stays as it is. It
    /// takes no memory.
    pub fn accept(&mut self, number: u64)
        ensures { self.new ≡ with_present self.old (with_request self.old.present number) }
    {
        if self.present.window.len() == MAX_UNANSWERED {
            drop_first(
                &mut self.present.window,
                &mut self.dropped,
                &mut self.durable,
            );
        }
        self.present.window.push(None);
        self.present.last = number;
    }

    /// Stores the reply to a request that waits for it. The durable row stays as it is. It takes no
    /// memory.
    pub fn answer(&mut self, number: u64, reply: Words)
        requires { awaits self.old.present number ≡ true }
        ensures { self.new ≡ with_present self.old (with_reply self.old.present number reply) }
    {
        let place = (number - self.present.below() - 1) as usize;
        unmark(&mut self.durable, place);
        self.present.window.set(place, reply);
    }

    /// Makes the present row the durable one. It takes no memory.
    pub fn flush(&mut self)
        ensures { self.new ≡ flushed self.old }
    {
        self.durable_last = self.present.last;
        self.dropped.clear();
        mark_durable(&mut self.durable, self.present.window.len());
    }

    /// What the durable row tells the client about request `number`. It fails only when out of
    /// memory, and takes none if the answer has no words.
    pub fn told(&self, alloc: Global, number: u64) -> Result<Told, AllocError>
        ensures told { IfOk result (λ told. told ≡ told_of self.now.durable number) }
        ensures words { OnErr result (has_words (told_of self.now.durable number) ≡ true) }
    {
        if self.durable_last < number {
            return Ok(Told::Unknown);
        }
        let below = self.durable_below();
        if number <= below {
            return Ok(Told::Past);
        }
        tell(alloc, self.durable_reply((number - below - 1) as usize))
    }

    /// The number just below the durable window.
    fn durable_below(&self) -> u64
        ensures { result ≡ below self.now.durable }
    {
        let count = self.dropped.len() + self.durable.len();
        self.durable_last.saturating_sub(count as u64)
    }

    /// The reply at a place of the durable window, if there is one.
    fn durable_reply(&self, place: usize) -> Option<&Words>
        ensures { option_copied result ≡ slice_index_or self.now.durable.window place None }
    {
        let before = self.dropped.len();
        if place < before {
            return self.dropped.get(place);
        }
        let place = place - before;
        if place < self.durable.len() && self.durable[place] {
            self.present.window.get(place)
        } else {
            None
        }
    }
}

/// What a client is told about a request in its window, given its reply, if it has one. It fails
/// only when out of memory, and takes none if the answer has no words.
fn tell(alloc: Global, reply: Option<&Words>) -> Result<Told, AllocError>
    ensures told { IfOk result (λ told. told ≡ told_of_item (option_copied reply.entry)) }
    ensures words { OnErr result (has_words (told_of_item (option_copied reply.entry)) ≡ true) }
{
    match reply {
        None => Ok(Told::Accepted),
        Some(reply) => Ok(Told::Replied(Words::from_slice(alloc, reply.as_slice())?)),
    }
}

/// Takes the first item out of a full window, and keeps it if the durable row has it.
fn drop_first(window: &mut Window, dropped: &mut Window, durable: &mut ArrayVec<bool, 8>)
    requires full { length window.old ≡ 8 }
    requires within { IsWithin window.old dropped.old durable.old.items }
    ensures window { window.new ≡ drop 1 window.old }
    ensures durable { dropped.new ++ shown durable.new.items window.new
        ≡ dropped.old ++ shown durable.old.items window.old }
    ensures within { IsWithin window.new dropped.new durable.new.items }
{
    let item = window.remove_first();
    if !durable.is_empty() {
        let is_durable = durable.remove(0);
        keep(dropped, item, is_durable);
    }
}

/// Appends an item, with its reply if that is durable.
fn keep(dropped: &mut Window, item: Option<Words>, is_durable: bool)
    requires { length dropped.old < 8 }
    ensures { dropped.new ≡ dropped.old ++ (if is_durable then item else None) ∷ [] }
{
    if is_durable {
        dropped.push(item);
    } else {
        dropped.push(None);
    }
}

/// Marks the reply at `place` as not durable.
fn unmark(durable: &mut ArrayVec<bool, 8>, place: usize)
    ensures { durable.new.items ≡ slice_set durable.old.items place false }
{
    if place < durable.len() {
        durable[place] = false;
    }
}

/// Marks the replies of the first `count` items as durable.
fn mark_durable(durable: &mut ArrayVec<bool, 8>, count: usize)
    requires { count ≤ 8 }
    ensures { durable.new.items ≡ replicate count true }
{
    durable.clear();
    for _ in 0..count {
        durable.push(true);
    }
}
