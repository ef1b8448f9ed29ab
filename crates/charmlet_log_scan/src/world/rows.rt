//! The table of clients' rows.

ghost use Rattle.std.specs.Prelude.{◌≡◌, IfOk, IfSome, None, OnErr, OnOk, length, nat_eq, option_copied, true};
ghost use Rattle.std.specs.BTreeMap.{is_at};
ghost use Rattle.std.specs.Map.{lookup};
ghost use Rattle.std.specs.Ordering.{nat_cmp};
ghost use Rattle.charmlet_model.specs.Row.{awaits, with_reply, with_request};
ghost use Rattle.charmlet_world.specs.Changed.{IsAwaited, with_answer, with_row};
ghost use Rattle.charmlet_world.specs.Seen.{client_at, present_rows};
ghost use Rattle.charmlet_log_scan.specs.World.Clients.{IsPlace, risen_clients};

use charmlet_model::{ClientRow, MsgId, Origin, Words};
use charmlet_world::Client;
use indexmap::IndexMap;
use std::alloc::{AllocError, Global};
use std::collections::BTreeMap;
use std::marker::Model;

/// The rows of the clients that made a request. A contract sees each client with its rows, in
/// rising order of the clients.
#[derive(Drop)]
pub(crate) struct ClientRows {
    rows: IndexMap<u32, Client>,
    /// The index at which a search for a client that makes a request begins.
    asking: usize,
    /// The index at which a search for a client that is answered begins.
    answered: usize,
}

impl Model for ClientRows {
    ghost use Rattle.std.specs.Prelude.{ℕ, List};
    ghost use Rattle.charmlet_world.specs.Client.Client.{Rows};
    ghost use Rattle.charmlet_log_scan.specs.World.Clients.{risen_clients};

    ghost Value = { List (ℕ × Rows) };

    ghost view = { λ c. risen_clients c.rows.entries };
}

impl ClientRows {
    /// The clients of this tree. It fails only when out of memory.
    pub(crate) fn of_tree(alloc: Global, tree: BTreeMap<u32, Client>) -> Result<Self, AllocError>
        ensures { IfOk result (λ clients. clients ≡ tree.entries) }
    {
        let rows = table_of(alloc, tree)?;
        Ok(ClientRows {
            rows,
            asking: 0,
            answered: 0,
        })
    }

    /// How many clients there are.
    pub(crate) fn len(&self) -> usize
        ensures { result ≡ length self.now }
    {
        self.rows.len()
    }

    /// A client's rows, if it made a request.
    pub(crate) fn get(&self, client: u32) -> Option<&Client>
        ensures { option_copied result ≡ lookup (is_at (nat_cmp client)) self.now }
    {
        let place = place_of(&self.rows, self.asking, client)?;
        let (_client, row) = self.rows.get_index(place)?;
        Some(row)
    }

    /// A copy of each client's row in the present world, in rising order of the clients. It fails
    /// only when out of memory.
    pub(crate) fn present(&self, alloc: Global) -> Result<BTreeMap<u32, ClientRow>, AllocError>
        ensures { IfOk result (λ rows. rows.entries ≡ present_rows self.now) }
    {
        present_of(&self.rows, alloc)
    }

    /// Records the client's next request. When out of memory, nothing changes.
    pub(crate) fn note_request(&mut self, client: u32, number: u64) -> Result<(), AllocError>
        ensures ok { OnOk result (self.new ≡ with_row self.old client
            (with_request (client_at self.old client).present number)) }
        ensures err { OnErr result (self.new ≡ self.old) }
    {
        if let Some(place) = place_of(&self.rows, self.asking, client) {
            ask_at(&mut self.rows, place, client, number);
            self.asking = place;
            return Ok(());
        }
        self.asking = ask_first(&mut self.rows, client, number)?;
        Ok(())
    }

    /// Keeps the reply with the client that asked, if one did. It takes no memory.
    pub(crate) fn keep_reply(&mut self, id: MsgId, reply: Words)
        requires { IsAwaited self.old id.origin id.number }
        ensures { self.new ≡ with_answer self.old id.origin id.number reply }
    {
        let Origin::Client(client) = id.origin else {
            return;
        };
        let Some(place) = place_of(&self.rows, self.answered, client) else {
            unreachable!()
        };
        answer_at(&mut self.rows, place, client, id.number, reply);
        self.answered = place;
    }
}

/// A table of the clients of this tree. It fails only when out of memory.
fn table_of(alloc: Global, tree: BTreeMap<u32, Client>) -> Result<IndexMap<u32, Client>, AllocError>
    ensures { IfOk result (λ rows. risen_clients rows.entries ≡ tree.entries) }
{
    let mut rows = IndexMap::new(alloc);
    rows.reserve(tree.len())?;
    for (client, row) in tree {
        rows.insert(client, row)?;
    }
    Ok(rows)
}

/// A copy of each client's row in the present world, in rising order of the clients. It fails only
/// when out of memory.
fn present_of(
    rows: &IndexMap<u32, Client>,
    alloc: Global,
) -> Result<BTreeMap<u32, ClientRow>, AllocError>
    ensures { IfOk result (λ tree. tree.entries
        ≡ present_rows (risen_clients rows.now.entries)) }
{
    let mut tree = BTreeMap::new(alloc);
    let mut place = rows.len();
    while place > 0 {
        place -= 1;
        let Some((client, row)) = rows.get_index(place) else {
            unreachable!()
        };
        tree.insert(*client, row.present().copy(alloc)?)?;
    }
    Ok(tree)
}

/// Records the next request of the client with this index. It takes no memory.
fn ask_at(rows: &mut IndexMap<u32, Client>, place: usize, client: u32, number: u64)
    requires { IsPlace rows.old.entries place client }
    ensures { risen_clients rows.new.entries ≡ with_row (risen_clients rows.old.entries) client
        (with_request (client_at (risen_clients rows.old.entries) client).present number) }
{
    let (_client, row) = rows.pair_mut(place);
    row.accept(number);
}

/// Records the first request of a client, and answers the index of its rows. When out of memory,
/// nothing changes.
fn ask_first(
    rows: &mut IndexMap<u32, Client>,
    client: u32,
    number: u64,
) -> Result<usize, AllocError>
    requires { lookup (nat_eq client) rows.old.entries ≡ None }
    ensures ok { OnOk result (risen_clients rows.new.entries
        ≡ with_row (risen_clients rows.old.entries) client
        (with_request (client_at (risen_clients rows.old.entries) client).present number)) }
    ensures err { OnErr result (rows.new.entries ≡ rows.old.entries) }
{
    let mut row = Client::new();
    row.accept(number);
    let (place, _none) = rows.insert_full(client, row)?;
    Ok(place)
}

/// Keeps the reply for which the client with this index waits. It takes no memory.
fn answer_at(rows: &mut IndexMap<u32, Client>, place: usize, client: u32, number: u64, reply: Words)
    requires place { IsPlace rows.old.entries place client }
    requires waits { awaits (client_at (risen_clients rows.old.entries) client).present number
        ≡ true }
    ensures { risen_clients rows.new.entries ≡ with_row (risen_clients rows.old.entries) client
        (with_reply (client_at (risen_clients rows.old.entries) client).present number reply) }
{
    let (_client, row) = rows.pair_mut(place);
    row.answer(number, reply);
}

/// The index of the client's rows, if it has any. The search tries the expected index, the next
/// one, and then all others.
fn place_of(rows: &IndexMap<u32, Client>, expected: usize, client: u32) -> Option<usize>
    ensures found { IfSome result (λ place. IsPlace rows.now.entries place client) }
    ensures nowhere { result ≡ None → lookup (nat_eq client) rows.now.entries ≡ None }
{
    if stands_at(rows, expected, client) {
        return Some(expected);
    }
    let next = place_after(expected, rows.len());
    if stands_at(rows, next, client) {
        return Some(next);
    }
    search(rows, client)
}

/// The index after this one, of `count` indexes, or the first one: clients often ask in turn.
fn place_after(place: usize, count: usize) -> usize {
    let next = place.saturating_add(1);
    if next < count { next } else { 0 }
}

/// Whether the client's rows have this index.
fn stands_at(rows: &IndexMap<u32, Client>, place: usize, client: u32) -> bool
    ensures { result ≡ true → IsPlace rows.now.entries place client }
{
    match rows.get_index(place) {
        Some((here, _row)) => *here == client,
        None => false,
    }
}

/// The index of the client's rows among all, if it has any. It isn't inlined, since it is seldom
/// called.
#[inline(never)]
fn search(rows: &IndexMap<u32, Client>, client: u32) -> Option<usize>
    ensures found { IfSome result (λ place. IsPlace rows.now.entries place client) }
    ensures nowhere { result ≡ None → lookup (nat_eq client) rows.now.entries ≡ None }
{
    rows.get_index_of(&client)
}
