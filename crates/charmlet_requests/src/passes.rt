//! The clients whose passes are out.

ghost use Rattle.std.specs.Prelude.{◌≡◌};
ghost use Rattle.charmlet_model.specs.Core.{present};
ghost use Rattle.charmlet_model.specs.World.{client_of};
ghost use Rattle.charmlet_history.specs.Kept.{core_in};

use crate::pass::ClientPass;
use charmlet_history::History;
use charmlet_model::Refusal;
use std::alloc::Global;
use std::collections::BTreeSet;
use std::marker::Model;

/// The clients whose passes are out. A contract sees their numbers, which rise.
#[derive(Drop)]
pub struct Passes {
    alloc: Global,
    out: BTreeSet<u32>,
}

impl Model for Passes {
    ghost use Rattle.std.specs.Prelude.{List, ℕ};

    ghost Value = { List ℕ };

    ghost view = { λ passes. passes.out.keys };
}

impl Passes {
    ghost use Rattle.std.specs.Prelude.{◌≡◌, [], true, false, length, IfErr, IfOk, OnErr, OnOk};
    ghost use Rattle.std.specs.Ordering.{nat_cmp};
    ghost use Rattle.std.specs.BTreeMap.{is_at};
    ghost use Rattle.std.specs.BTreeSet.{insert_key};
    ghost use Rattle.std.specs.Set.{remove_key};
    ghost use Rattle.charmlet_model.specs.Core.{present};
    ghost use Rattle.charmlet_model.specs.World.{client_of};
    ghost use Rattle.charmlet_history.specs.Kept.{core_in};
    ghost use Rattle.charmlet_requests.specs.Pass.{is_out, lending_refusal, lent};

    /// No passes are out. It takes no memory.
    pub fn new(alloc: Global) -> Self
        ensures { result ≡ [] }
    {
        Passes {
            alloc,
            out: BTreeSet::new(alloc),
        }
    }

    /// How many passes are out.
    pub fn pass_count(&self) -> usize
        ensures { result ≡ length self.now }
    {
        self.out.len()
    }

    /// Whether the client's pass is out.
    pub fn is_out(&self, client: u32) -> bool
        ensures { result ≡ is_out client self.now }
    {
        self.out.contains(&client)
    }

    /// Lends a client its pass for this history. `PassOut` if it is out; otherwise `Memory`. If
    /// refused, nothing changes.
    pub fn lend(&mut self, history: &History, client: u32) -> Result<ClientPass, Refusal>
        ensures lent { IfOk result (λ pass. pass
            ≡ lent client (client_of (present (core_in history.now)) client).last) }
        ensures out { OnOk result (self.new ≡ insert_key nat_cmp self.old client) }
        ensures was_in { OnOk result (is_out client self.old ≡ false) }
        ensures err { IfErr result (λ refusal. refusal ≡ lending_refusal client self.old) }
        ensures same { OnErr result (self.new ≡ self.old) }
    {
        if self.is_out(client) {
            return Err(Refusal::PassOut);
        }
        self.out.insert(client)?;
        Ok(ClientPass::lend(self.alloc, client, last_of(history, client)))
    }

    /// Takes a pass back, so that it may be lent again. It takes no memory.
    pub fn give_back(&mut self, pass: ClientPass)
        ensures { self.new ≡ remove_key (is_at (nat_cmp pass.client)) self.old }
    {
        self.out.remove(&pass.client());
    }
}

/// The client's last number, or 0.
fn last_of(history: &History, client: u32) -> u64
    ensures { result ≡ (client_of (present (core_in history.now)) client).last }
{
    match history.clients().get(&client) {
        Some(rows) => rows.present().last,
        None => 0,
    }
}
