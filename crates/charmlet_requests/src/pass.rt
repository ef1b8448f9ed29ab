//! Clients' passes.

use crate::knowledge::hear;
use charmlet_model::{ClientRow, Told};
use std::alloc::{AllocError, Global};
use std::marker::Model;

/// A client's knowledge about its requests in one history: which of them were accepted since the
/// pass was lent, and what it was told about them. In that history the client is never told less
/// than before, nor other words.
#[derive(Debug, Drop)]
pub struct ClientPass {
    alloc: Global,
    client: u32,
    /// The client's last number when the pass was lent.
    lent_at: u64,
    /// The number of the client's last accept, or the same as `lent_at` if there is none.
    last: u64,
    /// The client's knowledge from what it was told.
    row: ClientRow,
}

impl Model for ClientPass {
    ghost use Rattle.std.specs.Prelude.{◌≤◌};
    ghost use Rattle.charmlet_requests.specs.Knowing.{IsWindowed};
    ghost use Rattle.charmlet_requests.specs.Pass.{Pass};

    ghost Value = { Pass };

    ghost view = { λ p. record {
      client = p.client;
      lent_at = p.lent_at;
      last = p.last;
      row = p.row;
    } };

    ghost invariant = { λ p. IsWindowed p.row × (p.lent_at ≤ p.last) };
}

impl ClientPass {
    ghost use Rattle.std.specs.Prelude.{◌≡◌, ◌-◌, ℕ, length, not, take, true, IfOk, OnErr, OnOk};
    ghost use Rattle.charmlet_model.specs.Core.{Core, has_words};
    ghost use Rattle.charmlet_model.specs.Sound.{IsSound};
    ghost use Rattle.charmlet_model.specs.Told.{Holds};
    ghost use Rattle.charmlet_requests.specs.Knowing.{IsNoLess, is_unknown};
    ghost use Rattle.charmlet_requests.specs.Pass.{IsTold, accepts_of, known, lent, with_accept, with_told};

    /// A pass that is lent to a client whose last number is `last`. It takes no memory.
    pub(crate) fn lend(alloc: Global, client: u32, last: u64) -> Self
        ensures { result ≡ lent client last }
    {
        ClientPass {
            alloc,
            client,
            lent_at: last,
            last,
            row: ClientRow::new(),
        }
    }

    /// The client that has the pass.
    pub fn client(&self) -> u32
        ensures { result ≡ self.now.client }
    {
        self.client
    }

    /// The number of the client's last accept, or, if there is none, its last number when the pass
    /// was lent.
    pub fn last(&self) -> u64
        ensures { result ≡ self.now.last }
    {
        self.last
    }

    /// How many requests were accepted since the pass was lent: those with the numbers up to the
    /// last one.
    pub fn accept_count(&self) -> u64
        ensures number { result ≡ self.now.last - self.now.lent_at }
        ensures count { result ≡ length (accepts_of self.now) }
    {
        self.last - self.lent_at
    }

    /// The knowledge about request `number`: the highest answer that the client was told about it,
    /// or what follows from answers about others. The replies to the client's last eight requests
    /// are kept. It fails only when out of memory, and takes none if the answer has no words.
    pub fn known(&self, number: u64) -> Result<Told, AllocError>
        ensures known { IfOk result (λ told. told ≡ known self.now number) }
        ensures words { OnErr result (has_words (known self.now number) ≡ true) }
    {
        self.row.told(self.alloc, number)
    }

    /// Whether anything is known about request `number`. It takes no memory.
    pub fn knows(&self, number: u64) -> bool
        ensures { result ≡ not (is_unknown (known self.now number)) }
    {
        number <= self.row.last
    }

    /// Records what the client was told about request `number`. Afterwards no less is known about
    /// any request than before. It fails only when out of memory, and then nothing changes. It
    /// takes no memory if `told` has no words.
    pub fn hear(&mut self, number: u64, told: &Told) -> Result<(), AllocError>
        ensures ok { OnOk result (self.new ≡ with_told self.old number told.now) }
        ensures kept { (other : ℕ) → IsNoLess (known self.old other) (known self.new other) }
        ensures heard { IsNoLess (known self.old number) told.now →
            OnOk result (IsNoLess told.now (known self.new number)) }
        ensures holds { (core : Core) → IsSound core →
            Holds core.opening (take core.durable core.history) self.old.client number told.now →
            IsTold self.old core → IsTold self.new core }
        ensures err { OnErr result (self.new ≡ self.old) }
        ensures words { OnErr result (has_words told.now ≡ true) }
    {
        hear(&mut self.row, self.alloc, number, told)
    }

    /// Records that request `number` was accepted, if the number is above the last one. It takes no
    /// memory.
    pub fn accept(&mut self, number: u64)
        ensures { self.new ≡ with_accept self.old number }
    {
        if self.last < number {
            self.last = number;
        }
    }
}
