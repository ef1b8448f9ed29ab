//! Clients' passes.

use charmlet_locks::{AuthorityName, Fragment, GhostValue};
use charmlet_model::Told;
use charmlet_requests as requests;
use std::alloc::AllocError;
use std::marker::{Brand, Model};

/// The contents of a pass, which only contracts see. The values that code makes are those of passes
/// that are being lent.
#[derive(Drop)]
pub struct GhostPass {
    pub(crate) client: u32,
    pub(crate) last: u64,
    pub(crate) since: u64,
}

impl Model for GhostPass {
    ghost use Rattle.charmlet_leases.specs.Passes.Passes.{HeldPass, lent_since};

    ghost Value = { HeldPass };

    ghost view = { λ s. lent_since s.client s.last s.since };
}

impl GhostValue<GhostPass> for Brand {
    ghost use Rattle.charmlet_leases.specs.Passes.Passes.{lent_since};

    ghost value = { lent_since 0 0 0 };
}

/// The right to make requests for a client. A contract sees after how many events it was lent, its
/// client's accepts since then, in order, everything that its client was told, in order, and the
/// event count of the last flush that got the pass. The accepts have no bytes: their numbers follow
/// one another, up to `last`. For each request the highest answer is kept.
#[derive(Drop)]
pub struct ClientPass<B: AuthorityName> {
    pub(crate) pass: requests::ClientPass,
    pub(crate) fragment: Fragment<GhostPass, B>,
}

impl<B: AuthorityName> Model for ClientPass<B> {
    ghost use Rattle.std.specs.Prelude.{◌≡◌, Some};
    ghost use Rattle.charmlet_leases.specs.Passes.Passes.{HeldPass, held_by};

    ghost Value = { HeldPass };

    ghost view = { λ p. held_by p.fragment.1 };

    ghost invariant = { λ p. (p.fragment.1 ≡ Some (held_by p.fragment.1))
        × ((held_by p.fragment.1).pass ≡ p.pass) };
}

impl<B: AuthorityName> ClientPass<B> {
    ghost use Rattle.std.specs.Prelude.{◌≡◌, ◌-◌, IfOk, OnErr, true};
    ghost use Rattle.charmlet_model.specs.Core.{has_words};
    ghost use Rattle.charmlet_requests.specs.Pass.{known};

    /// The client that has the pass.
    pub fn client(&self) -> u32
        ensures { result ≡ self.now.pass.client }
    {
        self.pass.client()
    }

    /// The number of the client's last accept, or, if there is none, its last number when the pass
    /// was lent.
    pub fn last(&self) -> u64
        ensures { result ≡ self.now.pass.last }
    {
        self.pass.last()
    }

    /// How many requests were accepted since the pass was lent.
    pub fn accept_count(&self) -> u64
        ensures { result ≡ self.now.pass.last - self.now.pass.lent_at }
    {
        self.pass.accept_count()
    }

    /// The knowledge about request `number`: the highest answer that the client was told about it,
    /// or what follows from answers about others. It fails only when out of memory, and takes none
    /// if the answer has no words.
    pub fn known(&self, number: u64) -> Result<Told, AllocError>
        ensures known { IfOk result (λ told. told ≡ known self.now.pass number) }
        ensures words { OnErr result (has_words (known self.now.pass number) ≡ true) }
    {
        self.pass.known(number)
    }
}
