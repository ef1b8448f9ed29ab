//! The passes of a script's clients.

use charmlet_chare::Chare;
use charmlet_disk::Disk;
use charmlet_history::Request;
use charmlet_hub::PassesOf;
use charmlet_leases::ClientPass;
use charmlet_model::{Refusal, Told};
use charmlet_sequencer::RuntimeName;
use charmlet_workers::Runtime;
use std::alloc::Global;
use std::collections::BTreeMap;
use std::sync::Wait;

/// The passes of the clients that lines have named so far. Each pass is lent at its client's first
/// line.
#[derive(Drop)]
pub(crate) struct Clients<B: RuntimeName> {
    pub(crate) passes: Vec<ClientPass<PassesOf<B>>>,
    /// The index of each client's pass. An index at which another pass stands doesn't count.
    pub(crate) places: BTreeMap<u32, usize>,
}

impl<B: RuntimeName> Clients<B> {
    ghost use Rattle.std.specs.Prelude.{◌≡◌, ◌≤◌, ◌||◌, [], None, true, map, IfErr, IfOk, IfSome, OnErr, OnOk};
    ghost use Rattle.std.specs.List.{AllByRecursion};
    ghost use Rattle.charmlet_leases.specs.Passes.Passes.{HeldPass, with_flush};
    ghost use Rattle.charmlet_workers.specs.Runtime.{AreFlushed};
    ghost use Rattle.charmlet_workers.specs.Refusals.{is_flush_refusal, is_lending_refusal, is_request_refusal, is_status_refusal};
    ghost use Rattle.charmlet_cli_workers.specs.Heard.{AreAccepted, AreLater, AreTidy, HaveNone, IsAsked, IsAskingCauseBy, IsHeard, IsPassOf, IsReached, IsToldBy, KnowTheSame, accepts_by};
    ghost use Rattle.charmlet_cli_workers.specs.Said.{IsStatusCause};

    /// No clients yet. It takes no memory.
    pub(crate) fn new(alloc: Global) -> Self
        ensures passes { result.passes.items ≡ [] }
        ensures tidy { AreTidy result.passes.items result.places.entries }
    {
        Clients {
            passes: Vec::new(alloc),
            places: BTreeMap::new(alloc),
        }
    }

    /// All passes that were lent.
    pub(crate) fn into_passes(self) -> Vec<ClientPass<PassesOf<B>>>
        ensures { result.items ≡ self.passes.items }
    {
        let Clients { passes, places } = self;
        drop(places);
        passes
    }

    /// Makes a client's request by its pass. `Memory` if there is none for a pass; otherwise the
    /// refusals of [`Runtime::request`].
    pub(crate) fn request<D: Disk, C: Chare, R: Wait>(
        &mut self,
        rt: &R,
        runtime: &Runtime<D, C, B>,
        client: u32,
        request: &Request<'_>,
    ) -> Result<Told, Refusal>
        requires tidy { AreTidy self.old.passes.items self.old.places.entries }
        ensures tidy { AreTidy self.new.passes.items self.new.places.entries }
        ensures asked { OnOk result (IsAsked client request.now self.old.passes.items
            self.new.passes.items) }
        ensures unasked { OnErr result (AreAccepted self.old.passes.items
            self.new.passes.items) }
        ensures told { IfOk result (IsToldBy client request.now.number self.old.passes.items
            self.new.passes.items) }
        ensures untold { OnErr result (KnowTheSame self.old.passes.items
            self.new.passes.items) }
        ensures heard { IfOk result (IsHeard self.new.passes.items client request.now.number) }
        ensures reached { OnOk result
            (IsReached self.new.passes.items client request.now.number) }
        ensures later { AreLater self.old.passes.items self.new.passes.items }
        ensures err { IfErr result (λ refusal.
            (is_request_refusal refusal || is_lending_refusal refusal) ≡ true) }
        ensures cause { IfErr result (IsAskingCauseBy runtime.now.opening self.new.passes.items
            (accepts_by client self.old.passes.items) client request.now.number request.now.to
            request.now.words.now) }
    {
        match self.place_of(rt, runtime, client) {
            Ok(place) => runtime.request(rt, &mut self.passes[place], request),
            Err(refusal) => Err(refusal),
        }
    }

    /// Tells a client by its pass what is durable of its request. `Memory` if there is none for a
    /// pass; otherwise the refusals of [`Runtime::status`].
    pub(crate) fn status<D: Disk, C: Chare, R: Wait>(
        &mut self,
        rt: &R,
        runtime: &Runtime<D, C, B>,
        client: u32,
        number: u64,
    ) -> Result<Told, Refusal>
        requires tidy { AreTidy self.old.passes.items self.old.places.entries }
        ensures tidy { AreTidy self.new.passes.items self.new.places.entries }
        ensures accepted { AreAccepted self.old.passes.items self.new.passes.items }
        ensures told { IfOk result (IsToldBy client number self.old.passes.items
            self.new.passes.items) }
        ensures untold { OnErr result (KnowTheSame self.old.passes.items
            self.new.passes.items) }
        ensures heard { IfOk result (IsHeard self.new.passes.items client number) }
        ensures later { AreLater self.old.passes.items self.new.passes.items }
        ensures err { IfErr result (λ refusal.
            (is_status_refusal refusal || is_lending_refusal refusal) ≡ true) }
        ensures cause { IfErr result
            (IsStatusCause (accepts_by client self.old.passes.items)) }
    {
        match self.place_of(rt, runtime, client) {
            Ok(place) => runtime.status(rt, &mut self.passes[place], number),
            Err(refusal) => Err(refusal),
        }
    }

    /// Makes all events durable, and tells each client that the last of its requests is accepted.
    /// Each pass then records how many events there are. The refusals are those of
    /// [`Runtime::flush`].
    pub(crate) fn flush<D: Disk, C: Chare, R: Wait>(
        &mut self,
        rt: &R,
        runtime: &Runtime<D, C, B>,
    ) -> Result<u64, Refusal>
        ensures told { IfOk result (λ count.
            self.new.passes.items ≡ map (with_flush count) self.old.passes.items) }
        ensures untold { OnErr result (self.new.passes.items ≡ self.old.passes.items) }
        ensures places { self.new.places ≡ self.old.places }
        ensures flushed { IfOk result (AreFlushed runtime.now self.new.passes.items) }
        ensures rising { IfOk result (λ count. AllByRecursion
            (λ (held : HeldPass). held.flushed ≤ count) self.old.passes.items) }
        ensures err { IfErr result (λ refusal. is_flush_refusal refusal ≡ true) }
    {
        runtime.flush(rt, self.passes.as_mut_slice())
    }

    /// The index of a client's pass, which is lent if the client has none yet. `Memory` if there is
    /// none for it.
    fn place_of<D: Disk, C: Chare, R: Wait>(
        &mut self,
        rt: &R,
        runtime: &Runtime<D, C, B>,
        client: u32,
    ) -> Result<usize, Refusal>
        requires tidy { AreTidy self.old.passes.items self.old.places.entries }
        ensures tidy { AreTidy self.new.passes.items self.new.places.entries }
        ensures accepted { AreAccepted self.old.passes.items self.new.passes.items }
        ensures untold { KnowTheSame self.old.passes.items self.new.passes.items }
        ensures place { IfOk result (IsPassOf client self.new.passes.items) }
        ensures none { OnErr result (HaveNone client self.old.passes.items) }
        ensures later { AreLater self.old.passes.items self.new.passes.items }
        ensures err { IfErr result (λ refusal. is_lending_refusal refusal ≡ true) }
    {
        match self.find(client) {
            Some(place) => Ok(place),
            None => self.lend(rt, runtime, client),
        }
    }

    /// The index of a client's pass, if the client has one.
    fn find(&self, client: u32) -> Option<usize>
        requires tidy { AreTidy self.now.passes.items self.now.places.entries }
        ensures place { IfSome result (IsPassOf client self.now.passes.items) }
        ensures none { result ≡ None → HaveNone client self.now.passes.items }
    {
        let Some(place) = self.places.get(&client).copied() else {
            return None;
        };
        if self.is_at(place, client) {
            Some(place)
        } else {
            None
        }
    }

    /// Whether the client's pass stands at this place.
    fn is_at(&self, place: usize, client: u32) -> bool
        ensures there { result ≡ true → IsPassOf client self.now.passes.items place }
        ensures not_there { IsPassOf client self.now.passes.items place → result ≡ true }
    {
        match self.passes.get(place) {
            Some(pass) => pass.client() == client,
            None => false,
        }
    }

    /// Lends its pass to a client that has none, and puts it last. Room is made before the pass is
    /// lent, so that no pass is lost.
    fn lend<D: Disk, C: Chare, R: Wait>(
        &mut self,
        rt: &R,
        runtime: &Runtime<D, C, B>,
        client: u32,
    ) -> Result<usize, Refusal>
        requires none { HaveNone client self.old.passes.items }
        requires tidy { AreTidy self.old.passes.items self.old.places.entries }
        ensures tidy { AreTidy self.new.passes.items self.new.places.entries }
        ensures accepted { AreAccepted self.old.passes.items self.new.passes.items }
        ensures untold { KnowTheSame self.old.passes.items self.new.passes.items }
        ensures place { IfOk result (IsPassOf client self.new.passes.items) }
        ensures later { AreLater self.old.passes.items self.new.passes.items }
        ensures err { IfErr result (λ refusal. is_lending_refusal refusal ≡ true) }
    {
        let place = self.passes.len();
        if self.passes.reserve(1).is_err() {
            return Err(Refusal::Memory);
        }
        if self.places.insert(client, place).is_err() {
            return Err(Refusal::Memory);
        }
        match runtime.client(rt, client) {
            Ok(pass) => {
                self.passes.push_reserved(pass);
                Ok(place)
            }
            Err(refusal) => Err(refusal),
        }
    }
}
