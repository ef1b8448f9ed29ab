//! Clients' passes over an engine, and requests and questions by them.

ghost use Rattle.std.specs.Prelude.{◌≡◌, ℕ, false, IfErr, IfOk, OnErr, OnOk};
ghost use Rattle.std.specs.BTreeSet.{insert_key};
ghost use Rattle.std.specs.Ordering.{nat_cmp};
ghost use Rattle.charmlet_model.specs.declared.names.Elem as names;
ghost use Rattle.charmlet_model.specs.declared.step.Step.TheVariants as steps;
ghost use Rattle.charmlet_model.specs.World.{client_of};
ghost use Rattle.charmlet_requests.specs.Handlers.{IsTarget, handler_of};
ghost use Rattle.charmlet_requests.specs.Pass.{IsHeard, IsUpToDate, is_out, lending_refusal, lent, with_accept, with_told};
ghost use Rattle.charmlet_engine.specs.Engine.{client_answer, core_of, world_of};
ghost use Rattle.charmlet_engine.specs.Taken.{Takes};

use crate::engine::Engine;
use charmlet_chare::Chare;
use charmlet_disk::Disk;
use charmlet_history::Request;
use charmlet_model::{Refusal, Told};
use charmlet_requests::{ClientPass, Handler, Handlers, Passes, call, status, target};

impl<D: Disk, C: Chare> Engine<D, C> {
    /// Lends a client its pass over this store. `PassOut` if it is out; otherwise `Memory`. If
    /// refused, nothing changes.
    pub fn lend(&self, passes: &mut Passes, client: u32) -> Result<ClientPass, Refusal>
        ensures lent { IfOk result (λ pass. pass
            ≡ lent client (client_of (world_of self.now) client).last) }
        ensures out { OnOk result (passes.new ≡ insert_key nat_cmp passes.old client) }
        ensures was_in { OnOk result (is_out client passes.old ≡ false) }
        ensures err { IfErr result (λ refusal. refusal ≡ lending_refusal client passes.old) }
        ensures same { OnErr result (passes.new ≡ passes.old) }
    {
        passes.lend(&self.store.history, client)
    }

    /// Accepts a request of the pass's client, as [`Engine::step`] does, and the pass keeps the
    /// answer. If everything that the pass knows is true of the durable events, it is still true
    /// afterwards. The client is told no less about the request than the pass knew, and no other
    /// words. A refusal changes nothing.
    pub fn request(&mut self, pass: &mut ClientPass, request: &Request<'_>) -> Result<Told, Refusal>
        ensures takes { Takes D.Disk self.old self.new (steps.Request pass.old.client
            request.now.number request.now.to request.now.entry request.now.words.now)
            (client_answer result) }
        ensures ok { IfOk result (λ told. pass.new
            ≡ with_accept (with_told pass.old request.now.number told) request.now.number) }
        ensures heard { IsHeard pass.old pass.new (core_of self.old) (core_of self.new)
            request.now.number result }
        ensures up_to_date { IsUpToDate pass.old (core_of self.old) →
            IsUpToDate pass.new (core_of self.new) }
    {
        self.facts();
        let told = charmlet_requests::request(&mut self.store.history, pass, request);
        self.facts();
        told
    }

    /// Accepts a request of a client that has no pass, as [`Engine::step`] does.
    pub fn ask(&mut self, client: u32, request: &Request<'_>) -> Result<Told, Refusal>
        ensures takes { Takes D.Disk self.old self.new (steps.Request client request.now.number
            request.now.to request.now.entry request.now.words.now) (client_answer result) }
    {
        self.facts();
        let told = self.store.request(client, request);
        self.facts();
        told
    }

    /// Tells a client that has no pass what is durable of its request, as [`Engine::step`] does.
    pub fn tell(&mut self, client: u32, number: u64) -> Result<Told, Refusal>
        ensures takes { Takes D.Disk self.old self.new (steps.Status client number)
            (client_answer result) }
    {
        self.facts();
        self.store.status(client, number)
    }

    /// The handler of a name, or one of an array that isn't there, as [`charmlet_requests::target`]
    /// returns it.
    pub fn target(&self, handlers: &Handlers, name: &str) -> Handler
        ensures { (index : ℕ) → IsTarget (world_of self.now) index
            (handler_of handlers.now name.now)
            (record { array = result.array; index = index }) result.entry }
    {
        target(&self.store.history, handlers, name)
    }

    /// Accepts a request of the pass's client to a named handler, as [`charmlet_requests::call`]
    /// does: a repeat is answered before the name is looked up. The promises of [`Engine::request`]
    /// hold here too.
    pub fn call(
        &mut self,
        pass: &mut ClientPass,
        handlers: &Handlers,
        number: u64,
        name: &str,
        index: u64,
        words: &[u64],
    ) -> Result<Told, Refusal>
        ensures takes { (to : names.Elem) × (entry : ℕ)
            × IsTarget (world_of self.old) index (handler_of handlers.now name.now) to entry
            × Takes D.Disk self.old self.new
            (steps.Request pass.old.client number to entry words.now)
            (client_answer result) }
        ensures ok { IfOk result (λ told. pass.new
            ≡ with_accept (with_told pass.old number told) number) }
        ensures heard { IsHeard pass.old pass.new (core_of self.old) (core_of self.new)
            number result }
        ensures up_to_date { IsUpToDate pass.old (core_of self.old) →
            IsUpToDate pass.new (core_of self.new) }
    {
        self.facts();
        let told = call(
            &mut self.store.history,
            pass,
            handlers,
            number,
            name,
            index,
            words,
        );
        self.facts();
        told
    }

    /// Tells the pass's client what is durable of its request, as [`Engine::step`] does, and the
    /// pass keeps the answer. The promises of [`Engine::request`] hold here too.
    pub fn status(&mut self, pass: &mut ClientPass, number: u64) -> Result<Told, Refusal>
        ensures takes { Takes D.Disk self.old self.new (steps.Status pass.old.client number)
            (client_answer result) }
        ensures ok { IfOk result (λ told. pass.new ≡ with_told pass.old number told) }
        ensures heard { IsHeard pass.old pass.new (core_of self.old) (core_of self.new)
            number result }
    {
        self.facts();
        status(&self.store.history, pass, number)
    }
}
