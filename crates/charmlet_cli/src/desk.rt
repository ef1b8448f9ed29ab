//! The desk of a run: the registered handlers, and the clients' passes.

ghost use Rattle.std.specs.Prelude.{◌≡◌, ℕ, List, IfOk, IfSome};
ghost use Rattle.charmlet_model.specs.declared.names.Elem as names;
ghost use Rattle.charmlet_model.specs.declared.step.Step.TheVariants as steps;
ghost use Rattle.charmlet_requests.specs.Handlers.{IsTarget};
ghost use Rattle.charmlet_engine.specs.Engine.{client_answer, world_of};
ghost use Rattle.charmlet_engine.specs.Taken.{Takes};
ghost use Rattle.charmlet_script_output.specs.Named.{named_by};
ghost use Rattle.charmlet_cli.specs.Lines.{named_at};

use charmlet_chare::Chare;
use charmlet_disk::Disk;
use charmlet_engine::Engine;
use charmlet_history::Request;
use charmlet_model::{Elem, Refusal, Told};
use charmlet_requests::{ClientPass, Handlers, Passes};
use charmlet_script::HandlerLine;
use charmlet_script_output::{Call, handlers_of};
use std::alloc::{AllocError, Global};
use std::collections::BTreeMap;

/// The handlers of a script, and the passes of its clients. Each client has a pass from its first
/// request or question on. If there is no memory for a pass, the client goes without one, and has
/// the same answers.
#[derive(Drop)]
pub(crate) struct Desk {
    handlers: Handlers,
    passes: Passes,
    held: BTreeMap<u32, ClientPass>,
}

impl Desk {
    /// A desk with these handlers. If a name comes twice, the last line counts. It fails only when
    /// out of memory.
    pub(crate) fn new(alloc: Global, lines: &[HandlerLine]) -> Result<Self, AllocError>
        ensures { IfOk result (λ desk. (name : List ℕ) →
            named_at desk name ≡ named_by lines.now name) }
    {
        Ok(Desk {
            handlers: handlers_of(alloc, lines)?,
            passes: Passes::new(alloc),
            held: BTreeMap::new(alloc),
        })
    }

    /// Lends the client its pass, if it isn't out and there is memory for it.
    fn lend<D: Disk, C: Chare>(&mut self, engine: &Engine<D, C>, client: u32) -> Option<ClientPass>
        ensures client { IfSome result (λ pass. pass.client ≡ client) }
        ensures handlers { self.new.handlers ≡ self.old.handlers }
    {
        engine.lend(&mut self.passes, client).ok()
    }

    /// Holds a client's pass. If there is no memory for it, it is dropped, and isn't lent again.
    fn hold(&mut self, pass: ClientPass)
        ensures { self.new.handlers ≡ self.old.handlers }
    {
        let client = pass.client();
        let _ = self.held.insert(client, pass);
    }

    /// A client's request, by its pass.
    pub(crate) fn request<D: Disk, C: Chare>(
        &mut self,
        engine: &mut Engine<D, C>,
        client: u32,
        request: &Request<'_>,
    ) -> Result<Told, Refusal>
        ensures takes { Takes D.Disk engine.old engine.new (steps.Request client
            request.now.number request.now.to request.now.entry request.now.words.now)
            (client_answer result) }
        ensures handlers { self.new.handlers ≡ self.old.handlers }
    {
        match self.held.get_mut(&client) {
            Some(pass) if pass.client() == client => return engine.request(pass, request),
            _ => {}
        }
        let Some(mut pass) = self.lend(engine, client) else {
            return engine.ask(client, request);
        };
        let told = engine.request(&mut pass, request);
        self.hold(pass);
        told
    }

    /// Tells a client by its pass what is durable of its request.
    pub(crate) fn status<D: Disk, C: Chare>(
        &mut self,
        engine: &mut Engine<D, C>,
        client: u32,
        number: u64,
    ) -> Result<Told, Refusal>
        ensures takes { Takes D.Disk engine.old engine.new (steps.Status client number)
            (client_answer result) }
        ensures handlers { self.new.handlers ≡ self.old.handlers }
    {
        match self.held.get_mut(&client) {
            Some(pass) if pass.client() == client => return engine.status(pass, number),
            _ => {}
        }
        let Some(mut pass) = self.lend(engine, client) else {
            return engine.tell(client, number);
        };
        let told = engine.status(&mut pass, number);
        self.hold(pass);
        told
    }

    /// A client's request to a named handler, by its pass. A repeat is answered before the name is
    /// looked up.
    pub(crate) fn call<D: Disk, C: Chare>(
        &mut self,
        engine: &mut Engine<D, C>,
        call: &Call<'_>,
    ) -> Result<Told, Refusal>
        ensures takes { (to : names.Elem) × (entry : ℕ)
            × IsTarget (world_of engine.old) call.now.index
            (named_at self.old call.now.name.now) to entry
            × Takes D.Disk engine.old engine.new (steps.Request call.now.client call.now.number to
            entry call.now.words.now) (client_answer result) }
        ensures handlers { self.new.handlers ≡ self.old.handlers }
    {
        let handler = engine.target(&self.handlers, call.name);
        let request = Request {
            number: call.number,
            to: Elem {
                array: handler.array,
                index: call.index,
            },
            entry: handler.entry,
            words: call.words,
        };
        self.request(engine, call.client, &request)
    }
}
