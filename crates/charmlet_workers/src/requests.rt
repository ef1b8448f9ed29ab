//! Clients' requests to a runtime, and the flush that makes them durable.

ghost use Rattle.std.specs.Prelude.{◌≡◌, ◌≤◌, ℕ, true, IfErr, IfOk, OnErr, OnOk, map};
ghost use Rattle.std.specs.List.{AllByRecursion};
ghost use Rattle.charmlet_requests.specs.Handlers.{IsTarget, handler_of};
ghost use Rattle.charmlet_requests.specs.Pass.{with_accept, with_told};
ghost use Rattle.charmlet_leases.specs.Passes.Passes.{HeldPass, IsAnswered, accepts_after, with_flush};
ghost use Rattle.charmlet_workers.specs.Refusals.{IsRecent, IsRequestCause, is_flush_refusal, is_request_refusal, is_status_refusal};
ghost use Rattle.charmlet_workers.specs.Runtime.{AreFlushed};

use crate::runtime::Runtime;
use charmlet_chare::Chare;
use charmlet_disk::Disk;
use charmlet_history::Request;
use charmlet_hub::PassesOf;
use charmlet_leases::ClientPass;
use charmlet_model::{Refusal, Told};
use charmlet_requests::{Handler, Handlers, target};
use charmlet_sequencer::RuntimeName;
use std::sync::Wait;

impl<D: Disk, C: Chare, B: RuntimeName> Runtime<D, C, B> {
    /// Accepts a request of the pass's client, and tells the client what is durable of it, in one
    /// hold of the hub. A repeat of a request in the client's window, which has at most the last
    /// eight, adds nothing. The refusals are those of [`charmlet_history::History::request`], in
    /// their order. If it isn't refused, the pass records that it was accepted, and the answer. The
    /// answer is no less than the pass knew, and has no other words. A refusal changes nothing.
    pub fn request<R: Wait>(
        &self,
        rt: &R,
        pass: &mut ClientPass<PassesOf<B>>,
        request: &Request<'_>,
    ) -> Result<Told, Refusal>
        ensures answered { IsAnswered pass.old pass.new request.now.number result }
        ensures told { IfOk result (λ told. pass.new.pass
            ≡ with_accept (with_told pass.old.pass request.now.number told) request.now.number) }
        ensures accepts { OnOk result (pass.new.accepts ≡ accepts_after pass.old request.now) }
        ensures repeat { OnOk result (request.now.number ≤ pass.old.pass.last →
            IsRecent pass.old.pass.last request.now.number) }
        ensures err { IfErr result (λ refusal. is_request_refusal refusal ≡ true) }
        ensures cause { IfErr result (IsRequestCause self.now.opening pass.old request.now) }
    {
        let mut hub = self.hub.lock(rt);
        hub.facts();
        hub.request(pass, request)
    }

    /// Tells the pass's client what is durable of its request, in one hold of the hub. `Halted`;
    /// otherwise `Memory`, but only if the answer has words. The pass records the answer. It is no
    /// less than the pass knew, and has no other words. A refusal changes nothing.
    pub fn status<R: Wait>(
        &self,
        rt: &R,
        pass: &mut ClientPass<PassesOf<B>>,
        number: u64,
    ) -> Result<Told, Refusal>
        ensures answered { IsAnswered pass.old pass.new number result }
        ensures told { IfOk result (λ told. pass.new.pass ≡ with_told pass.old.pass number told) }
        ensures accepts { pass.new.accepts ≡ pass.old.accepts }
        ensures err { IfErr result (λ refusal. is_status_refusal refusal ≡ true) }
    {
        self.hub.lock(rt).status(pass, number)
    }

    /// The handler of a name, or one of an array that isn't there, in one hold of the hub, as
    /// [`charmlet_requests::target`] returns it.
    pub fn target<R: Wait>(&self, rt: &R, handlers: &Handlers, name: &str) -> Handler
        ensures { (index : ℕ) → IsTarget self.now.opening index
            (handler_of handlers.now name.now)
            (record { array = result.array; index = index }) result.entry }
    {
        let hub = self.hub.lock(rt);
        hub.facts();
        target(hub.history(), handlers, name)
    }

    /// Makes all events durable, in one hold of the hub, and answers how many there are at that
    /// moment, including those before the opening world. Then it tells each client whose pass is
    /// handed in that the last of its accepts is accepted, if the pass knows nothing of it yet.
    /// Each of these passes then records the count, as contracts see it: no less than before. It
    /// takes no memory; with no events to write it makes no call of the disk.
    ///
    /// `Halted`; `LogFull` if the file would have more than 2^31 bytes, including the closed gate
    /// after its log: then nothing changes. `Device` halts the store. If refused, no client is told
    /// anything.
    pub fn flush<R: Wait>(
        &self,
        rt: &R,
        passes: &mut [ClientPass<PassesOf<B>>],
    ) -> Result<u64, Refusal>
        ensures told { IfOk result (λ count. passes.new ≡ map (with_flush count) passes.old) }
        ensures untold { OnErr result (passes.new ≡ passes.old) }
        ensures count { IfOk result (λ count. self.now.before ≤ count) }
        ensures flushed { IfOk result (AreFlushed self.now passes.new) }
        ensures rising { IfOk result (λ count. AllByRecursion
            (λ (held : HeldPass). held.flushed ≤ count) passes.old) }
        ensures err { IfErr result (λ refusal. is_flush_refusal refusal ≡ true) }
    {
        let mut hub = self.hub.lock(rt);
        hub.facts();
        let flushed = hub.flush(passes);
        hub.facts();
        flushed
    }
}
