//! Requests by clients' passes to a sequencer, and the agreement with a shelf.

ghost use Rattle.std.specs.Prelude.{◌≡◌, ◌<◌, IfOk, OnErr, OnOk, take};
ghost use Rattle.charmlet_model.specs.Core as core;
ghost use Rattle.charmlet_model.specs.Core.{present};
ghost use Rattle.charmlet_model.specs.Run.{Goes};
ghost use Rattle.charmlet_model.specs.Told.{Holds};
ghost use Rattle.charmlet_history.specs.Kept.{told_or_refused};
ghost use Rattle.charmlet_requests.specs.Pass.{with_accept, with_told};
ghost use Rattle.charmlet_leases.specs.Passes.Passes.{AreCurrent, IsAnswered, IsKept, accepts_after};
ghost use Rattle.charmlet_delivery.specs.UnderWay.{due_in};
ghost use Rattle.charmlet_delivery.specs.Workplace.{ShowsOn};
ghost use Rattle.charmlet_sequencer.specs.Authority.{IsDueOn};
ghost use Rattle.charmlet_sequencer.specs.Sequencer.{store_of};

use crate::names::RuntimeName;
use crate::processor_state::ProcessorState;
use crate::sequencer::Sequencer;
use charmlet_chare::Chare;
use charmlet_disk::Disk;
use charmlet_history::Request;
use charmlet_leases::{ClientPass, PassTable};
use charmlet_locks::AuthorityName;
use charmlet_model::{Refusal, Told};

impl<D: Disk, C: Chare, B: RuntimeName> Sequencer<D, C, B> {
    /// Accepts a request of the pass's client, and tells the client what is durable of it. A repeat
    /// of a request in the client's window adds nothing. The refusals are those of
    /// [`charmlet_history::History::request`], in their order. If it isn't refused, the pass and
    /// its authority record that it was accepted, and the answer. The answer is no less than the
    /// pass knew, and has no other words. A refusal changes nothing.
    pub fn request_by<P: AuthorityName>(
        &mut self,
        passes: &mut PassTable<P>,
        pass: &mut ClientPass<P>,
        request: &Request<'_>,
    ) -> Result<Told, Refusal>
        requires { AreCurrent passes.old self.old.core }
        ensures current { AreCurrent passes.new self.new.core }
        ensures kept { IsKept passes.old passes.new pass.old pass.new }
        ensures goes { Goes (store_of self.old) (core.Request pass.old.pass.client
            request.now.number request.now.to request.now.entry request.now.words.now)
            (told_or_refused result) (store_of self.new) }
        ensures holds { IfOk result (λ told. Holds self.old.core.opening
            (take self.old.core.durable self.old.core.history) pass.old.pass.client
            request.now.number told) }
        ensures answered { IsAnswered pass.old pass.new request.now.number result }
        ensures told { IfOk result (λ told. pass.new.pass
            ≡ with_accept (with_told pass.old.pass request.now.number told) request.now.number) }
        ensures accepts { OnOk result (pass.new.accepts ≡ accepts_after pass.old request.now) }
        ensures census { self.new.census ≡ self.old.census }
        ensures disk { self.new.disk ≡ self.old.disk }
        ensures err { OnErr result (self.new ≡ self.old) }
    {
        self.history.facts();
        let told = passes.request(&mut self.history, pass, request);
        self.history.facts();
        told
    }

    /// Shows that the shelf and the sequencer agree. The shelf is a processor's, it has the records
    /// of its elements in the world after the history, and its delivery under way is the one that
    /// is assigned. Nothing is compared, and nothing changes.
    pub fn agree(&mut self, locked: &mut ProcessorState<C, B>)
        ensures on { locked.old.number < self.old.core.processors }
        ensures shows { ShowsOn locked.old.number locked.old.records self.old.core.places
            (present self.old.core) }
        ensures due { IsDueOn self.old.core locked.old.number (due_in locked.old.phase) }
        ensures sequencer { self.new ≡ self.old }
        ensures locked { locked.new ≡ locked.old }
    {
        self.parts.agree(&mut locked.fragment);
    }
}
