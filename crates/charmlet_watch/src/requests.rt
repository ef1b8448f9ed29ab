//! Clients' requests, and the flush that makes them durable.

ghost use Rattle.std.specs.Prelude.{◌≡◌, ◌≢◌, ◌≤◌, IfErr, IfOk, OnErr, OnOk, length, map, take};
ghost use Rattle.std.specs.List.{AllByRecursion};
ghost use Rattle.charmlet_model.specs.declared.refusal.Refusal.TheVariants as refusals;
ghost use Rattle.charmlet_model.specs.Core as core;
ghost use Rattle.charmlet_model.specs.Run.{Goes};
ghost use Rattle.charmlet_model.specs.Told.{Holds};
ghost use Rattle.charmlet_disk.specs.Calls.{AfterCall};
ghost use Rattle.charmlet_disk.specs.Disk.{LeavesOnly};
ghost use Rattle.charmlet_halves.specs.Answers.{is_no_failure};
ghost use Rattle.charmlet_history.specs.Kept.{counts_or_refused, told_or_refused};
ghost use Rattle.charmlet_requests.specs.Pass.{with_accept, with_told};
ghost use Rattle.charmlet_leases.specs.Passes.Passes.{HeldPass, IsAnswered, IsKept, TellAll, accepts_after, with_flush};
ghost use Rattle.charmlet_sequencer.specs.Sequencer.{is_lawful};
ghost use Rattle.charmlet_hub.specs.Hub.{store_in};
ghost use Rattle.charmlet_watch.specs.Moments.{Made, Steps, moment_of};

use crate::names::{WatchedName, Watcher};
use crate::noted::{Noted, note};
use crate::watched::Watched;
use charmlet_chare::Chare;
use charmlet_disk::Disk;
use charmlet_history::Request;
use charmlet_hub::PassesOf;
use charmlet_leases::ClientPass;
use charmlet_model::{Refusal, Told};

impl<D: Disk, C: Chare, B: WatchedName> Watched<D, C, B> {
    /// Accepts a request of the pass's client, and tells the client what is durable of it. A repeat
    /// of a request in the client's window adds nothing. The refusals are those of
    /// [`charmlet_history::History::request`], in their order. If it isn't refused, the pass
    /// records that it was accepted, and the answer. The answer is no less than the pass knew, and
    /// has no other words. A refusal changes nothing. The processor that is to deliver the request
    /// gets a ticket for it.
    pub fn request(
        &mut self,
        me: &mut Watcher<B>,
        pass: &mut ClientPass<PassesOf<B>>,
        request: &Request<'_>,
    ) -> Result<Told, Refusal>
        ensures goes { Goes (store_in self.old) (core.Request pass.old.pass.client
            request.now.number request.now.to request.now.entry request.now.words.now)
            (told_or_refused result) (store_in self.new) }
        ensures holds { IfOk result (λ told. Holds self.old.core.opening
            (take self.old.core.durable self.old.core.history) pass.old.pass.client
            request.now.number told) }
        ensures answered { IsAnswered pass.old pass.new request.now.number result }
        ensures told { IfOk result (λ told. pass.new.pass
            ≡ with_accept (with_told pass.old.pass request.now.number told) request.now.number) }
        ensures accepts { OnOk result (pass.new.accepts ≡ accepts_after pass.old request.now) }
        ensures kept { IsKept self.old.passes self.new.passes pass.old pass.new }
        ensures rest { self.new
            ≡ record self.old { core = self.new.core; passes = self.new.passes } }
        ensures err { OnErr result (self.new ≡ self.old) }
        ensures made { Made me.old (Steps (core.Request pass.old.pass.client request.now.number
            request.now.to request.now.entry request.now.words.now) (told_or_refused result))
            (moment_of self.new) me.new }
    {
        let client = pass.client();
        let told = self.hub.request(pass, request);
        note(
            &mut self.sightings,
            me,
            &self.hub,
            &Noted::Request {
                client,
                request,
                told: &told,
            },
        );
        told
    }

    /// Tells the pass's client what is durable of its request. `Halted`; otherwise `Memory`, but
    /// only if the answer has words. The pass records the answer. It is no less than the pass knew,
    /// and has no other words. A refusal changes nothing.
    pub fn status(
        &mut self,
        me: &mut Watcher<B>,
        pass: &mut ClientPass<PassesOf<B>>,
        number: u64,
    ) -> Result<Told, Refusal>
        ensures goes { Goes (store_in self.old) (core.Status pass.old.pass.client number)
            (told_or_refused result) (store_in self.new) }
        ensures holds { IfOk result (λ told. Holds self.old.core.opening
            (take self.old.core.durable self.old.core.history) pass.old.pass.client number told) }
        ensures answered { IsAnswered pass.old pass.new number result }
        ensures told { IfOk result (λ told. pass.new.pass ≡ with_told pass.old.pass number told) }
        ensures accepts { pass.new.accepts ≡ pass.old.accepts }
        ensures kept { IsKept self.old.passes self.new.passes pass.old pass.new }
        ensures rest { self.new ≡ record self.old { passes = self.new.passes } }
        ensures err { OnErr result (self.new ≡ self.old) }
        ensures made { Made me.old (Steps (core.Status pass.old.pass.client number)
            (told_or_refused result)) (moment_of self.new) me.new }
    {
        let client = pass.client();
        let told = self.hub.status(pass, number);
        note(
            &mut self.sightings,
            me,
            &self.hub,
            &Noted::Status {
                client,
                number,
                told: &told,
            },
        );
        told
    }

    /// Makes all events durable, and answers how many there are, including those before the opening
    /// world. Then it tells each client whose pass is handed in that the last of its accepts is
    /// accepted, if the pass knows nothing of it yet. Each of these passes then records the count,
    /// as contracts see it: no less than before. It takes no memory; with no events to write it
    /// makes no call of the disk.
    ///
    /// `Halted`; `LogFull` if the file would have more than 2^31 bytes, including the closed gate
    /// after its log: then nothing changes. `Device` halts the store. If refused, no client is told
    /// anything. On an honest disk a crash at any moment of the call leaves the world after some of
    /// the history, including all events that were durable before.
    pub fn flush(
        &mut self,
        me: &mut Watcher<B>,
        passes: &mut [ClientPass<PassesOf<B>>],
    ) -> Result<u64, Refusal>
        ensures goes { Goes (store_in self.old) core.Flush (counts_or_refused result)
            (store_in self.new) }
        ensures told { IfOk result (λ count. passes.new ≡ map (with_flush count) passes.old) }
        ensures untold { OnErr result ((passes.new ≡ passes.old)
            × (self.new.passes ≡ self.old.passes)) }
        ensures any_moment { D.honest self.old.disk → LeavesOnly D.moment D.since self.old.disk
            self.new.disk (is_lawful self.old.core) }
        ensures disk { AfterCall D.Disk self.old.disk self.new.disk (is_no_failure result) }
        ensures idle { self.old.core.durable ≡ length self.old.core.history →
            self.new.disk ≡ self.old.disk }
        ensures kept { IfOk result (λ count.
            TellAll count self.old.passes passes.old self.new.passes) }
        ensures rising { IfOk result (λ count. AllByRecursion
            (λ (held : HeldPass). held.flushed ≤ count) passes.old) }
        ensures out { self.new.passes.out ≡ self.old.passes.out }
        ensures census { self.new.census ≡ self.old.census }
        ensures seats { self.new.seats ≡ self.old.seats }
        ensures memory { IfErr result (λ refusal. refusal ≢ refusals.Memory) }
        ensures err { IfErr result (λ refusal. refusal ≢ refusals.Device →
            self.new ≡ self.old) }
        ensures made { Made me.old (Steps core.Flush (counts_or_refused result)) (moment_of
            self.new) me.new }
    {
        let flushed = self.hub.flush(passes);
        note(&mut self.sightings, me, &self.hub, &Noted::Flush(&flushed));
        flushed
    }
}
