//! The table of passes.

ghost use Rattle.std.specs.Prelude.{◌≡◌, ◌==◌, ◌+◌, ◌≤◌, [], ℕ, length, map, false, Some, None, is_ok, IfOk, IfErr, OnOk, OnErr, slice_get, slice_set, vec_len};
ghost use Rattle.std.specs.BTreeSet.{insert_key};
ghost use Rattle.std.specs.List.{AllByRecursion};
ghost use Rattle.std.specs.Ordering.{nat_cmp};
ghost use Rattle.charmlet_model.specs.Core as core;
ghost use Rattle.charmlet_model.specs.Core.{Blanks, Core, Steps, present};
ghost use Rattle.charmlet_model.specs.World.{client_of};
ghost use Rattle.charmlet_history.specs.Kept.{core_in, told_or_refused};
ghost use Rattle.charmlet_requests.specs.Pass.{is_out, lending_refusal, with_accept, with_told};
ghost use Rattle.charmlet_leases.specs.Passes.Passes.{AreAll, AreCurrent, HaveAllAccepts, HeldPass, IsAnswered, IsCurrent, IsKept, TellAll, accepts_after, event_count, held_by, lent_since, passes_out, with_last_accepted, with_answer, with_flush, with_request};

use crate::passes::pass::{ClientPass, GhostPass};
use charmlet_history::{History, Request};
use charmlet_locks::{Authority, AuthorityName, Fragment, GhostValue};
use charmlet_model::{Refusal, Told};
use charmlet_requests as requests;
use std::alloc::Global;
use std::marker::{Brand, Model};

/// The table of the passes that are out, and of their contents. A contract sees both.
#[derive(Drop)]
pub struct PassTable<B: AuthorityName> {
    out: requests::Passes,
    authority: Authority<GhostPass, B>,
}

impl<B: AuthorityName> Model for PassTable<B> {
    ghost use Rattle.std.specs.Prelude.{◌≡◌, length};
    ghost use Rattle.charmlet_leases.specs.Passes.Passes.{LentPasses, passes_out};

    ghost Value = { LentPasses };

    ghost view = { λ s. record { out = s.out; held = s.authority } };

    ghost invariant = { λ s. length (passes_out s.authority) ≡ length s.out };
}

/// The refusal `PassOut`, since not all passes that are out were handed in. The table and the
/// passes that were handed in come back.
#[derive(Drop)]
pub struct PassesOut<B: AuthorityName> {
    pub table: PassTable<B>,
    pub passes: Vec<ClientPass<B>>,
}

impl<B: AuthorityName> PassTable<B> {
    /// A table with no pass out, over a new authority of passes' contents. It takes no memory.
    pub fn new(alloc: Global, authority: Authority<GhostPass, B>) -> Self
        requires { authority ≡ [] }
        ensures out { result.out ≡ [] }
        ensures current { (c : Core) → c.history ≡ [] → AreCurrent result c }
    {
        PassTable {
            out: requests::Passes::new(alloc),
            authority,
        }
    }

    /// How many passes are out.
    pub fn pass_count(&self) -> usize
        ensures { result ≡ length self.now.out }
    {
        self.out.pass_count()
    }

    /// Whether the client's pass is out.
    pub fn is_out(&self, client: u32) -> bool
        ensures { result ≡ is_out client self.now.out }
    {
        self.out.is_out(client)
    }

    /// Lends a client its pass, to which nothing was told. `PassOut` if it is out; otherwise
    /// `Memory`. If refused, nothing changes.
    pub fn lend(&mut self, history: &History, client: u32) -> Result<ClientPass<B>, Refusal>
        requires { AreCurrent self.old (core_in history.now) }
        ensures current { AreCurrent self.new (core_in history.now) }
        ensures pass { IfOk result (λ pass. pass ≡ lent_since client
            (client_of (present (core_in history.now)) client).last
            ((core_in history.now).before + length (core_in history.now).history)) }
        ensures was_in { OnOk result (is_out client self.old.out ≡ false) }
        ensures out { OnOk result (self.new.out ≡ insert_key nat_cmp self.old.out client) }
        ensures err { IfErr result (λ refusal. refusal ≡ lending_refusal client self.old.out) }
        ensures same { OnErr result (self.new ≡ self.old) }
    {
        if self.out.is_out(client) {
            return Err(Refusal::PassOut);
        }
        let pass = self.out.lend(history, client)?;
        let seen = GhostPass {
            client,
            last: pass.last(),
            since: history.event_count(),
        };
        let fragment = self.authority.issue(&seen);
        Ok(ClientPass { pass, fragment })
    }

    /// Accepts a request of the pass's client, with the same answers and refusals as
    /// [`charmlet_requests::request`]. If it isn't refused, the pass records that it was accepted,
    /// and the answer. The answer is no less than the pass knew, and has no other words. A refusal
    /// changes nothing.
    pub fn request(
        &mut self,
        history: &mut History,
        pass: &mut ClientPass<B>,
        request: &Request<'_>,
    ) -> Result<Told, Refusal>
        requires { AreCurrent self.old (core_in history.old) }
        ensures current { AreCurrent self.new (core_in history.new) }
        ensures kept { IsKept self.old self.new pass.old pass.new }
        ensures steps { (blanks : Blanks) → Steps (core_in history.old) blanks
            (core.Request pass.old.pass.client request.now.number request.now.to request.now.entry
            request.now.words.now)
            (record {
              answer = told_or_refused result;
              core = core_in history.new;
              blanks = blanks;
            }) }
        ensures answered { IsAnswered pass.old pass.new request.now.number result }
        ensures told { IfOk result (λ told. pass.new.pass
            ≡ with_accept (with_told pass.old.pass request.now.number told) request.now.number) }
        ensures accepts { OnOk result (pass.new.accepts ≡ accepts_after pass.old request.now) }
        ensures same { OnErr result (core_in history.new ≡ core_in history.old) }
    {
        history.facts();
        self.authority.agree(&mut pass.fragment);
        let told = match requests::request(history, &mut pass.pass, request) {
            Ok(told) => told,
            Err(refusal) => return Err(refusal),
        };
        history.facts();
        let fragment = &mut pass.fragment;
        write_accept::<Brand, B>(&mut self.authority, fragment, &pass.pass, request, &told);
        Ok(told)
    }

    /// Tells the pass's client what is durable of its request, with the same answers and refusals
    /// as [`charmlet_requests::status`]. The pass records the answer. It is no less than the pass
    /// knew, and has no other words. A refusal changes nothing.
    pub fn status(
        &mut self,
        history: &History,
        pass: &mut ClientPass<B>,
        number: u64,
    ) -> Result<Told, Refusal>
        requires { AreCurrent self.old (core_in history.now) }
        ensures current { AreCurrent self.new (core_in history.now) }
        ensures kept { IsKept self.old self.new pass.old pass.new }
        ensures steps { (blanks : Blanks) → Steps (core_in history.now) blanks
            (core.Status pass.old.pass.client number)
            (record {
              answer = told_or_refused result;
              core = core_in history.now;
              blanks = blanks;
            }) }
        ensures answered { IsAnswered pass.old pass.new number result }
        ensures told { IfOk result (λ told. pass.new.pass ≡ with_told pass.old.pass number told) }
        ensures accepts { pass.new.accepts ≡ pass.old.accepts }
    {
        history.facts();
        self.authority.agree(&mut pass.fragment);
        let told = match requests::status(history, &mut pass.pass, number) {
            Ok(told) => told,
            Err(refusal) => return Err(refusal),
        };
        write_told::<Brand, B>(
            &mut self.authority,
            &mut pass.fragment,
            &pass.pass,
            number,
            &told,
        );
        Ok(told)
    }

    /// Tells the clients of these passes that the last of their requests is accepted, once a flush
    /// has made all events durable. A client that made no request since its pass was lent, or was
    /// told more of it than `Unknown` before, is told nothing. Each pass records how many events
    /// there are, which is no less than it recorded before. It takes no memory.
    pub fn tell(&mut self, history: &History, passes: &mut [ClientPass<B>])
        requires current { AreCurrent self.old (core_in history.now) }
        requires durable { (core_in history.now).durable ≡ length (core_in history.now).history }
        ensures current { AreCurrent self.new (core_in history.now) }
        ensures out { self.new.out ≡ self.old.out }
        ensures told { passes.new ≡ map (with_flush (event_count (core_in history.now)))
            passes.old }
        ensures kept { TellAll (event_count (core_in history.now)) self.old passes.old self.new }
        ensures rising { AllByRecursion (λ (held : HeldPass).
            held.flushed ≤ event_count (core_in history.now)) passes.old }
    {
        for i in 0..passes.len() {
            self.tell_one(history, &mut passes[i]);
        }
    }

    /// Tells a pass's client that the last of its requests is accepted, if it made one of which it
    /// knows nothing yet, and records how many events there are.
    fn tell_one(&mut self, history: &History, pass: &mut ClientPass<B>)
        requires current { AreCurrent self.old (core_in history.now) }
        requires durable { (core_in history.now).durable ≡ length (core_in history.now).history }
        ensures current { AreCurrent self.new (core_in history.now) }
        ensures told { pass.new ≡ with_flush (event_count (core_in history.now)) pass.old }
        ensures kept { IsKept self.old self.new pass.old pass.new }
        ensures rising { pass.old.flushed ≤ event_count (core_in history.now) }
    {
        self.tell_accepted(history, pass);
        self.record_flush(history, pass);
    }

    /// Tells a pass's client that the last of its requests is accepted, if it made one of which it
    /// knows nothing yet.
    fn tell_accepted(&mut self, history: &History, pass: &mut ClientPass<B>)
        requires current { AreCurrent self.old (core_in history.now) }
        requires durable { (core_in history.now).durable ≡ length (core_in history.now).history }
        ensures current { AreCurrent self.new (core_in history.now) }
        ensures told { pass.new ≡ with_last_accepted pass.old }
        ensures kept { IsKept self.old self.new pass.old pass.new }
    {
        self.authority.agree(&mut pass.fragment);
        if pass.pass.accept_count() == 0 {
            return;
        }
        let last = pass.pass.last();
        if pass.pass.knows(last) {
            return;
        }
        history.facts();
        let Ok(()) = pass.pass.hear(last, &Told::Accepted) else {
            unreachable!()
        };
        let fragment = &mut pass.fragment;
        write_told::<Brand, B>(
            &mut self.authority,
            fragment,
            &pass.pass,
            last,
            &Told::Accepted,
        );
    }

    /// Records in a pass how many events there are, all of which are durable.
    fn record_flush(&mut self, history: &History, pass: &mut ClientPass<B>)
        requires current { AreCurrent self.old (core_in history.now) }
        requires durable { (core_in history.now).durable ≡ length (core_in history.now).history }
        ensures current { AreCurrent self.new (core_in history.now) }
        ensures recorded { pass.new
            ≡ record pass.old { flushed = event_count (core_in history.now) } }
        ensures kept { IsKept self.old self.new pass.old pass.new }
        ensures rising { pass.old.flushed ≤ event_count (core_in history.now) }
    {
        self.authority.agree(&mut pass.fragment);
        history.facts();
        write_flush::<Brand, B>(&mut self.authority, &mut pass.fragment, history);
    }

    /// Takes all passes in: each has exactly its client's accepts, and everything that its client
    /// was told is true of the durable events. A client that has none of them has no accepts. If a
    /// pass stays out, everything comes back. It takes no memory.
    pub fn close(self, passes: Vec<ClientPass<B>>) -> Result<(), PassesOut<B>>
        ensures all { OnOk result (AreAll self.held passes.items) }
        ensures current { OnOk result ((c : Core) → AreCurrent self c →
            AllByRecursion (λ (held : HeldPass). IsCurrent held c) passes.items) }
        ensures accepts { OnOk result ((c : Core) → AreCurrent self c →
            HaveAllAccepts passes.items c) }
        ensures which { is_ok result ≡ (vec_len passes == length self.out) }
        ensures back { IfErr result (λ refused. (refused.table ≡ self)
            × (refused.passes ≡ passes)) }
    {
        if passes.len() != self.out.pass_count() {
            return Err(PassesOut {
                table: self,
                passes,
            });
        }
        let PassTable { authority, .. } = self;
        take_all(authority, passes);
        Ok(())
    }
}

/// Writes what a pass's client was told about a request into the authority and the pass's fragment,
/// which had the same value before.
fn write_told<N: GhostValue<GhostPass>, B: AuthorityName>(
    authority: &mut Authority<GhostPass, B>,
    fragment: &mut Fragment<GhostPass, B>,
    _pass: &requests::ClientPass,
    _number: u64,
    _told: &Told,
)
    requires { N.value ≡ with_answer (held_by fragment.old.1) _pass.now _number _told.now }
    ensures agrees { slice_get authority.old fragment.old.0 ≡ Some fragment.old.1 }
    ensures authority { authority.new ≡ slice_set authority.old fragment.old.0
        (Some (with_answer (held_by fragment.old.1) _pass.now _number _told.now)) }
    ensures fragment { fragment.new ≡ (
      fragment.old.0,
      Some (with_answer (held_by fragment.old.1) _pass.now _number _told.now),
    ) }
{
    authority.change_to::<N>(fragment);
}

/// Writes what a pass's client was told about its request, and that the request was accepted, into
/// the authority and the pass's fragment, which had the same value before.
fn write_accept<N: GhostValue<GhostPass>, B: AuthorityName>(
    authority: &mut Authority<GhostPass, B>,
    fragment: &mut Fragment<GhostPass, B>,
    _pass: &requests::ClientPass,
    _request: &Request<'_>,
    _told: &Told,
)
    requires { N.value ≡ with_request (held_by fragment.old.1) _pass.now _request.now _told.now }
    ensures agrees { slice_get authority.old fragment.old.0 ≡ Some fragment.old.1 }
    ensures authority { authority.new ≡ slice_set authority.old fragment.old.0
        (Some (with_request (held_by fragment.old.1) _pass.now _request.now _told.now)) }
    ensures fragment { fragment.new ≡ (
      fragment.old.0,
      Some (with_request (held_by fragment.old.1) _pass.now _request.now _told.now),
    ) }
{
    authority.change_to::<N>(fragment);
}

/// Writes how many events there are into the authority and a pass's fragment, which had the same
/// value before.
fn write_flush<N: GhostValue<GhostPass>, B: AuthorityName>(
    authority: &mut Authority<GhostPass, B>,
    fragment: &mut Fragment<GhostPass, B>,
    _history: &History,
)
    requires { N.value ≡ record (held_by fragment.old.1) {
      flushed = event_count (core_in _history.now);
    } }
    ensures agrees { slice_get authority.old fragment.old.0 ≡ Some fragment.old.1 }
    ensures authority { authority.new ≡ slice_set authority.old fragment.old.0
        (Some (record (held_by fragment.old.1) { flushed = event_count (core_in _history.now) })) }
    ensures fragment { fragment.new ≡ (
      fragment.old.0,
      Some (record (held_by fragment.old.1) { flushed = event_count (core_in _history.now) }),
    ) }
{
    authority.change_to::<N>(fragment);
}

/// Takes in as many passes as are out.
fn take_all<B: AuthorityName>(authority: Authority<GhostPass, B>, passes: Vec<ClientPass<B>>)
    requires { length (passes_out authority) ≡ vec_len passes }
    ensures { AreAll authority passes.items }
{
    let mut authority = authority;
    let mut passes = passes;
    while let Some(pass) = passes.pop() {
        take_in(&mut authority, pass);
    }
}

/// Takes in a pass, whose contents are those that the authority has for it.
fn take_in<B: AuthorityName>(authority: &mut Authority<GhostPass, B>, pass: ClientPass<B>)
    ensures { (place : ℕ) × (slice_get authority.old place ≡ Some (Some pass))
        × (authority.new ≡ slice_set authority.old place None) }
{
    let ClientPass { fragment, .. } = pass;
    authority.take_back(fragment);
}
