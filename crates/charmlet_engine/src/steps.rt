//! Steps and runs.

ghost use Rattle.std.specs.Prelude.{◌≡◌, ◌≢◌, [], ◌∷◌, take, false, true, IfOk, OnErr};
ghost use Rattle.charmlet_model.specs.declared.refusal.Refusal.TheVariants as refusals;
ghost use Rattle.charmlet_model.specs.declared.step.Answer.TheVariants as answers;
ghost use Rattle.charmlet_model.specs.declared.step.Step.TheVariants as steps;
ghost use Rattle.charmlet_model.specs.Run.{Does, Runs};
ghost use Rattle.charmlet_model.specs.RunLaws.{AllTold, IsToldTrue};
ghost use Rattle.charmlet_disk.specs.Disk.{LeavesOnly, faults_after};
ghost use Rattle.charmlet_disk.specs.File.{MayLeave, CrashBytes};
ghost use Rattle.charmlet_engine.specs.Advances.{Advances};
ghost use Rattle.charmlet_engine.specs.Engine.{HasImage, core_of, supplied_of, view_of};
ghost use Rattle.charmlet_engine.specs.Lives.{Past, Remembers, with_run};
ghost use Rattle.charmlet_engine.specs.Outcomes.{AreFlushedAnyway, IsFlushedAnyway, IsOldOrImage, ends_with_image, faults_of_both_calls, is_image, is_lawful_now, is_no_fault, is_still};

use crate::engine::Engine;
use crate::memory::answer_in_memory;
use charmlet_chare::Chare;
use charmlet_disk::Disk;
use charmlet_model::{Answer, Step};
use charmlet_persist::{checkpoint, flush};
use std::alloc::AllocError;

impl<D: Disk, C: Chare> Engine<D, C> {
    /// Runs one step, and answers it. A refusal is an answer, and changes nothing, except `Device`:
    /// then the engine is halted. After a checkpoint the taken half has an image of all events and
    /// a log without a batch. A crash in a checkpoint leaves the world after the durable events, as
    /// it was, or the present world at the next generation, if the engine wasn't halted. A flush
    /// takes no memory.
    ///
    /// On an honest disk a crash at any moment of the call leaves files that recover to the world
    /// after some of the history, including all events that were durable before; and from then on
    /// all that are durable after it. What a client is told stays true over each crash and restart
    /// to come.
    pub fn step(&mut self, step: &Step) -> Answer
        ensures does { Does (view_of self.old) step.now result (view_of self.new) }
        ensures told { IsToldTrue (core_of self.new).opening
            (take (core_of self.new).durable (core_of self.new).history) step.now result }
        ensures remembers { (past : Past) → Remembers past (core_of self.old) → Remembers
            (with_run past (step.now ∷ []) (result ∷ [])) (core_of self.new) }
        ensures advances { Advances D.Disk self.old self.new }
        ensures now { D.honest self.old.disk → (outcome : CrashBytes) →
            MayLeave (D.file self.new.disk) outcome →
            is_lawful_now (core_of self.new) outcome }
        ensures image { D.honest self.old.disk → is_image result ≡ true → HasImage D.Disk self.new }
        ensures stored { D.honest self.old.disk → (core_of self.old).halted ≡ false →
            step.now ≡ steps.Checkpoint → LeavesOnly D.moment D.since self.old.disk
            self.new.disk (IsOldOrImage (core_of self.old)) }
        ensures flushed { IsFlushedAnyway step.now result }
        ensures still { is_still result ≡ true → self.new.disk ≡ self.old.disk }
        ensures supplied { supplied_of self.new ≡ supplied_of self.old }
        ensures counted { D.faults self.new.disk ≡ faults_after (is_no_fault result)
            (D.faults self.old.disk) }
    {
        self.facts();
        match step {
            Step::Flush => {
                let answer = self.flush();
                self.facts();
                answer
            }
            Step::Checkpoint => {
                let answer = self.checkpoint();
                self.facts();
                answer
            }
            _ => {
                let Some(answer) = answer_in_memory(&mut self.store, step) else {
                    unreachable!()
                };
                self.facts();
                answer
            }
        }
    }

    /// Makes all events durable. It takes no memory.
    fn flush(&mut self) -> Answer
        ensures does { Does (view_of self.old) steps.Flush result (view_of self.new) }
        ensures memory { result ≢ answers.Refused refusals.Memory }
        ensures advances { Advances D.Disk self.old self.new }
        ensures still { is_still result ≡ true → self.new.disk ≡ self.old.disk }
        ensures supplied { supplied_of self.new ≡ supplied_of self.old }
        ensures counted { D.faults self.new.disk ≡ faults_after (is_no_fault result)
            (D.faults self.old.disk) }
    {
        self.facts();
        match flush(&mut self.store.history, &mut self.halves) {
            Ok(durable) => Answer::Flushed(durable),
            Err(refusal) => Answer::Refused(refusal),
        }
    }

    /// Makes all events durable by an image, which replaces the store.
    fn checkpoint(&mut self) -> Answer
        ensures does { Does (view_of self.old) steps.Checkpoint result (view_of self.new) }
        ensures advances { Advances D.Disk self.old self.new }
        ensures image { D.honest self.old.disk → is_image result ≡ true → HasImage D.Disk self.new }
        ensures stored { D.honest self.old.disk → (core_of self.old).halted ≡ false →
            LeavesOnly D.moment D.since self.old.disk self.new.disk
            (IsOldOrImage (core_of self.old)) }
        ensures still { is_still result ≡ true → self.new.disk ≡ self.old.disk }
        ensures supplied { supplied_of self.new ≡ supplied_of self.old }
        ensures counted { D.faults self.new.disk ≡ faults_after (is_no_fault result)
            (D.faults self.old.disk) }
    {
        self.facts();
        let shelves = self.store.shelves.as_mut_slice();
        let taken = checkpoint(
            self.store.alloc,
            &mut self.store.history,
            &mut self.halves,
            shelves,
        );
        match taken {
            Ok(generation) => Answer::Checkpointed(generation),
            Err(refusal) => Answer::Refused(refusal),
        }
    }

    /// Runs the steps one after another, and gives an answer for each. Room for all answers is made
    /// first; if it is refused, no step was done.
    ///
    /// Everything that clients are told in the run is true of the events that are durable when it
    /// ends. On an honest disk a crash at any moment of the run leaves files that recover to the
    /// world after some of the history, including all events that were durable before the run; and
    /// from then on all that are durable when it ends. `Device` is answered only if the disk's
    /// count of failures grew.
    pub fn run(&mut self, steps: &[Step]) -> Result<Vec<Answer>, AllocError>
        ensures ok { IfOk result (λ answers. Runs (view_of self.old) steps.now answers.items
            (view_of self.new)) }
        ensures told { IfOk result (λ answers. AllTold (core_of self.new).opening
            (take (core_of self.new).durable (core_of self.new).history) steps.now answers.items) }
        ensures remembers { (past : Past) → Remembers past (core_of self.old) →
            IfOk result (λ answers. Remembers (with_run past steps.now answers.items)
            (core_of self.new)) }
        ensures advances { Advances D.Disk self.old self.new }
        ensures now { D.honest self.old.disk → (outcome : CrashBytes) →
            MayLeave (D.file self.new.disk) outcome →
            is_lawful_now (core_of self.new) outcome }
        ensures image { D.honest self.old.disk → IfOk result (λ answers.
            ends_with_image answers.items ≡ true → HasImage D.Disk self.new) }
        ensures flushed { IfOk result (λ answers. AreFlushedAnyway steps.now answers.items) }
        ensures supplied { supplied_of self.new ≡ supplied_of self.old }
        ensures counted { IfOk result (λ answers. D.faults self.new.disk
            ≡ faults_of_both_calls answers.items (D.faults self.old.disk)) }
        ensures err { OnErr result (self.new ≡ self.old) }
    {
        self.facts();
        let mut answers = Vec::with_capacity(self.store.alloc, steps.len())?;
        for step in steps {
            let answer = self.step(step);
            self.facts();
            answers.push_reserved(answer);
        }
        Ok(answers)
    }
}
