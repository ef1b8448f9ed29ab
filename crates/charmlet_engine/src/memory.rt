//! Steps that write nothing to the disk.

ghost use Rattle.std.specs.Prelude.{◌≡◌, ◌≢◌, ◌⊎◌, None, false, true, IfSome};
ghost use Rattle.charmlet_model.specs.declared.step.Step.TheVariants as steps;
ghost use Rattle.charmlet_model.specs.Run.{Does};
ghost use Rattle.charmlet_history.specs.Kept.{core_in};
ghost use Rattle.charmlet_persist.specs.Writes.Quiet.{Quiet};
ghost use Rattle.charmlet_store.specs.Store.{store_in, supplied_in};
ghost use Rattle.charmlet_engine.specs.Engine.{client_answer};
ghost use Rattle.charmlet_engine.specs.Outcomes.{is_image, is_no_fault, is_still};

use charmlet_chare::Chare;
use charmlet_history::Request;
use charmlet_model::{Answer, Refusal, Step, Told};
use charmlet_store::Store;

/// Runs a step that writes nothing to the disk, and answers it. For a step that writes, it does
/// nothing, and returns `None`.
pub(crate) fn answer_in_memory<C: Chare>(store: &mut Store<C>, step: &Step) -> Option<Answer>
    ensures does { IfSome result (λ answer. Does (store_in store.old) step.now answer
        (store_in store.new)) }
    ensures quiet { Quiet (core_in store.old.history) (core_in store.new.history) }
    ensures no_fault { IfSome result (λ answer. is_no_fault answer ≡ true) }
    ensures still { IfSome result (λ answer. is_still answer ≡ true) }
    ensures no_image { IfSome result (λ answer. is_image answer ≡ false) }
    ensures writes { result ≡ None → (step.now ≡ steps.Flush) ⊎ (step.now ≡ steps.Checkpoint) }
    ensures quietly { IfSome result (λ _. (step.now ≢ steps.Flush)
        × (step.now ≢ steps.Checkpoint)) }
    ensures none { result ≡ None → store.new ≡ store.old }
    ensures supplied { supplied_in store.new ≡ supplied_in store.old }
    ensures keeping { store.new.keeping ≡ store.old.keeping }
{
    match step {
        Step::Request {
            client,
            number,
            to,
            entry,
            words,
        } => {
            let request = Request {
                number: *number,
                to: *to,
                entry: *entry,
                words: words.as_slice(),
            };
            Some(told_or_refused(store.request(*client, &request)))
        }
        Step::Status { client, number } => Some(told_or_refused(store.status(*client, *number))),
        Step::Deliver { processor, id } => match store.deliver(*processor, *id) {
            Ok(()) => Some(Answer::Delivered(*id)),
            Err(refusal) => Some(Answer::Refused(refusal)),
        },
        Step::Move { elem, processor } => match store.relocate(*elem, *processor) {
            Ok(()) => Some(Answer::Moved {
                elem: *elem,
                processor: *processor,
            }),
            Err(refusal) => Some(Answer::Refused(refusal)),
        },
        Step::Flush | Step::Checkpoint => None,
    }
}

/// The answer to a request or a status.
fn told_or_refused(told: Result<Told, Refusal>) -> Answer
    ensures { result ≡ client_answer told }
{
    match told {
        Ok(told) => Answer::Told(told),
        Err(refusal) => Answer::Refused(refusal),
    }
}
