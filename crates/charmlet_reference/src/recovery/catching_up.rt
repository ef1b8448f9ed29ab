//! The first round: the deliveries that were made while an image was taken.

ghost use Rattle.std.specs.Prelude.{◌≡◌, true, None, IfOk, option_copied};
ghost use Rattle.charmlet_model.specs.Logging.{effect_between};
ghost use Rattle.charmlet_model.specs.World.{record_of, reaction_of};
ghost use Rattle.charmlet_recovery.specs.Bases.{is_skipped, redelivered, redelivered_all};
ghost use Rattle.charmlet_recovery.specs.Faults.{catch_up_tests, first_failure, has_effect, is_caught_up, is_next_delivery, same_effect};

use crate::PlainWorld;
use charmlet_model::{CatchUpEntry, Effect, Message, State};
use std::alloc::AllocError;

/// Makes the deliveries of a catch-up list, in order, up to the first faulty one, and returns the
/// place of that one, if there is any. A delivery that its receiver's record already has is
/// skipped. It fails only when out of memory.
pub fn catch_up(
    plain: &mut PlainWorld,
    deliveries: &[CatchUpEntry],
) -> Result<Option<usize>, AllocError>
    ensures fault { IfOk result (λ place. place ≡ first_failure (catch_up_tests plain.old.manifest
        plain.old.records deliveries.now)) }
    ensures made { IfOk result (λ place. place ≡ None → plain.new ≡ record plain.old {
      records = redelivered_all plain.old.manifest plain.old.records deliveries.now;
    }) }
{
    for place in 0..deliveries.len() {
        if !redeliver(plain, &deliveries[place])? {
            return Ok(Some(place));
        }
    }
    Ok(None)
}

/// Makes a delivery, or skips it, and returns whether it is free of fault. It fails only when out
/// of memory.
fn redeliver(plain: &mut PlainWorld, delivery: &CatchUpEntry) -> Result<bool, AllocError>
    ensures good { IfOk result (λ good. good ≡ is_caught_up plain.old.manifest (record_of plain.old
        delivery.now.message.to) delivery.now) }
    ensures made { IfOk result (λ good. good ≡ true → plain.new ≡ record plain.old {
      records = redelivered plain.old.manifest plain.old.records delivery.now;
    }) }
{
    if is_skipped(plain, delivery) {
        return Ok(true);
    }
    if !is_next_delivery(plain, delivery)? {
        return Ok(false);
    }
    plain.redeliver(&delivery.message)?;
    Ok(true)
}

/// Whether the receiver's record has the delivery already.
fn is_skipped(plain: &PlainWorld, delivery: &CatchUpEntry) -> bool
    ensures { result ≡ is_skipped (record_of plain.now delivery.now.message.to) delivery.now }
{
    let (_, received) = plain.counts(delivery.message.to);
    delivery.received <= received
}

/// Whether the delivery is its receiver's next one, can be made, and has the effect that is
/// written. It fails only when out of memory.
fn is_next_delivery(plain: &PlainWorld, delivery: &CatchUpEntry) -> Result<bool, AllocError>
    ensures { IfOk result (λ good. good ≡ is_next_delivery plain.now.manifest (record_of plain.now
        delivery.now.message.to) delivery.now) }
{
    let (_, received) = plain.counts(delivery.message.to);
    if received.checked_add(1) != Some(delivery.received) || !plain.can_receive(&delivery.message) {
        return Ok(false);
    }
    has_effect(plain, &delivery.message, delivery.effect)
}

/// Whether there is a reaction to the message, and it has the effect. It fails only when out of
/// memory.
fn has_effect(plain: &PlainWorld, message: &Message, effect: Effect) -> Result<bool, AllocError>
    ensures { IfOk result (λ good. good ≡ has_effect (record_of plain.now message.now.to)
        (reaction_of plain.now message.now) effect) }
{
    match plain.reaction(message)? {
        Some(reaction) => {
            let made = effect_between(plain.state(message.to), reaction.state.as_ref());
            Ok(made == effect)
        }
        None => Ok(false),
    }
}

/// The effect that leads from one state to the other.
pub(crate) fn effect_between(before: Option<&State>, after: Option<&State>) -> Effect
    ensures { result ≡ effect_between (option_copied before.entry) (option_copied after.entry) }
{
    match (before.is_some(), after.is_some()) {
        (false, true) => Effect::Constructed,
        (true, false) => Effect::Destroyed,
        _ => Effect::Stayed,
    }
}
