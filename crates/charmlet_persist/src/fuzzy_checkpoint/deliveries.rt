//! Deliveries while a checkpoint runs.

ghost use Rattle.std.specs.Prelude.{◌≡◌, ◌+◌, ◌≤◌, ◌++◌, not, is_some, length, vec_capacity, vec_len, None};
ghost use Rattle.indexmap.specs.IndexMap.{spare};
ghost use Rattle.std.specs.BTreeMap.{insert_entry};
ghost use Rattle.charmlet_model.specs.Names.{elem_cmp};
ghost use Rattle.charmlet_model.specs.Reaction.{greatest};
ghost use Rattle.charmlet_model.specs.Spelling.{spell_caught_up};
ghost use Rattle.charmlet_record.specs.Limits.{AreFewWords};
ghost use Rattle.charmlet_shelf.specs.Risen.{risen};
ghost use Rattle.charmlet_world.specs.Waiting.{message_of};
ghost use Rattle.charmlet_history.specs.Kept.{IsAssignedOutput, core_in};
ghost use Rattle.charmlet_persist.specs.FuzzyCheckpoint.Checkpoint.{IsRunning, effect_by, with_delivery, with_receiver};

use crate::fuzzy_checkpoint::captured_element::{CapturedElement, is_captured, put};
use crate::fuzzy_checkpoint::checkpoint::FuzzyCheckpoint;
use charmlet_chare::Output;
use charmlet_history::History;
use charmlet_model::{Effect, Elem, MsgId};
use charmlet_record::{write_elem, write_id, write_u8, write_u16, write_u64, write_words};
use charmlet_world::{Element, PendingMessage};
use indexmap::IndexMap;

impl FuzzyCheckpoint {
    /// Records the delivery of the processor's assigned message in the catch-up list, before it is
    /// added to the history. If the receiver is constructed or destroyed, it is captured, unless it
    /// was captured before. The caller adds the delivery to the history by another call, which has
    /// to follow, and may not be refused. It takes no memory, since there is room.
    pub fn record_delivery(&mut self, history: &History, processor: u16, output: &Output)
        requires running { IsRunning (core_in history.now) self.old }
        requires output { IsAssignedOutput (core_in history.now) processor output.now }
        requires room { 1 ≤ self.old.room }
        ensures { self.new ≡ with_delivery (core_in history.now) processor self.old }
    {
        history.facts();
        let Some((id, pending_message)) = history.assigned(processor) else {
            unreachable!()
        };
        let receiver = history.element(pending_message.to);
        let effect = effect_of(&receiver, output);
        write_delivery(
            &mut self.caught_up,
            id,
            pending_message,
            receiver.received + 1,
            effect,
        );
        capture(&mut self.captured, pending_message.to, &receiver, output);
        self.count += 1;
        self.room -= 1;
    }
}

/// The effect of a delivery on its receiver, from the receiver's row and its output.
fn effect_of(receiver: &Element, output: &Output) -> Effect
    ensures { result
        ≡ effect_by (is_some receiver.now.place) (not output.now.is_destroyed) }
{
    let was_there = receiver.place.is_some();
    if was_there == output.is_destroyed {
        if was_there {
            Effect::Destroyed
        } else {
            Effect::Constructed
        }
    } else {
        Effect::Stayed
    }
}

/// Captures the receiver of a delivery if it was constructed or destroyed, unless it is captured
/// already. It takes no memory.
fn capture(
    table: &mut IndexMap<Elem, Option<CapturedElement>>,
    elem: Elem,
    receiver: &Element,
    output: &Output,
)
    requires spare { 1 ≤ spare table.old }
    requires sent { receiver.now.sent + length output.now.sends ≤ greatest }
    requires received { receiver.now.received + 1 ≤ greatest }
    ensures captured { risen table.new.entries ≡ with_receiver (risen table.old.entries) elem
        (is_some receiver.now.place) (not output.now.is_destroyed) (record {
          sent = receiver.now.sent + length output.now.sends;
          received = receiver.now.received + 1;
          packed = None;
        }) }
    ensures room { spare table.old ≤ spare table.new + 1 }
{
    let is_known = is_captured(table, elem);
    if is_known {
        return;
    }
    let was_there = receiver.place.is_some();
    if !was_there {
        put_reserved(table, elem, None);
        return;
    }
    let is_destroyed = output.is_destroyed;
    if !is_destroyed {
        return;
    }
    let left = CapturedElement {
        sent: receiver.sent + output.sends.as_slice().len() as u64,
        received: receiver.received + 1,
        packed: None,
    };
    put_reserved(table, elem, Some(left));
}

/// Captures an element. There has to be room for it.
fn put_reserved(
    table: &mut IndexMap<Elem, Option<CapturedElement>>,
    elem: Elem,
    captured: Option<CapturedElement>,
)
    requires { 1 ≤ spare table.old }
    ensures captured { risen table.new.entries
        ≡ insert_entry elem_cmp (risen table.old.entries) elem captured }
    ensures room { spare table.old ≤ spare table.new + 1 }
{
    let Ok(()) = put(table, elem, captured) else {
        unreachable!()
    };
}

/// Writes a delivery of a catch-up list into the room that there is.
#[tactic(auto, using(charmlet_record::proofs::Lengths::lengths), unfolding(charmlet_model::specs::Spelling::spell_caught_up, charmlet_model::specs::Spelling::spell_message))]
fn write_delivery(
    out: &mut Vec<u8>,
    id: MsgId,
    pending_message: &PendingMessage,
    received: u64,
    effect: Effect,
)
    requires few { AreFewWords pending_message.now.words }
    requires room { vec_len out.old + length (spell_caught_up (record {
      message = message_of id pending_message.now;
      received = received;
      effect = effect;
    })) ≤ vec_capacity out.old }
    ensures bytes { out.new.items ≡ out.old.items ++ spell_caught_up (record {
      message = message_of id pending_message.now;
      received = received;
      effect = effect;
    }) }
    ensures capacity { vec_capacity out.old ≤ vec_capacity out.new }
{
    write_id(out, id);
    write_elem(out, pending_message.to);
    write_u16(out, pending_message.entry);
    write_words(out, &pending_message.words);
    write_u64(out, received);
    write_u8(out, effect.number());
}
