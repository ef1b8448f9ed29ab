//! An iteration over the sequence numbers of messages to one element, through a table of envelopes.

ghost use Rattle.std.specs.Prelude.{◌≡◌, ◌<◌, ◌≤◌, [], ◌∷◌, length, slice_get, take, Some, MatchOption, option_and_then};
ghost use Rattle.charmlet_world.specs.Envelopes.{call_of, calls_in};

use crate::envelope::Envelope;
use crate::pending_message::PendingMessage;
use charmlet_model::{CONSTRUCT, Elem, MsgId};
use charmlet_ready_queue::{Call, Chain};
use indexmap::IndexMap;
use std::marker::Model;

/// The sequence numbers that are left of the pending messages to an element, the youngest first. A
/// contract sees the calls.
#[derive(Drop)]
pub(crate) struct Calls<'a> {
    envelopes: &'a IndexMap<MsgId, Envelope>,
    to: Elem,
    /// The end of the envelopes that haven't been looked at.
    end: usize,
    /// How many calls are left, so that the search ends with the last one.
    count: usize,
}

impl<'a> Model for Calls<'a> {
    ghost use Rattle.std.specs.Prelude.{◌≡◌, List, take, length};
    ghost use Rattle.charmlet_ready_queue.specs.declared.index.chain.Call.{Call as ACall};
    ghost use Rattle.charmlet_world.specs.Envelopes.{calls_in};

    ghost Value = { List ACall };

    ghost view = { λ c. calls_in c.to (take c.end c.envelopes.now.entries) };

    ghost invariant = { λ c.
        c.count ≡ length (calls_in c.to (take c.end c.envelopes.now.entries)) };
}

impl<'a> Calls<'a> {
    /// The `count` calls of the element before place `end`.
    pub(crate) fn new(
        envelopes: &'a IndexMap<MsgId, Envelope>,
        to: Elem,
        end: usize,
        count: usize,
    ) -> Self
        requires { count ≡ length (calls_in to (take end envelopes.now.entries)) }
        ensures { result ≡ calls_in to (take end envelopes.now.entries) }
    {
        Calls {
            envelopes,
            to,
            end,
            count,
        }
    }
}

impl<'a> Chain for Calls<'a> {
    ghost left = { λ calls. calls };

    fn next(&mut self) -> Option<Call> {
        next_call(self.envelopes, self.to, &mut self.end, &mut self.count)
    }
}

/// The call of the last envelope before the end that has one, and the place of that envelope.
fn next_call(
    envelopes: &IndexMap<MsgId, Envelope>,
    to: Elem,
    end: &mut usize,
    count: &mut usize,
) -> Option<Call>
    requires { count.old ≡ length (calls_in to (take end.old envelopes.now.entries)) }
    ensures count { count.new ≡ length (calls_in to (take end.new envelopes.now.entries)) }
    ensures next { MatchOption result
        ((calls_in to (take end.old envelopes.now.entries) ≡ [])
        × (calls_in to (take end.new envelopes.now.entries) ≡ []))
        (λ call. calls_in to (take end.old envelopes.now.entries)
        ≡ call ∷ calls_in to (take end.new envelopes.now.entries)) }
{
    if *count == 0 {
        return None;
    }
    while *end > 0 {
        *end -= 1;
        if let Some(call) = call_at(envelopes, *end, to) {
            *count -= 1;
            return Some(call);
        }
    }
    None
}

/// The call of the envelope at this place, if there is one and its message goes to the element.
fn call_at(envelopes: &IndexMap<MsgId, Envelope>, place: usize, to: Elem) -> Option<Call>
    ensures { result ≡ option_and_then (λ e. call_of to e.1.seq e.1.pending_message)
        (slice_get envelopes.now.entries place) }
{
    let (_id, envelope) = envelopes.get_index(place)?;
    let pending_message = envelope.pending_message.as_ref()?;
    call_to(envelope.seq, pending_message, to)
}

/// The call of a pending message, if it goes to the element.
fn call_to(number: u64, pending_message: &PendingMessage, to: Elem) -> Option<Call>
    ensures { result ≡ call_of to number (Some pending_message.now) }
{
    if pending_message.to != to {
        return None;
    }
    Some(Call {
        number,
        constructs: pending_message.entry == CONSTRUCT,
    })
}
