//! The search for a sequence number in a table of envelopes.

ghost use Rattle.std.specs.Prelude.{◌≡◌, ◌<◌, ◌≤◌, false, length, slice_get, Some, None, IfSome};
ghost use Rattle.charmlet_ready_queue.specs.SeqNos.SeqNos.{Climbs};
ghost use Rattle.charmlet_ready_queue.specs.Index.Index.{holds};
ghost use Rattle.charmlet_world.specs.Waiting.{seqs};

use crate::envelope::Envelope;
use charmlet_model::MsgId;
use indexmap::IndexMap;

/// The place of the envelope with this sequence number. The search tries a place near this one
/// first, then the place if none of the younger envelopes has left a gap, and then the place if
/// none of the older ones has.
pub(crate) fn envelope_of(
    envelopes: &IndexMap<MsgId, Envelope>,
    near: usize,
    number: u64,
) -> Option<usize>
    requires { Climbs (seqs envelopes.now.entries) }
    ensures found { IfSome result (λ i. slice_get (seqs envelopes.now.entries) i ≡ Some number) }
    ensures nowhere { result ≡ None → holds number (seqs envelopes.now.entries) ≡ false }
{
    let len = envelopes.len();
    if near < len && seq_at(envelopes, near) == number {
        return Some(near);
    }
    if len == 0 {
        return None;
    }
    let first = seq_at(envelopes, 0);
    let last = seq_at(envelopes, len - 1);
    let younger = last.saturating_sub(number);
    let guess = (len - 1).saturating_sub(younger as usize);
    let mut second = number.saturating_sub(first) as usize;
    let mut low = 0;
    let mut high = len;
    let mut middle = within(0, len, guess);
    while low < high {
        let here = seq_at(envelopes, middle);
        if here == number {
            return Some(middle);
        }
        if here < number {
            low = middle + 1;
        } else {
            high = middle;
        }
        middle = within(low, high, second);
        second = len;
    }
    None
}

/// The sequence number of the envelope at this place.
fn seq_at(envelopes: &IndexMap<MsgId, Envelope>, place: usize) -> u64
    requires { place < length envelopes.now.entries }
    ensures { slice_get (seqs envelopes.now.entries) place ≡ Some result }
{
    envelopes[place].seq
}

/// The guess, if it is between the two places, or the middle otherwise.
fn within(low: usize, high: usize, guess: usize) -> usize
    ensures from { low < high → low ≤ result }
    ensures to { low < high → result < high }
{
    if low <= guess && guess < high {
        return guess;
    }
    low + high.saturating_sub(low) / 2
}
