//! The second round: the pending messages.

ghost use Rattle.std.specs.Prelude.{◌≡◌};
ghost use Rattle.charmlet_model.specs.Row.{awaits};
ghost use Rattle.charmlet_recovery.specs.Faults.{first_failure, pending_tests, was_sent};

use crate::PlainWorld;
use charmlet_model::{ClientRow, MsgId, Origin};

/// The place of the first pending message that its element didn't send, or its client doesn't wait
/// for.
pub fn first_unsent(plain: &PlainWorld) -> Option<usize>
    ensures { result ≡ first_failure (pending_tests plain.now plain.now.pending) }
{
    let messages = plain.pending();
    for place in 0..messages.len() {
        if !was_sent(plain, messages[place].id) {
            return Some(place);
        }
    }
    None
}

/// Whether the message's element has sent at least as many messages as its number says, or its
/// client's window has the number, without a reply.
fn was_sent(plain: &PlainWorld, id: MsgId) -> bool
    ensures { result ≡ was_sent plain.now id.origin id.number }
{
    match id.origin {
        Origin::Element(elem) => {
            let (sent, _) = plain.counts(elem);
            id.number <= sent
        }
        Origin::Client(client) => match plain.client(client) {
            Some(row) => awaits(row, id.number),
            None => awaits(&ClientRow::new(), id.number),
        },
    }
}

/// Whether the client's window has the number, without a reply.
fn awaits(row: &ClientRow, number: u64) -> bool
    ensures { result ≡ awaits row.now number }
{
    row.in_window(number) && row.reply(number).is_none()
}
