//! Words that are message ids.

ghost use Rattle.std.specs.Prelude.{◌≡◌, map};
ghost use Rattle.charmlet_script.specs.Line.{client_id, element_id, id_of};
ghost use Rattle.charmlet_script.specs.Reading.{Spells};

use crate::error::LineFault;
use crate::number::{u16_of, u32_of, u64_of};
use crate::split::parts;
use charmlet_model::{Elem, MsgId, Origin};
use std::alloc::Global;

/// `C.N`, the id of a client's message.
#[tactic(auto, unfolding(crate::specs::Line::client_id))]
fn client_id(parts: &[&[u8]]) -> Option<MsgId>
    ensures { result ≡ client_id (map (λ part. part.now) parts.now) }
{
    let [client, number] = parts else {
        return None;
    };
    let origin = Origin::Client(u32_of(client)?);
    let number = u64_of(number)?;
    Some(MsgId { origin, number })
}

/// `A.I.N`, the id of an element's message.
#[tactic(auto, unfolding(crate::specs::Line::element_id))]
fn element_id(parts: &[&[u8]]) -> Option<MsgId>
    ensures { result ≡ element_id (map (λ part. part.now) parts.now) }
{
    let [array, index, number] = parts else {
        return None;
    };
    let array = u16_of(array)?;
    let index = u64_of(index)?;
    let origin = Origin::Element(Elem { array, index });
    let number = u64_of(number)?;
    Some(MsgId { origin, number })
}

/// A message id: `cC.N` of client C, or `eA.I.N` of the element (A, I).
#[tactic(auto, unfolding(crate::specs::Line::id_of))]
pub(crate) fn id_of(alloc: Global, word: &[u8]) -> Result<MsgId, LineFault>
    ensures { Spells result (id_of word.now) }
{
    match word {
        [b'c', rest @ ..] => {
            let parts = parts(alloc, rest, b'.')?;
            client_id(&parts).ok_or(LineFault::Malformed)
        }
        [b'e', rest @ ..] => {
            let parts = parts(alloc, rest, b'.')?;
            element_id(&parts).ok_or(LineFault::Malformed)
        }
        _ => Err(LineFault::Malformed),
    }
}
