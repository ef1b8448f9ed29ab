//! Searches for seats and passes in their lists.

ghost use Rattle.std.specs.Prelude.{◌<◌, IfSome, length};

use charmlet_hub::{PassesOf, SeatsOf};
use charmlet_leases::{ClientPass, Seat};
use charmlet_sequencer::RuntimeName;

/// The place of a processor's seat.
pub(crate) fn place_of_seat<B: RuntimeName>(
    seats: &[Seat<SeatsOf<B>>],
    processor: u16,
) -> Option<usize>
    ensures { IfSome result (λ place. place < length seats.now) }
{
    for place in 0..seats.len() {
        if seats[place].processor() == processor {
            return Some(place);
        }
    }
    None
}

/// The place of a client's pass.
pub(crate) fn place_of_pass<B: RuntimeName>(
    passes: &[ClientPass<PassesOf<B>>],
    client: u32,
) -> Option<usize>
    ensures { IfSome result (λ place. place < length passes.now) }
{
    for place in 0..passes.len() {
        if passes[place].client() == client {
            return Some(place);
        }
    }
    None
}
