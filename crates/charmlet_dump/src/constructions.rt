//! Pending constructions: messages that take a blank when they are delivered.

ghost use Rattle.std.specs.Prelude.{◌≡◌};
ghost use Rattle.charmlet_dump.specs.Constructing.{blank_in, constructions_in, is_of_kind};

use charmlet_model::{CONSTRUCT, Kind, Message};
use charmlet_reference::PlainWorld;

/// How many pending messages construct an element of this kind that isn't there. Each takes a blank
/// when it is delivered.
pub fn constructions(world: &PlainWorld, kind: Kind) -> usize
    ensures { result ≡ constructions_in world.now kind }
{
    let mut count = 0;
    for message in world.pending() {
        if constructs(world, message, kind) {
            count += 1;
        }
    }
    count
}

/// Whether a message constructs an element of this kind that isn't there.
fn constructs(world: &PlainWorld, message: &Message, kind: Kind) -> bool
    ensures { result ≡ is_of_kind (blank_in world.now message.now) kind }
{
    if message.entry != CONSTRUCT || world.state(message.to).is_some() {
        return false;
    }
    match world.manifest().kind_version_of(message.to.array) {
        Some(kind_version) => kind_version.kind().number() == kind.number(),
        None => false,
    }
}
