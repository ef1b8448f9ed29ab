//! Reactions of objects to messages.

ghost use Rattle.std.specs.Prelude.{◌≡◌, ◌≤◌, ◌==◌, ◌&&◌, length, IfOk, OnErr};
ghost use Rattle.charmlet_model.specs.Reaction.{kind_version_of, react};
ghost use Rattle.charmlet_model.specs.declared.TheConstants.{CONSTRUCT};
ghost use Rattle.charmlet_shelf.specs.Receiving.{Becomes, IsConstructed, state_if};

use charmlet_chare::{Chare, Outbox, Output};
use charmlet_model::{CONSTRUCT, Elem};
use std::alloc::{AllocError, Global};

/// Runs an object's reaction to a message with this entry and these words. A construction
/// constructs a newcomer, and leaves a present object as it is. It fails only when out of memory,
/// and then the state is unchanged. An object that is destroyed keeps its state.
pub(crate) fn receive<C: Chare>(
    alloc: Global,
    object: &mut C,
    is_there: bool,
    to: Elem,
    entry: u16,
    words: &[u64],
) -> Result<Output, AllocError>
    requires { IsConstructed is_there entry }
    ensures ok { IfOk result (λ output. Becomes (react (kind_version_of (C.state object.old)) to
        (state_if is_there (C.state object.old)) entry words.now) output (C.state object.new)) }
    ensures few { IfOk result (λ output. length output.sends ≤ 16) }
    ensures kind_version { kind_version_of (C.state object.new)
        ≡ kind_version_of (C.state object.old) }
    ensures err { OnErr result (C.state object.new ≡ C.state object.old) }
{
    if stays(is_there, entry) {
        return Ok(Outbox::new(alloc).into_output());
    }
    let mut outbox = Outbox::new(alloc);
    object.enter(to, entry, words, &mut outbox)?;
    Ok(outbox.into_output())
}

/// Whether a message with this entry constructs an element that is there already, which leaves the
/// element as it is.
fn stays(is_there: bool, entry: u16) -> bool
    ensures { result ≡ (is_there && (entry == CONSTRUCT)) }
{
    is_there && entry == CONSTRUCT
}
