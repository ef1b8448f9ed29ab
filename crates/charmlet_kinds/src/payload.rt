//! Words of an entry's payload.

ghost use Rattle.std.specs.Prelude.{◌≡◌};
ghost use Rattle.charmlet_model.specs.Reaction.{word};

/// A word of a payload, or 0 if there is none.
pub fn word_at(payload: &[u64], index: usize) -> u64
    ensures { result ≡ word payload.now index }
{
    payload.get(index).copied().unwrap_or(0)
}
