//! Copies of words.

ghost use Rattle.std.specs.Prelude.{◌≡◌, IfOk};

use charmlet_model::Words;
use std::alloc::{AllocError, Global};
use std::mem;

/// Copies words into this memory, which gets larger only if it is too small. It fails only when out
/// of memory. The former contents of the memory are lost.
pub(crate) fn copy_words(
    alloc: Global,
    memory: &mut Vec<u64>,
    words: &[u64],
) -> Result<Words, AllocError>
    ensures { IfOk result (λ copy. copy ≡ words.now) }
{
    let mut copy = mem::replace(memory, Vec::new(alloc));
    copy.clear();
    copy.extend_from_slice(words)?;
    Ok(Words::new(copy))
}
