//! Texts cut into their parts.

ghost use Rattle.std.specs.Prelude.{◌≡◌, IfOk, map};
ghost use Rattle.charmlet_script.specs.Line.{parts_of, words_of};

use std::alloc::{AllocError, Global};

/// The parts of a text between its separators.
pub(crate) fn parts(alloc: Global, text: &[u8], separator: u8) -> Result<Vec<&[u8]>, AllocError>
    ensures { IfOk result (λ v. map (λ part. part.now) v.items ≡ parts_of separator text.now) }
{
    text.split(|b| *b == separator).collect(alloc)
}

/// The words of a line: its runs of bytes other than a space.
pub(crate) fn words(alloc: Global, line: &[u8]) -> Result<Vec<&[u8]>, AllocError>
    ensures { IfOk result (λ v. map (λ word. word.now) v.items ≡ words_of line.now) }
{
    line.split(|b| *b == b' ')
        .filter(|word| !word.is_empty())
        .collect(alloc)
}
