//! Words that are numbers.

ghost use Rattle.std.specs.Prelude.{◌≡◌, map};
ghost use Rattle.charmlet_script.specs.Line.{count_up_to, kind_of, number_of, numbers_of};
ghost use Rattle.charmlet_script.specs.Reading.{Spells};

use crate::error::LineFault;
use charmlet_model::{Kind, Words};
use std::alloc::Global;

/// The most blanks that one line supplies.
pub const MAX_BLANKS: u32 = 10_000;

/// The most messages that one line delivers.
pub const MAX_DELIVERIES: u32 = 1_000_000;

/// A decimal 64-bit number. `parse` alone would take a sign too.
#[tactic(auto, unfolding(crate::specs::Line::number_of))]
pub(crate) fn u64_of(word: &[u8]) -> Option<u64>
    ensures { result ≡ number_of 64 word.now }
{
    if !word.iter().all(|b| b.is_ascii_digit()) {
        return None;
    }
    let Ok(text) = std::str::from_utf8(word) else {
        return None;
    };
    match text.parse::<u64>() {
        Ok(number) => Some(number),
        Err(_) => None,
    }
}

/// A decimal 32-bit number.
pub(crate) fn u32_of(word: &[u8]) -> Option<u32>
    ensures { result ≡ number_of 32 word.now }
{
    let number = u64_of(word)?;
    if number <= u64::from(u32::MAX) {
        Some(number as u32)
    } else {
        None
    }
}

/// A decimal 16-bit number.
pub(crate) fn u16_of(word: &[u8]) -> Option<u16>
    ensures { result ≡ number_of 16 word.now }
{
    let number = u64_of(word)?;
    if number <= u64::from(u16::MAX) {
        Some(number as u16)
    } else {
        None
    }
}

/// A kind, by its number, 1 to 6.
#[tactic(auto, unfolding(crate::specs::Line::kind_of))]
pub(crate) fn kind_of(word: &[u8]) -> Option<Kind>
    ensures { result ≡ kind_of word.now }
{
    Kind::of_number(u16_of(word)?)
}

/// A decimal 32-bit number that is at most `most`.
#[tactic(auto, unfolding(crate::specs::Line::count_up_to))]
pub(crate) fn count_up_to(most: u32, word: &[u8]) -> Option<u32>
    ensures { result ≡ count_up_to most word.now }
{
    let count = u32_of(word)?;
    if count <= most { Some(count) } else { None }
}

/// Each word as a 64-bit number.
pub(crate) fn numbers(alloc: Global, words: &[&[u8]]) -> Result<Words, LineFault>
    ensures { Spells result (numbers_of (map (λ word. word.now) words.now)) }
{
    let mut numbers = Vec::new(alloc);
    for word in words {
        let Some(number) = u64_of(word) else {
            return Err(LineFault::Malformed);
        };
        numbers.push(number)?;
    }
    Ok(Words::new(numbers))
}
