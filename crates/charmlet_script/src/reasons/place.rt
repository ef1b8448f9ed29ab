//! Why a well-spelled line may not stand in its place.

use crate::reasons::line::word_at;
use crate::reasons::table::{ARRAY, PES, is_of_header};
use crate::reasons::word::number_of;
use charmlet_model::MAX_ARRAYS;
use std::fmt;

/// Why a line of a header may not stand in its place, by the lines before it.
#[derive(Clone, Copy, Debug, PartialEq, Eq)]
pub(crate) enum PlaceFault {
    /// A line that isn't part of a header stands before it.
    OutOfPlace,
    /// A `pes` line stands before it.
    Twice,
    /// There are too many arrays.
    TooMany,
    /// The array has a line already.
    ArrayTwice,
}

/// Whether a line begins with this word.
fn begins_with(line: &[u8], word: &str) -> bool {
    word_at(line, 0).is_some_and(|first| first == word.as_bytes())
}

/// The array of an `array` line.
fn array_of(line: &[u8]) -> Option<u64> {
    if !begins_with(line, ARRAY) {
        return None;
    }
    number_of(word_at(line, 1)?)
}

/// Whether a line has words, and isn't part of a header.
fn is_after_header(line: &[u8]) -> bool {
    word_at(line, 0).is_some_and(|first| !is_of_header(first))
}

/// Why an `array` line may not stand after these lines, which are in a header.
fn array_fault(before: &[&[u8]], line: &[u8]) -> Option<PlaceFault> {
    let array = array_of(line)?;
    let many = before
        .iter()
        .filter(|line| begins_with(line, ARRAY))
        .count();
    if many >= MAX_ARRAYS {
        Some(PlaceFault::TooMany)
    } else if before.iter().any(|line| array_of(line) == Some(array)) {
        Some(PlaceFault::ArrayTwice)
    } else {
        None
    }
}

/// Why a well spelled line may not stand after these lines, if it may not.
pub(crate) fn place_fault(before: &[&[u8]], line: &[u8]) -> Option<PlaceFault> {
    let word = word_at(line, 0)?;
    if !is_of_header(word) {
        None
    } else if before.iter().any(|line| is_after_header(line)) {
        Some(PlaceFault::OutOfPlace)
    } else if word == PES.as_bytes() && before.iter().any(|line| begins_with(line, PES)) {
        Some(PlaceFault::Twice)
    } else if word == ARRAY.as_bytes() {
        array_fault(before, line)
    } else {
        None
    }
}

impl fmt::Display for PlaceFault {
    fn fmt<W: fmt::Write>(&self, f: &mut fmt::Formatter<W>) -> fmt::Result {
        match self {
            PlaceFault::OutOfPlace => write!(
                f,
                "is out of its place: it stands before all lines but 'array', 'pes' and 'handler'"
            ),
            PlaceFault::Twice => write!(f, "stands twice"),
            PlaceFault::TooMany => { write!(f, "is one too many: there are at most {MAX_ARRAYS}") }
            PlaceFault::ArrayTwice => write!(f, "stands twice for this array"),
        }
    }
}
