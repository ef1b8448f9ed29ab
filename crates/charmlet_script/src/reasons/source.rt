//! The lines of a script's text.

use crate::MAX_LENGTH;
use std::alloc::{AllocError, Global};

/// The stand-in for unknown bytes past a script's greatest length.
const UNKNOWN: [u8; 1] = [255];

/// The last line of a script that is too long.
#[derive(Clone, Copy, Debug)]
struct LongLine<'a> {
    /// The known part of the line, including bytes past the script's greatest length.
    text: &'a [u8],
    /// Whether the first byte past the greatest length is the line feed that ends the line.
    ends: bool,
}

/// The lines of a script's text.
#[derive(Debug, Drop)]
pub(crate) struct Source<'a> {
    /// The part of each line within the script's greatest length, without its line feed.
    lines: Vec<&'a [u8]>,
    /// The last one, if the script is too long.
    long: Option<LongLine<'a>>,
}

/// The parts of a text between its line feeds.
fn split_lines<'a>(alloc: Global, text: &'a [u8]) -> Result<Vec<&'a [u8]>, AllocError> {
    text.split(|byte| *byte == b'\n').collect(alloc)
}

/// Whether a line ends with a carriage return.
fn ends_with_return(line: &[u8]) -> bool {
    line.ends_with(b"\r")
}

impl<'a> Source<'a> {
    /// The lines of a text, up to the line with the first byte past a script's greatest length. A
    /// single byte 255 stands for unknown bytes past it.
    pub(crate) fn new(alloc: Global, text: &'a [u8]) -> Result<Self, AllocError> {
        if text.len() <= MAX_LENGTH {
            let lines = split_lines(alloc, text.strip_suffix(b"\n").unwrap_or(text))?;
            return Ok(Source { lines, long: None });
        }
        let (within, past) = text.split_at(MAX_LENGTH);
        let lines = split_lines(alloc, within)?;
        let known = if past == UNKNOWN.as_slice() {
            within
        } else {
            text
        };
        let last = lines.len().saturating_sub(1);
        let long = LongLine {
            text: known.split(|byte| *byte == b'\n').nth(last).unwrap_or(&[]),
            ends: past.starts_with(b"\n"),
        };
        Ok(Source {
            lines,
            long: Some(long),
        })
    }

    /// The part of each line within the script's greatest length.
    pub(crate) fn lines(&self) -> &[&'a [u8]] {
        self.lines.as_slice()
    }

    /// Whether the script is too long.
    pub(crate) fn is_long(&self) -> bool {
        self.long.is_some()
    }

    /// The last line, if the script is too long, and the line has this place.
    fn long_line(&self, place: usize) -> Option<LongLine<'a>> {
        if place.saturating_add(1) == self.lines.len() {
            self.long
        } else {
            None
        }
    }

    /// A line as it is shown, including the known bytes past the script's greatest length.
    pub(crate) fn whole_line(&self, place: usize) -> &'a [u8] {
        match self.long_line(place) {
            Some(long) => long.text,
            None => self.lines.get(place).copied().unwrap_or(&[]),
        }
    }

    /// Whether this line has, or ends with, the first byte past the script's greatest length.
    pub(crate) fn is_too_long(&self, place: usize) -> bool {
        self.long_line(place).is_some()
    }

    /// The column in the last line of the first byte past the script's greatest length, counted
    /// from 1, unless that byte ends the line.
    pub(crate) fn column_past(&self) -> Option<u64> {
        match (self.long, self.lines.last()) {
            (Some(LongLine { ends: false, .. }), Some(last)) => {
                Some((last.len() as u64).saturating_add(1))
            }
            _ => None,
        }
    }

    /// Whether all lines end as on Windows. The last one may lack its carriage return.
    pub(crate) fn has_returns(&self) -> bool {
        match self.lines.as_slice() {
            [] => false,
            [only] => ends_with_return(only),
            [others @ .., _] => others.iter().all(|line| ends_with_return(line)),
        }
    }
}
