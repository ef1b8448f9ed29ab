//! Explanations of malformed lines.

use crate::reasons::line::{BeginningFault, LineFault, line_fault, word_at, words_of};
use crate::reasons::near::Search;
use crate::reasons::place::place_fault;
use crate::reasons::reason::Reason;
use crate::reasons::setting::{Purpose, Setting};
use crate::reasons::shown::Shown;
use crate::reasons::source::Source;
use crate::reasons::table::{ARRAY, beginnings, form_of};
use std::alloc::{AllocError, Global};
use std::fmt;

/// A line, and why it is malformed.
#[derive(Clone, Copy, Debug)]
struct Fault<'a> {
    line: &'a [u8],
    reason: Reason<'a>,
}

/// Why a line of a script is malformed. It is printed as that line and the reason below it, without
/// a line feed at the end. If the script has no `array` line, a line that begins like one stands
/// below them in the same way.
#[derive(Clone, Copy, Debug)]
pub struct Explanation<'a> {
    fault: Fault<'a>,
    near: Option<Fault<'a>>,
}

/// The search for the reasons in one script.
#[derive(Drop)]
struct Explainer<'a> {
    alloc: Global,
    setting: Setting,
    source: Source<'a>,
    /// The words with which the script's lines begin.
    beginnings: Vec<&'static [u8]>,
    search: Search,
}

/// Explains why this line of a script is malformed. Lines count from 1.
///
/// `text` is the script as `crate::ScriptText` has it, or as it was read, with any part of the
/// bytes past its greatest length. `line` is the one that `ReadError::Malformed` names. For a line
/// that isn't malformed the explanation is that it spells nothing.
pub fn explain<'a>(
    alloc: Global,
    text: &'a [u8],
    line: u64,
    setting: Setting,
) -> Result<Explanation<'a>, AllocError> {
    let mut explainer = Explainer {
        alloc,
        setting,
        source: Source::new(alloc, text)?,
        beginnings: beginnings(alloc, setting)?,
        search: Search::new(),
    };
    let place = (line as usize).saturating_sub(1);
    if explainer.has_line_ends(place) {
        return Ok(explainer.explanation(place, Reason::LineEnds));
    }
    if explainer.has_no_array()? {
        return explainer.no_array();
    }
    let reason = explainer.reason(place)?;
    Ok(explainer.explanation(place, reason))
}

/// Whether a line has the word `array` first, except for bytes that aren't printed.
fn begins_like_array(line: &[u8]) -> bool {
    let start = line.iter().position(|byte| byte.is_ascii_graphic());
    let printed = start.and_then(|start| line.get(start..)).unwrap_or(&[]);
    match printed.strip_prefix(ARRAY.as_bytes()) {
        Some([]) => true,
        Some([next, ..]) => !next.is_ascii_graphic(),
        None => false,
    }
}

/// Whether the reason is that the line's first word is unknown, but near to `array`.
fn is_near_array(reason: Reason<'_>) -> bool {
    match reason {
        Reason::Line(
            LineFault::Beginning {
                fault: BeginningFault::Unknown(Some(meant)),
                ..
            },
        ) => meant == ARRAY.as_bytes(),
        _ => false,
    }
}

/// The number of the line in a place.
fn number_of(place: usize) -> u64 {
    (place as u64).saturating_add(1)
}

/// The first byte of a line that isn't ASCII.
fn not_ascii<'a>(line: &[u8]) -> Option<Reason<'a>> {
    let place = line.iter().position(|byte| !byte.is_ascii())?;
    let byte = *line.get(place)?;
    Some(Reason::NotAscii {
        byte,
        column: number_of(place),
    })
}

impl<'a> Explainer<'a> {
    fn explanation(&self, place: usize, reason: Reason<'a>) -> Explanation<'a> {
        let line = self.source.whole_line(place);
        Explanation {
            fault: Fault { line, reason },
            near: None,
        }
    }

    /// Whether the line in this place is malformed by the line ends of Windows, which all lines
    /// have. A comment in a restart's script isn't: it may end with a carriage return.
    fn has_line_ends(&self, place: usize) -> bool {
        let may_end_so = self.setting.purpose == Purpose::Restart
            && self.source.whole_line(place).starts_with(b"#");
        self.source.has_returns() && !may_end_so
    }

    /// Why the words of a line spell nothing here, if they don't.
    fn words_reason(&mut self, line: &'a [u8]) -> Result<Option<Reason<'a>>, AllocError> {
        let words = words_of(self.alloc, line)?;
        let [word, rest @ ..] = words.as_slice() else {
            return Ok(Some(Reason::SpacesAlone));
        };
        let absence = form_of(word).and_then(|form| form.absence_in(self.setting));
        if let Some(absence) = absence {
            return Ok(Some(Reason::Absent { word, absence }));
        }
        let fault = line_fault(self.alloc, &mut self.search, &self.beginnings, word, rest)?;
        Ok(fault.map(Reason::Line))
    }

    /// Why the line in this place is malformed wherever it stands, if it is.
    fn spelling_reason(&mut self, place: usize) -> Result<Option<Reason<'a>>, AllocError> {
        let Some(line) = self.source.lines().get(place).copied() else {
            return Ok(None);
        };
        if place == 0 && line.starts_with(b"\xef\xbb\xbf") {
            return Ok(Some(Reason::ByteOrderMark));
        }
        if let Some(reason) = not_ascii(line) {
            return Ok(Some(reason));
        }
        if self.source.is_too_long(place) {
            return Ok(Some(Reason::TooLong {
                length: self.setting.length,
                line: number_of(place),
                column: self.source.column_past(),
            }));
        }
        if line.is_empty() || line.starts_with(b"#") {
            return Ok(None);
        }
        self.words_reason(line)
    }

    /// Why the line in this place may not stand there, if it may not.
    fn place_reason(&self, place: usize) -> Option<Reason<'a>> {
        let lines = self.source.lines();
        let line = lines.get(place)?;
        let word = word_at(line, 0)?;
        let fault = place_fault(lines.get(..place)?, line)?;
        Some(Reason::Place { word, fault })
    }

    /// Why the line in this place is malformed, if each line before it is well formed.
    fn reason(&mut self, place: usize) -> Result<Reason<'a>, AllocError> {
        match self.spelling_reason(place)? {
            Some(reason) => Ok(reason),
            None => Ok(self.place_reason(place).unwrap_or(Reason::Nothing)),
        }
    }

    /// Whether it is a run's script in which no line spells an array.
    fn has_no_array(&mut self) -> Result<bool, AllocError> {
        if self.setting.purpose == Purpose::Restart {
            return Ok(false);
        }
        for place in 0..self.source.lines().len() {
            let word = word_at(self.source.whole_line(place), 0);
            let is_array = word.is_some_and(|word| word == ARRAY.as_bytes());
            if is_array && self.spelling_reason(place)?.is_none() {
                return Ok(false);
            }
        }
        Ok(true)
    }

    /// The first line that begins like an `array` line but isn't one, and why.
    fn near_array(&mut self) -> Result<Option<(usize, Reason<'a>)>, AllocError> {
        for place in 0..self.source.lines().len() {
            if let Some(reason) = self.spelling_reason(place)? {
                if is_near_array(reason) || begins_like_array(self.source.whole_line(place)) {
                    return Ok(Some((place, reason)));
                }
            }
        }
        Ok(None)
    }

    /// Why the first line of a run's script is malformed if no line spells an array.
    fn no_array(&mut self) -> Result<Explanation<'a>, AllocError> {
        let is_long = self.source.is_long();
        match self.near_array()? {
            None => Ok(self.explanation(
                0,
                Reason::NoArray {
                    is_long,
                    near: None,
                },
            )),
            Some((0, reason)) => Ok(self.explanation(0, reason)),
            Some((place, reason)) => {
                let near = Some(number_of(place));
                let first = self.explanation(0, Reason::NoArray { is_long, near });
                let line = self.source.whole_line(place);
                Ok(Explanation {
                    fault: first.fault,
                    near: Some(Fault { line, reason }),
                })
            }
        }
    }
}

impl<'a> fmt::Display for Fault<'a> {
    fn fmt<W: fmt::Write>(&self, f: &mut fmt::Formatter<W>) -> fmt::Result {
        let line = Shown(self.line);
        let reason = self.reason;
        write!(f, "  {line}\n{reason}")
    }
}

impl<'a> fmt::Display for Explanation<'a> {
    fn fmt<W: fmt::Write>(&self, f: &mut fmt::Formatter<W>) -> fmt::Result {
        let fault = self.fault;
        write!(f, "{fault}")?;
        match self.near {
            Some(near) => write!(f, "\n{near}"),
            None => Ok(()),
        }
    }
}
