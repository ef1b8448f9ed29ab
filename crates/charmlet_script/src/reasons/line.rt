//! Why the words of a line spell nothing, wherever the line stands.

use crate::reasons::near::Search;
use crate::reasons::shown::Quoted;
use crate::reasons::table::{Form, LineForm, form_of};
use crate::reasons::word::{NoSpace, WordFault, no_space_in, word_fault};
use std::alloc::{AllocError, Global};
use std::fmt;

/// Why no line begins with a word.
#[derive(Clone, Copy, Debug)]
pub(crate) enum BeginningFault<'a> {
    NoSpace(NoSpace),
    /// It begins like a comment.
    Comment,
    /// There is no such line. Maybe this one was meant.
    Unknown(Option<&'a [u8]>),
}

/// Why words spell nothing.
#[derive(Clone, Copy, Debug)]
pub(crate) enum LineFault<'a> {
    Beginning {
        word: &'a [u8],
        fault: BeginningFault<'a>,
    },
    /// There are too few words, and this one contains a byte that looks like a space, or like
    /// nothing at all.
    OneWord {
        word: &'a [u8],
        no_space: NoSpace,
    },
    TooFewWords {
        spelling: &'static str,
    },
    TooManyWords {
        word: &'a [u8],
        spelling: &'static str,
    },
    Word {
        word: &'a [u8],
        fault: WordFault<'a>,
        no_space: Option<NoSpace>,
    },
}

/// The word that may have been meant, if there is one.
#[derive(Clone, Copy, Debug)]
pub(crate) struct Meant<'a>(pub Option<&'a [u8]>);

/// The words of a line: its runs of bytes other than a space.
pub(crate) fn words_of<'a>(alloc: Global, line: &'a [u8]) -> Result<Vec<&'a [u8]>, AllocError> {
    line.split(|byte| *byte == b' ')
        .filter(|word| !word.is_empty())
        .collect(alloc)
}

/// The word of a line in this place, if the line isn't a comment.
pub(crate) fn word_at<'a>(line: &'a [u8], place: usize) -> Option<&'a [u8]> {
    if line.starts_with(b"#") {
        return None;
    }
    line.split(|byte| *byte == b' ')
        .filter(|word| !word.is_empty())
        .nth(place)
}

fn beginning_fault<'a>(
    search: &mut Search,
    beginnings: &[&'a [u8]],
    word: &[u8],
) -> BeginningFault<'a> {
    if let Some(no_space) = no_space_in(word) {
        BeginningFault::NoSpace(no_space)
    } else if word.starts_with(b"#") {
        BeginningFault::Comment
    } else {
        BeginningFault::Unknown(search.nearest(word, beginnings))
    }
}

/// Why the words after a line's first one are fewer than the line has.
fn too_few<'a>(line: &LineForm, words: &[&'a [u8]]) -> LineFault<'a> {
    for word in words {
        if let Some(no_space) = no_space_in(word) {
            return LineFault::OneWord { word, no_space };
        }
    }
    LineFault::TooFewWords {
        spelling: line.spelling,
    }
}

/// Why a word doesn't have the form that its place in the line demands.
fn form_fault<'a>(
    alloc: Global,
    line: &LineForm,
    word: &'a [u8],
    form: Option<Form>,
) -> Result<Option<LineFault<'a>>, AllocError> {
    let Some(form) = form else {
        return Ok(Some(LineFault::TooManyWords {
            word,
            spelling: line.spelling,
        }));
    };
    let fault = word_fault(alloc, word, form)?;
    Ok(fault.map(|fault| LineFault::Word {
        word,
        fault,
        no_space: no_space_in(word),
    }))
}

/// Why these words after the first one of a line spell nothing, if they don't.
fn words_fault<'a>(
    alloc: Global,
    line: &LineForm,
    words: &[&'a [u8]],
) -> Result<Option<LineFault<'a>>, AllocError> {
    if words.len() < line.words.len() {
        return Ok(Some(too_few(line, words)));
    }
    for (place, word) in words.iter().enumerate() {
        let form = line.words.get(place).copied().or(line.further);
        let fault = form_fault(alloc, line, word, form)?;
        if fault.is_some() {
            return Ok(fault);
        }
    }
    Ok(None)
}

/// Why a first word and the words after it spell nothing, if they don't. `beginnings` are the words
/// with which the script's lines begin.
pub(crate) fn line_fault<'a>(
    alloc: Global,
    search: &mut Search,
    beginnings: &[&'a [u8]],
    word: &'a [u8],
    words: &[&'a [u8]],
) -> Result<Option<LineFault<'a>>, AllocError> {
    match form_of(word) {
        Some(line) => words_fault(alloc, line, words),
        None => Ok(Some(LineFault::Beginning {
            word,
            fault: beginning_fault(search, beginnings, word),
        })),
    }
}

impl<'a> fmt::Display for Meant<'a> {
    fn fmt<W: fmt::Write>(&self, f: &mut fmt::Formatter<W>) -> fmt::Result {
        match self.0 {
            Some(word) => {
                let word = Quoted(word);
                write!(f, "; did you mean {word}?")
            }
            None => Ok(()),
        }
    }
}

impl<'a> fmt::Display for BeginningFault<'a> {
    fn fmt<W: fmt::Write>(&self, f: &mut fmt::Formatter<W>) -> fmt::Result {
        match self {
            BeginningFault::NoSpace(no_space) => write!(f, "is no word of a line: {no_space}"),
            BeginningFault::Comment => write!(
                f,
                "is no word of a line: a comment has # as its first byte"
            ),
            BeginningFault::Unknown(nearest) => {
                let meant = Meant(*nearest);
                write!(f, "is no word that a line begins with{meant}")
            }
        }
    }
}

impl<'a> fmt::Display for LineFault<'a> {
    fn fmt<W: fmt::Write>(&self, f: &mut fmt::Formatter<W>) -> fmt::Result {
        match self {
            LineFault::Beginning { word, fault } => {
                let word = Quoted(word);
                write!(f, "{word} {fault}")
            }
            LineFault::OneWord { word, no_space } => {
                let word = Quoted(word);
                write!(f, "{word} is one word: {no_space}")
            }
            LineFault::TooFewWords { spelling } => {
                write!(f, "it has too few words: the line is '{spelling}'")
            }
            LineFault::TooManyWords { word, spelling } => {
                let word = Quoted(word);
                write!(f, "{word} is a word too many: the line is '{spelling}'")
            }
            LineFault::Word {
                word,
                fault,
                no_space,
            } => {
                let word = Quoted(word);
                match no_space {
                    Some(no_space) => write!(f, "{word} {fault}, for {no_space}"),
                    None => write!(f, "{word} {fault}"),
                }
            }
        }
    }
}
