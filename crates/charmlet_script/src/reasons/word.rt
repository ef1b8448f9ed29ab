//! Why a word doesn't have its form.

use crate::reasons::shown::Quoted;
use crate::reasons::table::{Form, U16, U32, U64};
use std::alloc::{AllocError, Global};
use std::fmt;

/// The most letters of a name.
const MAX_LETTERS: usize = 32;

/// Why a word isn't a number, or is out of the range of its place.
#[derive(Clone, Copy, Debug, PartialEq, Eq)]
pub(crate) enum NumberFault {
    NoDigits,
    OtherBytes,
    /// It is greater than this one.
    PastLimit(u64),
}

/// Why a word doesn't have its form.
#[derive(Clone, Copy, Debug)]
pub(crate) enum WordFault<'a> {
    Number(NumberFault),
    Kind,
    Name,
    Message,
    /// This part of a message's id isn't a number of its form.
    MessagePart { part: &'a [u8], fault: NumberFault },
}

/// A byte that looks like a space, or like nothing at all.
#[derive(Clone, Copy, Debug, PartialEq, Eq)]
pub(crate) enum NoSpace {
    Return,
    Tab,
}

/// A decimal number, if it fits in 64 bits.
pub(crate) fn number_of(digits: &[u8]) -> Option<u64> {
    let mut number: u64 = 0;
    for digit in digits {
        if !digit.is_ascii_digit() {
            return None;
        }
        number = number
            .checked_mul(10)?
            .checked_add(u64::from(*digit - b'0'))?;
    }
    Some(number)
}

/// Why a word isn't a number up to this one.
fn number_fault(word: &[u8], most: u64) -> Option<NumberFault> {
    if word.is_empty() {
        return Some(NumberFault::NoDigits);
    }
    if !word.iter().all(|byte| byte.is_ascii_digit()) {
        return Some(NumberFault::OtherBytes);
    }
    match number_of(word) {
        Some(number) if number <= most => None,
        _ => Some(NumberFault::PastLimit(most)),
    }
}

/// Why a word isn't a kind: kinds are 1 to 6.
fn kind_fault<'a>(word: &'a [u8]) -> Option<WordFault<'a>> {
    if !word.iter().all(|byte| byte.is_ascii_digit()) {
        return Some(WordFault::Number(NumberFault::OtherBytes));
    }
    match number_of(word) {
        Some(1..=6) => None,
        _ => Some(WordFault::Kind),
    }
}

/// Why a word isn't a name.
fn name_fault<'a>(word: &'a [u8]) -> Option<WordFault<'a>> {
    let are_letters = word.iter().all(|byte| byte.is_ascii_alphabetic());
    if are_letters && !word.is_empty() && word.len() <= MAX_LETTERS {
        None
    } else {
        Some(WordFault::Name)
    }
}

/// Why one of these parts of an id isn't a number of its form, if one isn't.
fn parts_fault<'a>(parts: &[&'a [u8]], forms: &[Form]) -> Option<WordFault<'a>> {
    for (part, form) in parts.iter().zip(forms) {
        if let Form::UpTo(most) = form {
            if let Some(fault) = number_fault(part, *most) {
                return Some(WordFault::MessagePart { part, fault });
            }
        }
    }
    None
}

/// Why a word isn't a message's id: `cC.N` or `eA.I.N`.
fn id_fault<'a>(alloc: Global, word: &'a [u8]) -> Result<Option<WordFault<'a>>, AllocError> {
    let [first, rest @ ..] = word else {
        return Ok(Some(WordFault::Message));
    };
    let parts: Vec<&[u8]> = rest.split(|byte| *byte == b'.').collect(alloc)?;
    Ok(match (*first, parts.len()) {
        (b'c', 2) => parts_fault(&parts, &[U32, U64]),
        (b'e', 3) => parts_fault(&parts, &[U16, U64, U64]),
        _ => Some(WordFault::Message),
    })
}

/// Why a word doesn't have this form, if it doesn't.
pub(crate) fn word_fault<'a>(
    alloc: Global,
    word: &'a [u8],
    form: Form,
) -> Result<Option<WordFault<'a>>, AllocError> {
    match form {
        Form::UpTo(most) => Ok(match number_fault(word, most) {
            Some(fault) => Some(WordFault::Number(fault)),
            None => None,
        }),
        Form::Kind => Ok(kind_fault(word)),
        Form::Name => Ok(name_fault(word)),
        Form::Id => id_fault(alloc, word),
    }
}

/// A byte of a word that looks like a space, or like nothing at all, if there is one.
pub(crate) fn no_space_in(word: &[u8]) -> Option<NoSpace> {
    if word.contains(&b'\r') {
        Some(NoSpace::Return)
    } else if word.contains(&b'\t') {
        Some(NoSpace::Tab)
    } else {
        None
    }
}

impl fmt::Display for NumberFault {
    fn fmt<W: fmt::Write>(&self, f: &mut fmt::Formatter<W>) -> fmt::Result {
        match self {
            NumberFault::NoDigits => write!(f, "is no number: it has no digits"),
            NumberFault::OtherBytes => { write!(f, "is no number: it has other bytes than digits") }
            NumberFault::PastLimit(most) => write!(f, "is past its limit, {most}"),
        }
    }
}

impl<'a> fmt::Display for WordFault<'a> {
    fn fmt<W: fmt::Write>(&self, f: &mut fmt::Formatter<W>) -> fmt::Result {
        match self {
            WordFault::Number(fault) => write!(f, "{fault}"),
            WordFault::Kind => write!(f, "is no kind: those are 1 to 6"),
            WordFault::Name => write!(
                f,
                "is no name: those have 1 to {MAX_LETTERS} letters, and nothing else"
            ),
            WordFault::Message => write!(f, "is no message: it is cC.N or eA.I.N"),
            WordFault::MessagePart { part, fault } => {
                let part = Quoted(part);
                write!(f, "is no message: {part} in it {fault}")
            }
        }
    }
}

impl fmt::Display for NoSpace {
    fn fmt<W: fmt::Write>(&self, f: &mut fmt::Formatter<W>) -> fmt::Result {
        match self {
            NoSpace::Return => write!(f, "a carriage return, \\x0d, is no space and ends no line"),
            NoSpace::Tab => write!(f, "a tab, \\x09, is no space"),
        }
    }
}
