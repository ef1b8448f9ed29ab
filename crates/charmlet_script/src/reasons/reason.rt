//! Why a line is malformed.

use crate::MAX_LENGTH;
use crate::reasons::line::LineFault;
use crate::reasons::place::PlaceFault;
use crate::reasons::shown::Quoted;
use crate::reasons::table::Absence;
use std::fmt;

/// Why a line is malformed.
#[derive(Clone, Copy, Debug)]
pub(crate) enum Reason<'a> {
    /// Each line of the script ends as on Windows.
    LineEnds,
    /// The script begins with a byte order mark.
    ByteOrderMark,
    /// A byte that isn't ASCII, and its column, counted from 1.
    NotAscii {
        byte: u8,
        column: u64,
    },
    /// The script is too long.
    TooLong {
        /// How many bytes it has, if that is known.
        length: Option<u64>,
        /// The line that has, or ends with, the first byte past the greatest length.
        line: u64,
        /// The place of that byte in its line, unless it ends the line.
        column: Option<u64>,
    },
    SpacesAlone,
    /// There is such a line, but not in this script.
    Absent {
        word: &'a [u8],
        absence: Absence,
    },
    /// The line's words spell nothing.
    Line(LineFault<'a>),
    /// The line may not stand there.
    Place {
        word: &'a [u8],
        fault: PlaceFault,
    },
    /// No line of the script spells an array.
    NoArray {
        /// Whether the script is too long, so that only its beginning counts.
        is_long: bool,
        /// The first line that begins like an `array` line, if it isn't the first of all.
        near: Option<u64>,
    },
    /// None of these.
    Nothing,
}

impl fmt::Display for Absence {
    fn fmt<W: fmt::Write>(&self, f: &mut fmt::Formatter<W>) -> fmt::Result {
        match self {
            Absence::ArraysAreKept => write!(
                f,
                "does not stand in the script of a restart, which has the arrays of its store"
            ),
            Absence::ProcessorsAreGiven => write!(
                f,
                "does not stand in the script of a restart, whose processors are given by --pes"
            ),
            Absence::WorkersDeliver => write!(
                f,
                "does not stand in a script that is run with --workers"
            ),
        }
    }
}

/// Writes that the script is too long.
fn write_length<W: fmt::Write>(
    f: &mut fmt::Formatter<W>,
    length: Option<u64>,
    line: u64,
    column: Option<u64>,
) -> fmt::Result {
    write_size(f, length)?;
    write_first_past(f, line, column)
}

/// Writes the length of a script that is too long, as far as it is known.
fn write_size<W: fmt::Write>(f: &mut fmt::Formatter<W>, length: Option<u64>) -> fmt::Result {
    match length {
        Some(length) => write!(
            f,
            "the script has {length} bytes, and may have {MAX_LENGTH}: "
        ),
        None => write!(f, "the script has more than {MAX_LENGTH} bytes: "),
    }
}

/// Writes the place of the first byte past the greatest length.
fn write_first_past<W: fmt::Write>(
    f: &mut fmt::Formatter<W>,
    line: u64,
    column: Option<u64>,
) -> fmt::Result {
    match column {
        Some(column) => write!(
            f,
            "the first one past them stands in line {line}, at column {column}"
        ),
        None => write!(f, "the first one past them ends line {line}"),
    }
}

/// Writes that no line spells an array.
fn write_no_array<W: fmt::Write>(
    f: &mut fmt::Formatter<W>,
    is_long: bool,
    near: Option<u64>,
) -> fmt::Result {
    if is_long {
        write!(f, "no line of the first {MAX_LENGTH} bytes is an ")?;
    } else {
        write!(f, "no line of the script is an ")?;
    }
    write!(f, "'array' line, 'array A K'")?;
    match near {
        Some(line) => write!(f, "; line {line} begins like one:"),
        None => Ok(()),
    }
}

impl<'a> fmt::Display for Reason<'a> {
    fn fmt<W: fmt::Write>(&self, f: &mut fmt::Formatter<W>) -> fmt::Result {
        match *self {
            Reason::LineEnds => write!(
                f,
                "line 1 ends with a carriage return; save the script with Unix line ends"
            ),
            Reason::ByteOrderMark => write!(
                f,
                "it begins with a byte order mark, \\xef\\xbb\\xbf; save the script without one"
            ),
            Reason::NotAscii { byte, column } => {
                write!(f, "the byte \\x{byte:02x} at column {column} is not ASCII")
            }
            Reason::TooLong {
                length,
                line,
                column,
            } => write_length(f, length, line, column),
            Reason::SpacesAlone => write!(f, "it has spaces alone, and no word"),
            Reason::Absent { word, absence } => {
                let word = Quoted(word);
                write!(f, "{word} {absence}")
            }
            Reason::Line(fault) => write!(f, "{fault}"),
            Reason::Place { word, fault } => {
                let word = Quoted(word);
                write!(f, "{word} {fault}")
            }
            Reason::NoArray { is_long, near } => write_no_array(f, is_long, near),
            Reason::Nothing => write!(f, "the line spells nothing"),
        }
    }
}
