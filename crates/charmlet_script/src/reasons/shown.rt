//! Texts of a script as they are shown.

use std::fmt;

/// The most bytes that are shown in full.
const MOST_SHOWN: usize = 100;

/// How many bytes are shown of a longer text.
const FIRST_SHOWN: usize = 60;

/// A part of a script. A byte that isn't printed, or isn't ASCII, is shown as `\x` and two
/// hexadecimal digits. If there are more than 100 bytes, the first 60 are shown, and two full
/// stops.
#[derive(Clone, Copy, Debug)]
pub(crate) struct Shown<'a>(pub &'a [u8]);

/// A part of a script, in quotes.
#[derive(Clone, Copy, Debug)]
pub(crate) struct Quoted<'a>(pub &'a [u8]);

fn write_shown<W: fmt::Write>(f: &mut fmt::Formatter<W>, bytes: &[u8]) -> fmt::Result {
    for byte in bytes {
        match byte {
            b' '..=b'~' => write!(f, "{}", char::from(*byte))?,
            _ => write!(f, "\\x{byte:02x}")?,
        }
    }
    Ok(())
}

impl<'a> fmt::Display for Shown<'a> {
    fn fmt<W: fmt::Write>(&self, f: &mut fmt::Formatter<W>) -> fmt::Result {
        let bytes = self.0;
        if bytes.len() <= MOST_SHOWN {
            return write_shown(f, bytes);
        }
        write_shown(f, bytes.get(..FIRST_SHOWN).unwrap_or(bytes))?;
        write!(f, " ..")
    }
}

impl<'a> fmt::Display for Quoted<'a> {
    fn fmt<W: fmt::Write>(&self, f: &mut fmt::Formatter<W>) -> fmt::Result {
        let shown = Shown(self.0);
        write!(f, "'{shown}'")
    }
}
