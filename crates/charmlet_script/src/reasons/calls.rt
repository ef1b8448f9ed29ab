//! Calls of names without a `handler` line, in well-formed scripts.

use crate::reasons::line::{Meant, word_at};
use crate::reasons::near::Search;
use crate::reasons::setting::Purpose;
use crate::reasons::shown::Quoted;
use crate::reasons::source::Source;
use crate::reasons::table::{CALL, HANDLER};
use indexmap::IndexSet;
use std::alloc::{AllocError, Global};
use std::fmt;

/// The most names that are shown, and the most lines that are shown for each.
const MOST_SHOWN: usize = 20;

/// A name that no `handler` line has, and the lines that call it.
#[derive(Debug, Drop)]
struct Called<'a> {
    name: &'a [u8],
    /// The first of these lines.
    lines: Vec<u64>,
    /// How many more such lines there are.
    more: u64,
    /// The nearest name of a handler.
    meant: Option<&'a [u8]>,
}

/// The report on a script without a malformed line: that there is none, and the called names that
/// no `handler` line has. It is printed without a line feed at the end.
#[derive(Debug, Drop)]
pub struct WellFormed<'a> {
    purpose: Purpose,
    /// The first of these names.
    called: Vec<Called<'a>>,
    /// How many such names there are in all.
    names: usize,
}

/// Reports which called names no `handler` line has, in a script that is well formed.
pub fn well_formed<'a>(
    alloc: Global,
    text: &'a [u8],
    purpose: Purpose,
) -> Result<WellFormed<'a>, AllocError> {
    let source = Source::new(alloc, text)?;
    let mut calls = Calls::new(alloc);
    for (place, line) in source.lines().iter().enumerate() {
        calls.read(alloc, line, (place as u64).saturating_add(1))?;
    }
    Ok(calls.into_well_formed(purpose))
}

/// What the lines of a script declare and call, up to some line.
#[derive(Drop)]
struct Calls<'a> {
    handlers: IndexSet<&'a [u8]>,
    /// The names without a handler.
    names: IndexSet<&'a [u8]>,
    /// The first of these names, each with the lines that call it.
    called: Vec<Called<'a>>,
}

impl<'a> Calls<'a> {
    fn new(alloc: Global) -> Self {
        Calls {
            handlers: IndexSet::new(alloc),
            names: IndexSet::new(alloc),
            called: Vec::new(alloc),
        }
    }

    /// Reads one more line, which has this number.
    fn read(&mut self, alloc: Global, line: &'a [u8], number: u64) -> Result<(), AllocError> {
        if let Some(name) = name_after(line, HANDLER, 1) {
            self.handlers.insert(name)?;
        }
        match name_after(line, CALL, 3) {
            Some(name) => self.note_call(alloc, name, number),
            None => Ok(()),
        }
    }

    /// Notes that the line with this number calls a name, if the name has no handler.
    fn note_call(&mut self, alloc: Global, name: &'a [u8], number: u64) -> Result<(), AllocError> {
        if self.handlers.contains(&name) {
            return Ok(());
        }
        let (index, is_new) = self.names.insert_full(name)?;
        if is_new && index < MOST_SHOWN {
            self.called.push(Called::new(alloc, name))?;
        }
        match self.called.get_mut(index) {
            Some(called) => called.add(number),
            None => Ok(()),
        }
    }

    /// The report on these calls, with the nearest handler of each name.
    fn into_well_formed(self, purpose: Purpose) -> WellFormed<'a> {
        let Calls {
            handlers,
            names,
            mut called,
        } = self;
        let mut search = Search::new();
        for one in &mut called {
            one.meant = search.nearest(one.name, handlers.as_slice());
        }
        WellFormed {
            purpose,
            called,
            names: names.len(),
        }
    }
}

/// The word in this place of a line that begins with this one.
fn name_after<'a>(line: &'a [u8], first: &str, place: usize) -> Option<&'a [u8]> {
    if word_at(line, 0)? != first.as_bytes() {
        return None;
    }
    word_at(line, place)
}

impl<'a> Called<'a> {
    fn new(alloc: Global, name: &'a [u8]) -> Self {
        Called {
            name,
            lines: Vec::new(alloc),
            more: 0,
            meant: None,
        }
    }

    /// Adds a line that calls the name.
    fn add(&mut self, line: u64) -> Result<(), AllocError> {
        if self.lines.len() < MOST_SHOWN {
            self.lines.push(line)?;
        } else {
            self.more = self.more.saturating_add(1);
        }
        Ok(())
    }
}

/// Writes numbers with commas between them.
fn write_numbers<W: fmt::Write>(f: &mut fmt::Formatter<W>, numbers: &[u64]) -> fmt::Result {
    for (place, number) in numbers.iter().enumerate() {
        if place > 0 {
            write!(f, ", ")?;
        }
        write!(f, "{number}")?;
    }
    Ok(())
}

/// Writes the lines that call a name: these, and `more` others.
fn write_callers<W: fmt::Write>(
    f: &mut fmt::Formatter<W>,
    lines: &[u64],
    more: u64,
) -> fmt::Result {
    if more > 0 {
        write!(f, "lines ")?;
        write_numbers(f, lines)?;
        return write!(f, " and {more} more call");
    }
    match lines {
        [] => Ok(()),
        [only] => write!(f, "line {only} calls"),
        [first @ .., last] => {
            write!(f, "lines ")?;
            write_numbers(f, first)?;
            write!(f, " and {last} call")
        }
    }
}

impl<'a> fmt::Display for Called<'a> {
    fn fmt<W: fmt::Write>(&self, f: &mut fmt::Formatter<W>) -> fmt::Result {
        write_callers(f, &self.lines, self.more)?;
        let name = Quoted(self.name);
        let meant = Meant(self.meant);
        write!(f, " {name}, and no handler line has that name{meant}")
    }
}

impl<'a> fmt::Display for WellFormed<'a> {
    fn fmt<W: fmt::Write>(&self, f: &mut fmt::Formatter<W>) -> fmt::Result {
        write!(f, "every line is well formed")?;
        for call in &self.called {
            write!(f, "\n{call}")?;
        }
        let names = self.names;
        if names > MOST_SHOWN {
            write!(
                f,
                "\nin all {names} names are called that no handler line has"
            )?;
        }
        if names > 0 && self.purpose == Purpose::Restart {
            write!(
                f,
                "\na store keeps no handlers: the script of a restart has its own"
            )?;
        }
        Ok(())
    }
}
