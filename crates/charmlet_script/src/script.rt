//! Scripts and their lines.

ghost use Rattle.std.specs.Prelude.{◌≡◌, ◌≤◌, IfOk, length};
ghost use Rattle.charmlet_script.specs.Script.{blanks_of, most_lines, pairs_of};

use crate::name::Name;
use charmlet_model::{Elem, Kind, Manifest, Step, Words};
use std::alloc::{AllocError, Global};
use std::marker::Model;

/// An array, by its number, and the kind of its elements.
#[derive(Clone, Copy, Debug, PartialEq, Eq)]
pub struct ArrayLine {
    pub array: u16,
    pub kind: Kind,
}

/// A handler: the name of an array and an entry, which `call` lines name.
#[derive(Debug, Drop)]
pub struct HandlerLine {
    pub name: Name,
    pub array: u16,
    pub entry: u16,
}

/// A line after the header.
#[derive(Debug, Drop)]
pub enum Line {
    /// `supply K N`: puts N blanks of kind K into the stock, at most 10,000.
    Supply {
        kind: Kind,
        count: u32,
    },
    /// `drain N`: delivers the oldest message that can be delivered, up to N times, at most
    /// 1,000,000.
    Drain {
        count: u32,
    },
    /// `state A I`: shows the element.
    State(Elem),
    /// `pending`: shows the ids of the pending messages.
    Pending,
    /// `census`: shows for each kind where its objects are.
    Census,
    /// `call C N NAME I W..`: a client's request to the element with index I of the array for which
    /// the name is registered, at the entry for which it is registered.
    Call {
        client: u32,
        number: u64,
        name: Name,
        index: u64,
        words: Words,
    },
    /// A step of the run.
    Step(Step),
}

impl Line {
    ghost use Rattle.std.specs.Prelude.{◌≡◌};
    ghost use Rattle.charmlet_script.specs.Script.{blanks_in};

    /// How many blanks of the kind the line supplies.
    pub fn blanks(&self, kind: Kind) -> u32
        ensures { result ≡ blanks_in kind self.now }
    {
        match self {
            Line::Supply { kind: other, count } if *other == kind => *count,
            _ => 0,
        }
    }
}

/// The arrays with the numbers of their kinds.
fn pairs_of(alloc: Global, arrays: &[ArrayLine]) -> Result<Vec<(u16, u16)>, AllocError>
    ensures { IfOk result (λ pairs. pairs.items ≡ pairs_of arrays.now) }
{
    arrays
        .iter()
        .map(|line| (line.array, line.kind.number()))
        .collect(alloc)
}

/// How many blanks of the kind the lines supply together.
pub(crate) fn total_blanks(lines: &[Line], kind: Kind) -> u64
    requires { length lines.now ≤ most_lines }
    ensures { result ≡ blanks_of kind lines.now }
{
    let mut total = 0;
    for line in lines {
        total += u64::from(line.blanks(kind));
    }
    total
}

/// A script that was read: its header, and the lines after it, in order. The header is a number of
/// processors, arrays that make a manifest, and handlers. A contract sees the number, if a line
/// declares it, and the three lists.
#[derive(Debug, Drop)]
pub struct Script {
    processors: Option<u16>,
    arrays: Vec<ArrayLine>,
    handlers: Vec<HandlerLine>,
    lines: Vec<Line>,
}

impl Model for Script {
    ghost use Rattle.charmlet_script.specs.Script.{Contents, IsScript};

    ghost Value = { Contents };

    ghost view = { λ script. record {
      declared_processors = script.processors;
      arrays = script.arrays.items;
      handlers = script.handlers.items;
      lines = script.lines.items;
    } };

    ghost invariant = { λ script. IsScript script.arrays.items script.lines.items };
}

impl Script {
    ghost use Rattle.std.specs.Prelude.{◌≡◌, IfOk, Some};
    ghost use Rattle.charmlet_model.specs.KindVersion.{AreNewest};
    ghost use Rattle.charmlet_model.specs.Fit.{IsFit};
    ghost use Rattle.charmlet_model.specs.Manifest.{manifest_of};
    ghost use Rattle.charmlet_model.specs.Sound.{new_world};
    ghost use Rattle.charmlet_script.specs.Script.{IsScript, blanks_of, pairs_of, processors_of};

    pub(crate) fn new(
        processors: Option<u16>,
        arrays: Vec<ArrayLine>,
        handlers: Vec<HandlerLine>,
        lines: Vec<Line>,
    ) -> Self
        requires { IsScript arrays.items lines.items }
        ensures { result ≡ record {
          declared_processors = processors;
          arrays = arrays.items;
          handlers = handlers.items;
          lines = lines.items;
        } }
    {
        Script {
            processors,
            arrays,
            handlers,
            lines,
        }
    }

    /// How many processors there are, or 1 if no line says so. It may be any 16-bit number: the
    /// script doesn't check that a store can have that many.
    pub fn processors(&self) -> u16
        ensures { result ≡ processors_of self.now }
    {
        self.processors.unwrap_or(1)
    }

    /// The arrays, in the order of their lines.
    pub fn arrays(&self) -> &[ArrayLine]
        ensures { result.now ≡ self.now.arrays }
    {
        self.arrays.as_slice()
    }

    /// The handler lines, in order. A name may stand in more than one of them.
    pub fn handlers(&self) -> &[HandlerLine]
        ensures { result.now ≡ self.now.handlers }
    {
        self.handlers.as_slice()
    }

    /// The lines after the header, in order.
    pub fn lines(&self) -> &[Line]
        ensures { result.now ≡ self.now.lines }
    {
        self.lines.as_slice()
    }

    /// The manifest of the arrays, each in the newest version of its kind. It fails only when out
    /// of memory.
    pub fn manifest(&self, alloc: Global) -> Result<Manifest, AllocError>
        ensures manifest { IfOk result (λ manifest. manifest_of (pairs_of self.now.arrays)
            ≡ Some manifest) }
        ensures newest { IfOk result AreNewest }
    {
        let pairs = pairs_of(alloc, &self.arrays)?;
        match Manifest::of(alloc, &pairs)? {
            Some(manifest) => Ok(manifest),
            None => unreachable!(),
        }
    }

    /// How many blanks of the kind the script supplies: the sum over its supply lines.
    pub fn blanks(&self, kind: Kind) -> u64
        ensures { result ≡ blanks_of kind self.now.lines }
    {
        total_blanks(&self.lines, kind)
    }
}
