//! The lines that show the findings in two halves.

use charmlet_model::{Half, Kind, KindVersion};
use std::fmt;

/// The taken half: its generation, how many events came before its image, and how many its log has.
#[derive(Clone, Copy, Debug, PartialEq, Eq)]
pub struct HalfLine {
    pub half: Half,
    pub generation: u64,
    pub base: u64,
    pub log: u64,
}

/// An array, and the kind and the version of its elements.
#[derive(Clone, Copy, Debug, PartialEq, Eq)]
pub struct ArrayLine {
    pub array: u16,
    pub kind_version: KindVersion,
}

/// How many blank objects of a kind a restart needs.
#[derive(Clone, Copy, Debug, PartialEq, Eq)]
pub struct WantedLine {
    pub kind: Kind,
    pub count: u64,
}

/// Writes `half H generation G base B log L`, without a line feed.
impl fmt::Display for HalfLine {
    ghost use Rattle.std.specs.Prelude.{Some};
    ghost use Rattle.charmlet_cli.specs.FoundLines.{half_line_text};

    ghost output = { λ line. Some (half_line_text line) };

    fn fmt<W: fmt::Write>(&self, f: &mut fmt::Formatter<W>) -> fmt::Result {
        let half = self.half;
        let generation = self.generation;
        let base = self.base;
        let log = self.log;
        write!(
            f,
            "half {half} generation {generation} base {base} log {log}"
        )
    }
}

/// Writes `array A kind K version V`, without a line feed.
impl fmt::Display for ArrayLine {
    ghost use Rattle.std.specs.Prelude.{Some};
    ghost use Rattle.charmlet_cli.specs.FoundLines.{array_line_text};

    ghost output = { λ line. Some (array_line_text line) };

    fn fmt<W: fmt::Write>(&self, f: &mut fmt::Formatter<W>) -> fmt::Result {
        let array = self.array;
        let kind = self.kind_version.kind();
        let version = self.kind_version.version();
        write!(f, "array {array} kind {kind} version {version}")
    }
}

/// Writes `wanted K C`, without a line feed.
impl fmt::Display for WantedLine {
    ghost use Rattle.std.specs.Prelude.{Some};
    ghost use Rattle.charmlet_cli.specs.FoundLines.{wanted_line_text};

    ghost output = { λ line. Some (wanted_line_text line) };

    fn fmt<W: fmt::Write>(&self, f: &mut fmt::Formatter<W>) -> fmt::Result {
        let kind = self.kind;
        let count = self.count;
        write!(f, "wanted {kind} {count}")
    }
}
