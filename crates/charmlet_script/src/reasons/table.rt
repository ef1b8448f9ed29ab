//! The lines of a script, and the forms of their words.

use crate::reasons::setting::{Purpose, Setting};
use crate::{MAX_BLANKS, MAX_DELIVERIES, Runner};
use std::alloc::{AllocError, Global};

/// The form of a word in a line.
#[derive(Clone, Copy, Debug, PartialEq, Eq)]
pub(crate) enum Form {
    /// A number, at most this one.
    UpTo(u64),
    /// The number of a kind.
    Kind,
    /// The name of a handler.
    Name,
    /// The id of a message.
    Id,
}

/// Why some scripts can't have a line that others can.
#[derive(Clone, Copy, Debug, PartialEq, Eq)]
pub(crate) enum Absence {
    /// A restarted store has its arrays.
    ArraysAreKept,
    /// The command line says on how many processors a store is restarted.
    ProcessorsAreGiven,
    /// Workers deliver what they find.
    WorkersDeliver,
}

impl Absence {
    /// Whether the absence applies to a script in this setting.
    pub(crate) fn holds_in(self, setting: Setting) -> bool {
        match self {
            Absence::ArraysAreKept | Absence::ProcessorsAreGiven => {
                setting.purpose == Purpose::Restart
            }
            Absence::WorkersDeliver => setting.runner == Runner::Workers,
        }
    }
}

/// A line that a script may have.
#[derive(Debug)]
pub(crate) struct LineForm {
    /// The first word of the line.
    pub name: &'static str,
    /// The spelling of the line in the manual.
    pub spelling: &'static str,
    /// The forms of the words after the first one.
    pub words: &'static [Form],
    /// The form of each further word, if any may follow.
    pub further: Option<Form>,
    /// Why some scripts can't have the line, if there are any.
    pub absence: Option<Absence>,
}

impl LineForm {
    /// Why a script in this setting can't have the line, if it can't.
    pub(crate) fn absence_in(&self, setting: Setting) -> Option<Absence> {
        self.absence.filter(|absence| absence.holds_in(setting))
    }
}

pub(crate) const U16: Form = Form::UpTo(u16::MAX as u64);

pub(crate) const U32: Form = Form::UpTo(u32::MAX as u64);

pub(crate) const U64: Form = Form::UpTo(u64::MAX);

const BLANKS: Form = Form::UpTo(MAX_BLANKS as u64);

const DELIVERIES: Form = Form::UpTo(MAX_DELIVERIES as u64);

/// The first words of the lines that make a header.
pub(crate) const ARRAY: &str = "array";

pub(crate) const PES: &str = "pes";

pub(crate) const HANDLER: &str = "handler";

/// The first word of the lines that call a handler.
pub(crate) const CALL: &str = "call";

/// The lines of a script.
static LINES: [LineForm; 15] = [
    LineForm {
        name: ARRAY,
        spelling: "array A K",
        words: &[U16, Form::Kind],
        further: None,
        absence: Some(Absence::ArraysAreKept),
    },
    LineForm {
        name: PES,
        spelling: "pes N",
        words: &[U16],
        further: None,
        absence: Some(Absence::ProcessorsAreGiven),
    },
    LineForm {
        name: HANDLER,
        spelling: "handler NAME A E",
        words: &[Form::Name, U16, U16],
        further: None,
        absence: None,
    },
    LineForm {
        name: "supply",
        spelling: "supply K N",
        words: &[Form::Kind, BLANKS],
        further: None,
        absence: None,
    },
    LineForm {
        name: "req",
        spelling: "req C N A I E W..",
        words: &[U32, U64, U16, U64, U16],
        further: Some(U64),
        absence: None,
    },
    LineForm {
        name: CALL,
        spelling: "call C N NAME I W..",
        words: &[U32, U64, Form::Name, U64],
        further: Some(U64),
        absence: None,
    },
    LineForm {
        name: "status",
        spelling: "status C N",
        words: &[U32, U64],
        further: None,
        absence: None,
    },
    LineForm {
        name: "deliver",
        spelling: "deliver PE ID",
        words: &[U16, Form::Id],
        further: None,
        absence: Some(Absence::WorkersDeliver),
    },
    LineForm {
        name: "drain",
        spelling: "drain N",
        words: &[DELIVERIES],
        further: None,
        absence: None,
    },
    LineForm {
        name: "move",
        spelling: "move A I PE",
        words: &[U16, U64, U16],
        further: None,
        absence: None,
    },
    LineForm {
        name: "flush",
        spelling: "flush",
        words: &[],
        further: None,
        absence: None,
    },
    LineForm {
        name: "checkpoint",
        spelling: "checkpoint",
        words: &[],
        further: None,
        absence: None,
    },
    LineForm {
        name: "state",
        spelling: "state A I",
        words: &[U16, U64],
        further: None,
        absence: None,
    },
    LineForm {
        name: "pending",
        spelling: "pending",
        words: &[],
        further: None,
        absence: None,
    },
    LineForm {
        name: "census",
        spelling: "census",
        words: &[],
        further: None,
        absence: None,
    },
];

/// The line that begins with this word.
pub(crate) fn form_of(name: &[u8]) -> Option<&'static LineForm> {
    LINES.iter().find(|line| line.name.as_bytes() == name)
}

/// The first words of the lines that a script in this setting can have.
pub(crate) fn beginnings(
    alloc: Global,
    setting: Setting,
) -> Result<Vec<&'static [u8]>, AllocError> {
    LINES
        .iter()
        .filter(|line| line.absence_in(setting).is_none())
        .map(|line| line.name.as_bytes())
        .collect(alloc)
}

/// Whether a line that begins with this word is part of a header.
pub(crate) fn is_of_header(name: &[u8]) -> bool {
    name == ARRAY.as_bytes() || name == PES.as_bytes() || name == HANDLER.as_bytes()
}
