//! The laboratory's line of output.

use std::fmt;

/// How many runs were stopped, how many restarts were tried after them, and how many of these were
/// bad.
#[derive(Clone, Copy, Debug, PartialEq, Eq)]
pub struct LabLine {
    pub stops: u64,
    pub outcomes: u64,
    pub bad: u64,
}

impl LabLine {
    ghost use Rattle.std.specs.Prelude.{◌≡◌, ◌<◌, ◌+◌, ◌^◌, if◌then◌else◌};

    /// Counts a restart.
    pub(crate) fn count(&mut self, is_bad: bool)
        requires outcomes { self.old.outcomes + 1 < 2 ^ 64 }
        requires bad { self.old.bad + 1 < 2 ^ 64 }
        ensures stops { self.new.stops ≡ self.old.stops }
        ensures outcomes { self.new.outcomes ≡ self.old.outcomes + 1 }
        ensures bad { self.new.bad ≡ self.old.bad + (if is_bad then 1 else 0) }
    {
        self.outcomes += 1;
        if is_bad {
            self.bad += 1;
        }
    }
}

/// Writes `lab stops S outcomes O bad B`, without a line feed.
impl fmt::Display for LabLine {
    ghost use Rattle.std.specs.Prelude.{Some};
    ghost use Rattle.charmlet_lab.specs.Printed.{lab_line_text};

    ghost output = { λ line. Some (lab_line_text line) };

    fn fmt<W: fmt::Write>(&self, f: &mut fmt::Formatter<W>) -> fmt::Result {
        let stops = self.stops;
        let outcomes = self.outcomes;
        let bad = self.bad;
        write!(f, "lab stops {stops} outcomes {outcomes} bad {bad}")
    }
}
