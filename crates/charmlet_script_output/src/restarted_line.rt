//! The first line of a restarted script's output, and the objects that the script supplies.

ghost use Rattle.std.specs.Prelude.{◌≡◌};
ghost use Rattle.charmlet_model.specs.declared.kind.Kind.{Kind};
ghost use Rattle.charmlet_script.specs.Script.{blanks_of};
ghost use Rattle.charmlet_engine.specs.Wanted.{blanks_in};

use charmlet_engine::Wanted;
use charmlet_model::Kind;
use charmlet_script::RestartScript;
use std::fmt;

/// The line of a restarted store: the generation at which it goes on, how many events it has, and
/// the number of processors.
#[derive(Clone, Copy, Debug, PartialEq, Eq)]
pub struct RestartedLine {
    pub generation: u64,
    pub events: u64,
    pub processors: u16,
}

/// Writes `restarted generation G events E on N`, without a line feed.
impl fmt::Display for RestartedLine {
    ghost use Rattle.std.specs.Prelude.{Some};
    ghost use Rattle.charmlet_script_output.specs.Back.{restarted_line_text};

    ghost output = { λ line. Some (restarted_line_text line) };

    fn fmt<W: fmt::Write>(&self, f: &mut fmt::Formatter<W>) -> fmt::Result {
        let generation = self.generation;
        let events = self.events;
        let processors = self.processors;
        write!(
            f,
            "restarted generation {generation} events {events} on {processors}"
        )
    }
}

/// How many blanks of each kind the lines of a script for a restart supply.
pub fn supplied_at_restart(script: &RestartScript) -> Wanted
    ensures { (kind : Kind) → blanks_in result kind ≡ blanks_of kind script.now.lines }
{
    Wanted {
        counters: script.blanks(Kind::Counter),
        rings: script.blanks(Kind::Ring),
        accounts: script.blanks(Kind::Account),
        sums: script.blanks(Kind::Sum),
        trees: script.blanks(Kind::Tree),
        tapes: script.blanks(Kind::Tape),
    }
}
