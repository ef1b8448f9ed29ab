//! Scripts of restarts.

use crate::script::{HandlerLine, Line, total_blanks};
use charmlet_model::Kind;
use std::marker::Model;

/// A script that was read for a restart: its handlers, and the lines after them, in order. Its
/// header has nothing else, since the store brings its arrays, and the number of processors is
/// given elsewhere. A contract sees the two lists.
#[derive(Debug, Drop)]
pub struct RestartScript {
    handlers: Vec<HandlerLine>,
    lines: Vec<Line>,
}

impl Model for RestartScript {
    ghost use Rattle.std.specs.Prelude.{◌≤◌, length};
    ghost use Rattle.charmlet_script.specs.Script.{RestartContents, most_lines};

    ghost Value = { RestartContents };

    ghost view = { λ script. record {
      handlers = script.handlers.items;
      lines = script.lines.items;
    } };

    ghost invariant = { λ script. length script.lines.items ≤ most_lines };
}

impl RestartScript {
    ghost use Rattle.std.specs.Prelude.{◌≡◌, ◌≤◌, length};
    ghost use Rattle.charmlet_script.specs.Script.{blanks_of, most_lines};

    pub(crate) fn new(handlers: Vec<HandlerLine>, lines: Vec<Line>) -> Self
        requires { length lines.items ≤ most_lines }
        ensures { result ≡ record { handlers = handlers.items; lines = lines.items } }
    {
        RestartScript { handlers, lines }
    }

    /// The handler lines, in order.
    pub fn handlers(&self) -> &[HandlerLine]
        ensures { result.now ≡ self.now.handlers }
    {
        self.handlers.as_slice()
    }

    /// The lines after the handlers, in order.
    pub fn lines(&self) -> &[Line]
        ensures { result.now ≡ self.now.lines }
    {
        self.lines.as_slice()
    }

    /// How many blanks of the kind the script supplies: the sum over its supply lines.
    pub fn blanks(&self, kind: Kind) -> u64
        ensures { result ≡ blanks_of kind self.now.lines }
    {
        total_blanks(&self.lines, kind)
    }
}
