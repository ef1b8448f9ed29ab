//! Scripts that are being read.

use crate::restart::RestartScript;
use crate::runner::Runner;
use crate::script::{ArrayLine, HandlerLine, Line, Script};
use std::alloc::{AllocFailed, Global};
use std::marker::Model;

/// The purpose of a script.
#[derive(Clone, Copy, Debug, PartialEq, Eq)]
pub(crate) struct Purpose {
    /// Whether the script's header describes the store. The header of a run over a new store does;
    /// that of a restart doesn't, since its store is there already.
    pub describes_store: bool,
    /// The runner that delivers the script's messages.
    pub runner: Runner,
}

/// The lines of a script so far. A contract sees the number of processors, if one is declared, and
/// the three lists.
#[derive(Drop)]
pub(crate) struct Draft {
    processors: Option<u16>,
    arrays: Vec<ArrayLine>,
    handlers: Vec<HandlerLine>,
    lines: Vec<Line>,
}

impl Model for Draft {
    ghost use Rattle.charmlet_script.specs.Script.{Contents};

    ghost Value = { Contents };

    ghost view = { λ draft. record {
      declared_processors = draft.processors;
      arrays = draft.arrays.items;
      handlers = draft.handlers.items;
      lines = draft.lines.items;
    } };
}

impl Draft {
    ghost use Rattle.std.specs.Prelude.{◌≡◌, ◌≤◌, ◌++◌, ◌∷◌, [], Some, OnOk, OnErr, length};
    ghost use Rattle.charmlet_script.specs.Script.{IsScript, for_restart, most_lines, no_lines};

    pub(crate) fn new(alloc: Global) -> Self
        ensures { result ≡ no_lines }
    {
        Draft {
            processors: None,
            arrays: Vec::new(alloc),
            handlers: Vec::new(alloc),
            lines: Vec::new(alloc),
        }
    }

    pub(crate) fn declared_processors(&self) -> Option<u16>
        ensures { result ≡ self.now.declared_processors }
    {
        self.processors
    }

    pub(crate) fn arrays(&self) -> &[ArrayLine]
        ensures { result.now ≡ self.now.arrays }
    {
        self.arrays.as_slice()
    }

    pub(crate) fn lines(&self) -> &[Line]
        ensures { result.now ≡ self.now.lines }
    {
        self.lines.as_slice()
    }

    pub(crate) fn declare_processors(&mut self, processors: u16)
        ensures { self.new ≡ record self.old { declared_processors = Some processors } }
    {
        self.processors = Some(processors);
    }

    pub(crate) fn push_array(&mut self, line: ArrayLine) -> Result<(), AllocFailed<ArrayLine>>
        ensures ok { OnOk result (self.new
            ≡ record self.old { arrays = self.old.arrays ++ line ∷ [] }) }
        ensures err { OnErr result (self.new ≡ self.old) }
    {
        self.arrays.push(line)
    }

    pub(crate) fn push_handler(&mut self, line: HandlerLine) -> Result<(), AllocFailed<HandlerLine>>
        ensures ok { OnOk result (self.new
            ≡ record self.old { handlers = self.old.handlers ++ line ∷ [] }) }
        ensures err { OnErr result (self.new ≡ self.old) }
    {
        self.handlers.push(line)
    }

    pub(crate) fn push_line(&mut self, line: Line) -> Result<(), AllocFailed<Line>>
        ensures ok { OnOk result (self.new
            ≡ record self.old { lines = self.old.lines ++ line ∷ [] }) }
        ensures err { OnErr result (self.new ≡ self.old) }
    {
        self.lines.push(line)
    }

    /// The script of a run, once all its lines were read.
    pub(crate) fn finish(self) -> Script
        requires { IsScript self.arrays self.lines }
        ensures { result ≡ self }
    {
        let Draft {
            processors,
            arrays,
            handlers,
            lines,
        } = self;
        Script::new(processors, arrays, handlers, lines)
    }

    /// The script of a restart, once all its lines were read.
    pub(crate) fn finish_restart(self) -> RestartScript
        requires { length self.lines ≤ most_lines }
        ensures { result ≡ for_restart self }
    {
        let Draft {
            processors: _,
            arrays: _,
            handlers,
            lines,
        } = self;
        RestartScript::new(handlers, lines)
    }
}
