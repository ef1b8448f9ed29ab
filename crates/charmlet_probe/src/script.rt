//! The lines of a probe.

use std::alloc::{AllocError, Global};

/// The lines of a probe, and how many of them were taken.
#[derive(Drop)]
pub(crate) struct Script {
    lines: Vec<String>,
    taken: usize,
}

impl Script {
    /// The lines of a text. It fails only when out of memory.
    pub(crate) fn of(alloc: Global, text: &str) -> Result<Script, AllocError> {
        let mut lines = Vec::new(alloc);
        for line in text.lines() {
            lines.push(line.to_string(alloc)?)?;
        }
        Ok(Script { lines, taken: 0 })
    }

    /// How many lines are left.
    pub(crate) fn left(&self) -> usize {
        self.lines.len().saturating_sub(self.taken)
    }

    /// How many lines were taken.
    pub(crate) fn taken(&self) -> usize {
        self.taken
    }

    /// Takes the next line, or none if no line is left.
    pub(crate) fn take(&mut self) -> &str {
        let place = self.taken;
        self.taken = self.taken.saturating_add(1);
        match self.lines.get(place) {
            Some(line) => line.as_str(),
            None => "",
        }
    }
}
