//! The setting of a script: its purpose, its runner and its length.

use crate::Runner;

/// The purpose of a script.
#[derive(Clone, Copy, Debug, PartialEq, Eq)]
pub enum Purpose {
    /// A run over a new store.
    Run,
    /// A restart of a store.
    Restart,
}

/// The facts about a script that aren't in its text.
#[derive(Clone, Copy, Debug, PartialEq, Eq)]
pub struct Setting {
    pub purpose: Purpose,
    pub runner: Runner,
    /// How many bytes the script has, if that is known. Only the reason for a script that is too
    /// long shows it.
    pub length: Option<u64>,
}
