//! Runners, which deliver the messages of a script.

/// The runner that delivers the messages of a script.
#[derive(Clone, Copy, Debug, PartialEq, Eq)]
pub enum Runner {
    /// An engine, as the script's lines say.
    Engine,
    /// Workers in threads, one for each processor. A script for them has no `deliver` line.
    Workers,
}
