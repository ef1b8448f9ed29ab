//! Laws of restored stores. Each is the contract of a function that does nothing.

ghost use Rattle.charmlet_merge.specs.Store.Laws.{ReopenedIsRepeated};

/// A store that opens with the world after a half's log is the store that a replay of the half
/// gives.
pub fn reopened_is_repeated()
    ensures { ReopenedIsRepeated }
{}
