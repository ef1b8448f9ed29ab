//! Laws of runtimes. Each is the contract of a function that does nothing.

ghost use Rattle.charmlet_runtime.specs.Told.{PassesAreRuns};

/// Whatever the clients of passes that are out were told is true of the durable events, as the
/// answers of a run are. So the law of an engine that its lives are remembered also holds for lives
/// by workers, including one that a crash ends at any moment at which the hub is free.
pub fn passes_are_runs()
    ensures { PassesAreRuns }
{}
