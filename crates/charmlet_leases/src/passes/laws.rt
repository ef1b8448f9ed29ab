//! Laws of passes. Each is the contract of a function that does nothing.

ghost use Rattle.charmlet_leases.specs.Passes.Steps.{StepsKeepPasses};

/// After any step except a request all passes are still current: what their clients were told stays
/// true, and their accepts are still all those of their clients.
pub fn steps_keep_passes()
    ensures { StepsKeepPasses }
{}
