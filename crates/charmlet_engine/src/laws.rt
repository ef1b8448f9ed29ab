//! Laws of engines. Each is the contract of a function that does nothing.

ghost use Rattle.charmlet_engine.specs.Lives.{BeginningsAreRemembered, LivesAreRemembered, PresentIsRemembered};

/// A store keeps what it told over any number of runs, crashes and restarts. After each crash it
/// goes on with the world after some of what had happened, in which everything that clients were
/// told in any of its lives is true, and stays true.
pub fn lives_are_remembered()
    ensures beginnings { BeginningsAreRemembered }
    ensures lives { LivesAreRemembered }
    ensures present { PresentIsRemembered }
{}
