//! Laws of what is told. Each is the contract of a function that does nothing.

ghost use Rattle.charmlet_requests.specs.Rising.{AcceptsAreNumbered, ToldRises, TruthIsTold};

/// What a client is told about a request rises with the history: it never goes back in the order
/// Unknown, Accepted, Replied, Past, and its words never change. The same holds for everything that
/// is true of the history.
pub fn told_rises()
    ensures rises { ToldRises }
    ensures truth { TruthIsTold }
{}

/// A client's accepts have consecutive numbers.
pub fn accepts_are_numbered()
    ensures { AcceptsAreNumbered }
{}
