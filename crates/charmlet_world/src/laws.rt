//! Laws of fit worlds and their changes. Each law is the contract of a function that does nothing.

ghost use Rattle.charmlet_world.specs.Laws.{DeliveriesSuit, RequestsAreNew};

/// No pending message has the id of a request that can be accepted, as `accept` requires.
pub fn requests_are_new()
    ensures { RequestsAreNew }
{}

/// The reaction to a message that can be delivered suits a commit.
pub fn deliveries_suit()
    ensures { DeliveriesSuit }
{}
