//! Laws of replies. Each is the contract of a function that does nothing.

ghost use Rattle.charmlet_replayers.specs.Replies.Laws.{FilledAreWorlds, ScanKeepsOthers, RepliesAreOfEvents};

/// A request is delivered once. So among the replies that replayers give again there is one for
/// each request that the log replies to, with the words of the event that delivered it, however the
/// elements are shared out.
pub fn replies_are_of_events()
    ensures { RepliesAreOfEvents }
{}

/// A scan that knows no words of the log's replies keeps all others.
pub fn scan_keeps_others()
    ensures { ScanKeepsOthers }
{}

/// Rows that such a scan kept are those of the world once the replies are put into them, in
/// whatever order.
pub fn filled_are_worlds()
    ensures { FilledAreWorlds }
{}
