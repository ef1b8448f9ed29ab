//! Elements' places and counts.

ghost use Rattle.std.specs.Prelude.{◌≡◌, ◌+◌, ◌≤◌, not};
ghost use Rattle.charmlet_model.specs.Reaction.{greatest};
ghost use Rattle.charmlet_world.specs.Changed.{counted, lacks_count};
ghost use Rattle.charmlet_world.specs.Seen.{has_record, no_element};
ghost use Rattle.charmlet_world.specs.Standing.{is_left};

use charmlet_model::MAX_SENDS;

/// The processor of an element, if it is there, and how many messages it sent and received in its
/// whole life.
#[derive(Clone, Copy, Debug, PartialEq, Eq)]
pub struct Element {
    pub place: Option<u16>,
    pub sent: u64,
    pub received: u64,
}

impl Element {
    /// An element that was never constructed: it stands nowhere, and its counts are 0.
    pub fn new() -> Self
        ensures { result ≡ no_element }
    {
        Element {
            place: None,
            sent: 0,
            received: 0,
        }
    }

    /// Whether the element's counts have room for one more delivery.
    pub fn has_room(&self) -> bool
        ensures { result ≡ not (lacks_count self.now) }
    {
        self.received < u64::MAX && self.sent <= u64::MAX - MAX_SENDS as u64
    }

    /// Whether the world has a record of the element: it is there, or it received a message.
    pub fn has_record(&self) -> bool
        ensures { result ≡ has_record self.now }
    {
        self.place.is_some() || self.received > 0
    }

    /// Whether the world has a record of the element although it isn't there.
    pub fn has_left(&self) -> bool
        ensures { result ≡ is_left self.now }
    {
        self.place.is_none() && self.received > 0
    }

    /// Counts one more delivery, which made the element send `sends` messages. The element then
    /// stands at `place`, or nowhere.
    pub fn advance(&mut self, place: Option<u16>, sends: u64)
        requires sent { self.old.sent + sends ≤ greatest }
        requires received { self.old.received + 1 ≤ greatest }
        ensures { self.new ≡ counted self.old place sends }
    {
        self.place = place;
        self.sent += sends;
        self.received += 1;
    }
}
