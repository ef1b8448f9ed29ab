//! Places of sequence numbers, and the readiness of elements.

ghost use Rattle.std.specs.Prelude.{◌≡◌};
ghost use Rattle.charmlet_ready_queue.specs.Index.Index.{place_by};

/// The queue place of a sequence number: its processor, its receiver's home, and whether it is
/// ready there or waits.
#[derive(Clone, Copy, Debug, PartialEq, Eq)]
pub struct QueuePlace {
    pub on: usize,
    pub home: usize,
    pub is_ready: bool,
}

/// The readiness of an element: its processor, which is its home if it isn't there; its home;
/// whether it is there; and whether its counts have room for one more delivery.
#[derive(Clone, Copy, Debug, PartialEq, Eq)]
pub struct Readiness {
    pub on: usize,
    pub home: usize,
    pub is_there: bool,
    pub has_room: bool,
}

impl Readiness {
    /// The queue place of a message to the element, which may construct it.
    pub fn place(&self, constructs: bool) -> QueuePlace
        ensures { result ≡ place_by self.now constructs }
    {
        QueuePlace {
            on: self.on,
            home: self.home,
            is_ready: (self.is_there || constructs) && self.has_room,
        }
    }
}
