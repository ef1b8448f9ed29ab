//! The sequence numbers of messages to one element.

ghost use Rattle.std.specs.Prelude.{◌≡◌, [], ◌∷◌, List, MatchOption};
ghost use Rattle.charmlet_ready_queue.specs.declared.index.chain.Call.{Call as ACall};

/// The sequence number of a message to an element, and whether the message constructs the element.
#[derive(Clone, Copy, Debug, PartialEq, Eq)]
pub struct Call {
    pub number: u64,
    pub constructs: bool,
}

/// An iteration over the sequence numbers of messages to one element. Changes move the fewest
/// numbers if they come in rising or in falling order.
pub trait Chain {
    /// The sequence numbers that are left.
    ghost left: { Self → List ACall };

    /// The next sequence number, if there is one.
    fn next(&mut self) -> Option<Call>
        ensures { MatchOption result ((left self.old ≡ []) × (left self.new ≡ []))
            (λ call. left self.old ≡ call ∷ left self.new) };
}
