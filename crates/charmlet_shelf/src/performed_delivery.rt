//! Deliveries that were performed, with their receivers' output.

use crate::delivery::Delivery;
use charmlet_chare::Output;
use std::marker::Model;

/// A delivery that was performed, and, until it is taken, its receiver's output: what the kind
/// table gives for the message and the receiver's state before it.
#[derive(Drop)]
pub struct PerformedDelivery {
    delivery: Delivery,
    sends: u64,
    is_destroyed: bool,
    output: Option<Output>,
}

impl Model for PerformedDelivery {
    ghost use Rattle.charmlet_shelf.specs.PerformedDelivery.{Performed, IsPerformed};

    ghost Value = { Performed };

    ghost view = { λ o. record { due = o.delivery; output = o.output } };

    ghost invariant = { λ o. IsPerformed o.delivery o.sends o.is_destroyed o.output };
}

impl PerformedDelivery {
    ghost use Rattle.std.specs.Prelude.{◌≡◌, ◌+◌, ◌≤◌, Some, None, is_none, length, option_copied};
    ghost use Rattle.charmlet_model.specs.declared.reaction.Reaction.{Reaction};
    ghost use Rattle.charmlet_chare.specs.Output.{output_of};
    ghost use Rattle.charmlet_shelf.specs.Due.{reaction_in, record_after};

    /// A performed delivery with this output. It takes no memory.
    pub(crate) fn new(delivery: Delivery, output: Output) -> Self
        requires made { (r : Reaction) × (reaction_in delivery ≡ Some r) × (output ≡ output_of r) }
        requires few { length output.sends ≤ 16 }
        ensures { result ≡ record { due = delivery; output = Some output } }
    {
        PerformedDelivery {
            sends: output.sends.as_slice().len() as u64,
            is_destroyed: output.is_destroyed,
            output: Some(output),
            delivery,
        }
    }

    /// The delivery that was performed.
    pub fn delivery(&self) -> &Delivery
        ensures { result.now ≡ self.now.due }
    {
        &self.delivery
    }

    /// The receiver's sends and reply, until they are taken.
    pub fn output(&self) -> Option<&Output>
        ensures { option_copied result ≡ self.now.output }
    {
        self.output.as_ref()
    }

    /// How many messages the receiver has sent and received after this delivery.
    pub fn counts(&self) -> (u64, u64)
        ensures { result ≡ (
          (record_after self.now.due).sent,
          (record_after self.now.due).received,
        ) }
    {
        self.delivery.counts_after(self.sends)
    }

    /// Whether the delivery destroys its receiver.
    pub fn is_destroyed(&self) -> bool
        ensures { result ≡ is_none (record_after self.now.due).state }
    {
        self.is_destroyed
    }

    /// The memory of the message's words, with its contents.
    pub(crate) fn into_words(self) -> Vec<u64> {
        let PerformedDelivery {
            delivery,
            sends: _,
            is_destroyed: _,
            output,
        } = self;
        drop(output);
        delivery.into_words()
    }

    /// Takes the receiver's sends and reply, once.
    pub(crate) fn take_output(&mut self) -> Option<Output>
        ensures output { result ≡ self.old.output }
        ensures taken { self.new ≡ record { due = self.old.due; output = None } }
    {
        self.output.take()
    }
}
