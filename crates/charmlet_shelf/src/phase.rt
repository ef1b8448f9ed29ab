//! The phases of a shelf.

use crate::delivery::Delivery;
use crate::performed_delivery::PerformedDelivery;

/// The phase of a shelf: idle, with an assigned message, or with a performed delivery.
#[derive(Drop)]
pub enum Phase {
    /// It waits for a message.
    Idle,
    /// A message is assigned, and its receiver has not reacted yet.
    Assigned(Delivery),
    /// The receiver has reacted, and the delivery isn't settled yet.
    Done(PerformedDelivery),
}
