//! Queues of tickets, one for each processor.
//!
//! A ticket is a hint that its processor may deliver a message. A lost, doubled or old ticket
//! changes no answer. A queue has one rule: each of its tickets names the queue's processor.

mod queue;
mod rule;

pub use crate::tickets::queue::{CAPACITY, TicketQueue};
pub use crate::tickets::rule::Ticket;
