//! Handles on a queue of tickets.

ghost use Rattle.std.specs.Prelude.{◌≡◌, IfOk, IfSome};

use crate::tickets::rule::{Named, OfProcessor, ProcessorName, Queue, Same, Ticket, Token};
use charmlet_model::MsgId;
use std::alloc::{AllocError, Global};
use std::marker::{Brand, Model};
use std::sync::Arc;

/// How many tickets a queue has room for.
pub const CAPACITY: usize = 1024;

/// A handle on a processor's queue of tickets, which others have handles on too. A contract sees
/// the processor.
pub struct TicketQueue {
    processor: u16,
    queue: Arc<Queue, Global>,
    token: Token,
}

impl Model for TicketQueue {
    ghost use Rattle.std.specs.Prelude.{◌≡◌, ℕ, Some};
    ghost use Rattle.std.specs.Arc.{arc_value};
    ghost use Rattle.crossbeam_queue.specs.Passes.{view as known_by, IsPassOf};

    ghost Value = { ℕ };

    ghost view = { λ q. q.processor };

    ghost invariant = { λ q. IsPassOf (arc_value q.queue) q.token
        × (known_by q.token ≡ Some q.processor) };
}

// Written by hand, so that dropping its fields is proved here, and not in each crate that drops a
// handle.
impl Drop for TicketQueue {
    fn drop(self) {
        let TicketQueue {
            processor: _,
            queue,
            token,
        } = self;
        drop(queue);
        drop(token);
    }
}

impl TicketQueue {
    /// A new queue of a processor, without tickets. It fails only when out of memory.
    pub fn new(alloc: Global, processor: u16) -> Result<Self, AllocError>
        ensures { IfOk result (λ queue. queue ≡ processor) }
    {
        new_named::<Brand>(alloc, processor)
    }

    /// The processor that the queue's tickets name.
    pub fn processor(&self) -> u16
        ensures { result ≡ self.now }
    {
        self.processor
    }

    /// Another handle on the same queue. It fails only when out of memory, and then this handle is
    /// unchanged.
    pub fn try_clone(&mut self) -> Result<Self, AllocError>
        ensures same { self.new ≡ self.old }
        ensures clone { IfOk result (λ queue. queue ≡ self.old) }
    {
        let queue = Arc::try_clone(&self.queue)?;
        let token = self.queue.another::<Same>(&mut self.token);
        Ok(TicketQueue {
            processor: self.processor,
            queue,
            token,
        })
    }

    /// Puts a ticket for the message behind the others. It doesn't wait: if the queue is full, or
    /// another push is under way, the ticket is lost.
    pub fn push(&mut self, id: MsgId)
        ensures { self.new ≡ self.old }
    {
        let processor = self.processor;
        let ticket = Ticket { processor, id };
        let _ = self
            .queue
            .try_push_as::<OfProcessor>(&mut self.token, ticket);
    }

    /// Takes the foremost ticket, if there is one. It names the queue's processor. It doesn't wait:
    /// if a push or another pop is under way, there may seem to be no ticket.
    pub fn pop(&mut self) -> Option<Ticket>
        ensures same { self.new ≡ self.old }
        ensures ticket { IfSome result (λ ticket. ticket.processor ≡ self.old) }
    {
        self.queue.try_pop_as::<OfProcessor>(&mut self.token)
    }
}

/// A new queue of the processor that `N` names.
fn new_named<N: ProcessorName>(alloc: Global, processor: u16) -> Result<TicketQueue, AllocError>
    requires { N.processor ≡ processor }
    ensures { IfOk result (λ queue. queue ≡ processor) }
{
    let (queue, mut token) = Queue::ruled(alloc, CAPACITY)?;
    let _other = queue.another::<Named<N>>(&mut token);
    let queue = Arc::new(alloc, queue)?;
    Ok(TicketQueue {
        processor,
        queue,
        token,
    })
}
