//! Each call of a queue of tickets, up to its room.

use super::seats::id;
use charmlet_leases::{CAPACITY, TicketQueue};
use std::process::Abort;

// One ticket more than the queue has room for: the last one is lost.
fn fill(queue: &mut TicketQueue) {
    for number in 0..1 + CAPACITY as u64 {
        queue.push(id(number));
    }
}

// The queue has a ticket for each message except the last one, in their order.
fn drain(rt: &impl Abort, queue: &mut TicketQueue) {
    for number in 0..CAPACITY as u64 {
        let ticket = queue.pop().expect(rt, "a ticket is there");
        assert_eq!(rt; ticket.processor, 3);
        assert_eq!(rt; ticket.id, id(number));
    }
    assert!(rt; queue.pop().is_none());
}

#[test]
fn a_full_queue_loses_a_ticket(rt: HostRuntime) {
    let mut queue = TicketQueue::new(rt.alloc(), 3).expect(&rt, "memory");
    let mut other = queue.try_clone().expect(&rt, "memory");
    fill(&mut queue);
    drain(&rt, &mut other);
    assert_eq!(rt; other.processor(), 3);
}
