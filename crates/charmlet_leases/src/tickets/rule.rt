//! The rule of a queue of tickets, and its steps.

use charmlet_model::MsgId;
use crossbeam_queue::protocol::{Outcome, Protocol, Split};
use crossbeam_queue::{Pass, RuledArrayQueue};
use std::marker::{Brand, PhantomData};

/// A hint that a processor may deliver a message.
#[derive(Clone, Copy, Debug)]
pub struct Ticket {
    pub processor: u16,
    pub id: MsgId,
}

/// Each ticket names the processor that each token of the queue knows.
pub(crate) struct OneProcessor;

impl Protocol<Ticket, Option<u64>> for OneProcessor {
    ghost use Rattle.std.specs.Prelude.{None};
    ghost use Rattle.charmlet_leases.specs.Tickets.Tickets.{HasOneProcessor};

    ghost holds = { HasOneProcessor };

    ghost first = { None };
}

/// The name of a new queue's processor.
pub(crate) trait ProcessorName {
    ghost use Rattle.std.specs.Prelude.{ℕ};

    ghost processor: { ℕ };
}

impl ProcessorName for Brand {
    ghost processor = { 0 };
}

/// The first token of a queue, and one that is split off it, know the processor that `N` names.
pub(crate) struct Named<N> {
    name: PhantomData<N>,
}

impl<N: ProcessorName> Split<Option<u64>> for Named<N> {
    ghost use Rattle.std.specs.Prelude.{Some};

    ghost left = { λ _. Some N.processor };

    ghost right = { λ _. Some N.processor };
}

/// A token that is split off another one knows the same processor.
pub(crate) struct Same;

impl Split<Option<u64>> for Same {
    ghost left = { λ v. v };

    ghost right = { λ v. v };
}

/// The two kinds of step: a ticket that is pushed at the back, or popped from the front, names the
/// processor that the token knows.
pub(crate) struct OfProcessor;

impl Outcome<Ticket, Option<u64>> for OfProcessor {
    ghost use Rattle.std.specs.Prelude.{◌≡◌, Some};

    ghost then = { λ v ticket w. (w ≡ v) × (v ≡ Some ticket.processor) };
}

pub(crate) type Queue = RuledArrayQueue<Ticket, Option<u64>, OneProcessor>;

pub(crate) type Token = Pass<Ticket, Option<u64>>;
