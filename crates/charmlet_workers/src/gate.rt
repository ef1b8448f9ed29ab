//! Gates of workers.

ghost use Rattle.std.specs.Prelude.{◌≡◌, true};
ghost use Rattle.charmlet_shelf.specs.Shelf.{is_assigned};

use charmlet_chare::Chare;
use charmlet_model::MsgId;
use charmlet_sequencer::{ProcessorState, RuntimeName};

/// How often a worker asks a gate before it goes on anyway.
pub const MOST_ASKS: u32 = 100_000_000;

/// A worker's gate, which it asks between the assignment of a message and the reaction of its
/// receiver, and tells after each of its commits.
pub trait Gate: Sync {
    /// Whether the delivery may go on. The shelf of the processor is locked, and the hub is free.
    fn open(&self, processor: u16, id: &MsgId) -> bool;

    /// Is told that a delivery was committed with the worker's seat. The worker has no lock.
    fn committed(&self, processor: u16, id: &MsgId);
}

/// A gate that is always open.
#[derive(Clone, Copy, Debug, Drop)]
pub struct OpenGate;

impl Gate for OpenGate {
    fn open(&self, _processor: u16, _id: &MsgId) -> bool {
        true
    }

    fn committed(&self, _processor: u16, _id: &MsgId) {}
}

/// Asks until the gate is open, at most [`MOST_ASKS`] times. The message is assigned on the locked
/// shelf, and its receiver hasn't reacted yet.
pub(crate) fn wait_at<G: Gate, C: Chare, B: RuntimeName>(
    gate: &G,
    _locked: &ProcessorState<C, B>,
    processor: u16,
    id: &MsgId,
)
    requires { is_assigned _locked.now.phase ≡ true }
{
    for _ in 0..MOST_ASKS {
        if gate.open(processor, id) {
            return;
        }
    }
}
