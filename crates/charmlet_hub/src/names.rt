//! Names of the authorities of one runtime.

use charmlet_leases::SeatTableName;
use charmlet_locks::AuthorityName;
use charmlet_sequencer::RuntimeName;
use std::marker::PhantomData;

/// The name of the authority of a runtime's seats.
pub struct SeatsOf<B> {
    runtime: PhantomData<B>,
}

impl<B: RuntimeName> AuthorityName for SeatsOf<B> {
    ghost table = { B.seats };
}

impl<B: RuntimeName> SeatTableName for SeatsOf<B> {
    ghost processors = { B.processors };
}

/// The name of the authority of a runtime's passes.
pub struct PassesOf<B> {
    runtime: PhantomData<B>,
}

impl<B: RuntimeName> AuthorityName for PassesOf<B> {
    ghost table = { B.passes };
}

/// The name of the authority of the tokens of a runtime's checkpoints.
pub struct CheckpointsOf<B> {
    runtime: PhantomData<B>,
}

impl<B: RuntimeName> AuthorityName for CheckpointsOf<B> {
    ghost table = { B.checkpoints };
}
