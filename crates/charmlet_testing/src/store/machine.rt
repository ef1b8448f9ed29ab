//! Machines on which the lines of a probe run.

use crate::disk::ProbeDisk;
use crate::objects::Object;
use crate::store::failed::Failed;
use crate::store::parts::Parts;
use charmlet_model::{Answer, Elem, Kind, MsgId, Refusal, Step, Told};
use charmlet_requests::Handlers;
use charmlet_store::{Census, Look};
use std::alloc::AllocError;
use std::sync::Wait;

/// The counts of a store.
#[derive(Clone, Copy)]
pub struct Counts {
    pub generation: u64,
    pub durable: u64,
    pub events: u64,
    pub pending: u64,
    pub is_halted: bool,
}

/// A call on a processor of a hub, on whose shelf a delivery is under way.
#[derive(Clone, Copy)]
pub enum Turn {
    Enter,
    Commit,
    CommitOwn,
    Finish,
    Release,
    Settle,
}

/// A call of a checkpoint that runs while others work.
#[derive(Clone, Copy)]
pub enum Running {
    Begin,
    /// The shelf of a processor is handed in.
    Image(u16),
    Seal,
    Abandon,
}

/// The seat or pass that isn't handed in when a hub is closed.
#[derive(Clone, Copy)]
pub enum Without {
    Nothing,
    Seat(u16),
    Pass(u32),
}

/// The parts of a closed store: its disk, and its objects, unless memory was refused for the list
/// of them.
#[derive(Drop)]
pub struct Ended {
    pub disk: ProbeDisk,
    pub parts: Option<Parts>,
}

/// The counts of a client's pass.
#[derive(Clone, Copy)]
pub struct PassCounts {
    pub last: u64,
    pub accepted: u64,
}

/// A request of a client to a named handler.
#[derive(Clone, Copy)]
pub struct Call<'a> {
    pub client: u32,
    pub number: u64,
    pub name: &'a str,
    pub index: u64,
    pub words: &'a [u64],
}

/// A store on the disk of probes, and the passes of its clients.
pub trait Machine: Drop {
    /// Takes a step that isn't a checkpoint, by the client's pass if it has one and the step is the
    /// client's.
    fn step(&mut self, step: &Step) -> Result<Answer, Failed>;

    /// Makes all events durable in an image, which may have to wait for locks.
    fn checkpoint<R: Wait>(&mut self, rt: &R) -> Result<u64, Failed>;

    /// Makes a request to a named handler, by the client's pass.
    fn call(&mut self, handlers: &Handlers, call: &Call<'_>) -> Result<Told, Failed>;

    /// Takes blanks into the stock. If memory is refused, they are dropped.
    fn supply(&mut self, blanks: Vec<Object>) -> Result<(), Failed>;

    /// The message that is delivered next, and the processor that delivers it.
    fn next(&self) -> Option<(u16, MsgId)>;

    /// The ids of the pending messages.
    fn pending(&self) -> Result<Vec<MsgId>, AllocError>;

    /// Looks at an element.
    fn look(&mut self, elem: Elem) -> Result<Look, Failed>;

    /// Where the objects of a kind are.
    fn census(&self, kind: Kind) -> Census;

    /// The machine's counts.
    fn counts(&self) -> Counts;

    /// The bytes of an image.
    fn image(&mut self) -> Result<Vec<u8>, Failed>;

    /// Lends a client its pass.
    fn lend(&mut self, client: u32) -> Result<(), Failed>;

    /// Gives a client's pass back.
    fn give(&mut self, client: u32) -> Result<(), Failed>;

    /// The counts of a client's pass.
    fn pass(&self, client: u32) -> Result<PassCounts, Failed>;

    /// The knowledge of a client's pass about a request.
    fn known(&self, client: u32, number: u64) -> Result<Told, Failed>;

    /// Takes the machine apart, or returns it with the refusal.
    fn close(self, without: Without) -> Result<Ended, (Refusal, Self)>;

    /// The machine's disk. The objects are dropped. It is `None` if memory is refused twice.
    fn into_disk(self) -> Option<ProbeDisk>;

    /// Assigns a message to a processor of a hub.
    fn assign(&mut self, processor: u16, id: MsgId) -> Result<(), Failed>;

    /// Makes this call on a processor of a hub.
    fn turn(&mut self, turn: Turn, processor: u16) -> Result<(), Failed>;

    /// Lends the seat of a processor of a hub.
    fn lend_seat(&mut self, processor: u16) -> Result<(), Failed>;

    /// The ids of the seat of a processor of a hub.
    fn held(&self, processor: u16) -> Result<&[MsgId], Failed>;

    /// Flushes a hub, with all passes lent to the flush.
    fn tell(&mut self) -> Result<u64, Failed>;

    /// Makes this call of a checkpoint of a hub. A seal answers its generation.
    fn running(&mut self, call: Running) -> Result<Option<u64>, Failed>;
}
