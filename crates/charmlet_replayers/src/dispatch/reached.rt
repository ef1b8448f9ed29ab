//! The point that a log scan reached.

use charmlet_record::Fault;

/// The point that a log scan reached, which runs no entry method. If it isn't the end, an earlier
/// record may be faulty that only its receiver's replayer can find.
#[derive(Clone, Copy, Debug, PartialEq, Eq)]
pub enum Reached {
    /// All records were dispatched.
    End,
    /// The record at this place can't stand there.
    Fault(Fault),
    /// The log says that a record constructs its receiver, and no blank was left for it.
    OutOfBlanks,
}

/// The result of dispatching some records of a log.
#[derive(Clone, Copy, Debug, PartialEq, Eq)]
pub struct Chunk {
    /// The point among them that the scan reached.
    pub reached: Reached,
    /// How many events there are up to the last one of them, if the scan reached their end.
    pub so_far: u64,
    /// Whether these records are the log's last ones.
    pub is_last: bool,
}
