//! Sequence numbers of messages, in rising order, and the looks that it takes to find one. A
//! message's sequence number is its number among all messages that ever came.

mod ring;
mod seq_nos;
mod ticks;

pub use crate::seq_nos::seq_nos::SeqNos;
pub use crate::seq_nos::ticks::Ticks;
