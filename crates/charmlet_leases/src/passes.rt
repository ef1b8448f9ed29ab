//! Passes of clients over a history that many threads share.
//!
//! A pass holds what its client was told, and its client's accepts since it was lent. The table of
//! passes has the same. So it is known without a comparison, whatever other threads do with the
//! history: what each client was told is true of the durable events, the client is told no less
//! than before, and its pass has exactly its accepts.

mod laws;
mod pass;
mod table;

pub use crate::passes::laws::steps_keep_passes;
pub use crate::passes::pass::{ClientPass, GhostPass};
pub use crate::passes::table::{PassTable, PassesOut};
