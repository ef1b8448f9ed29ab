//! The trait of clients that are served in threads.

use charmlet_model::{Answer, Elem, Refusal, Words};

/// A client's question or request to a runtime.
#[derive(Debug, Drop)]
pub enum Ask {
    /// A request with the client's number for it. A repeat adds nothing.
    Request {
        number: u64,
        to: Elem,
        entry: u16,
        words: Words,
    },
    /// A question what is durable of the client's request of this number.
    Status(u64),
    /// A request that an element goes to a processor.
    Move {
        elem: Elem,
        processor: u16,
    },
    /// A request that all events become durable.
    Flush,
    /// A request that all events become durable in an image.
    Checkpoint,
}

/// A client of a runtime, which says what it asks next, and is answered, again and again. It has a
/// thread of its own, with a pass, but sees neither. So it needn't know the runtime's name.
pub trait Client: Drop {
    /// The number by which the store knows the client. The call comes once, before any other.
    fn number(&self) -> u32;

    /// The client's next question or request, or `None` to end. `answer` is the answer to the last
    /// one, and `None` at first. A refusal that it returns ends the client.
    fn next(&mut self, answer: Option<&Answer>) -> Result<Option<Ask>, Refusal>;
}
