//! The present world, changed by one event at a time: its pending messages, its elements, and its
//! clients.
#![tactic(auto)]

mod calls;
mod client;
mod clients;
mod element;
mod elements;
mod envelope;
mod envelopes;
pub mod laws;
mod messages;
mod pending;
mod pending_message;
mod present;
mod receivers;
mod scheduler;
mod sends;

pub use crate::client::Client;
pub use crate::element::Element;
pub use crate::elements::{Elements, Slot};
pub use crate::messages::Messages;
pub use crate::pending::{Pending, Taken};
pub use crate::pending_message::PendingMessage;
pub use crate::present::PresentWorld;
pub use charmlet_chare::Output;
