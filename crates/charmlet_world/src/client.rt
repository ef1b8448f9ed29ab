//! Clients' rows in the present world and in the durable one.

mod client;

pub use crate::client::client::Client;
