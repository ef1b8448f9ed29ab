//! Leases of a runtime with threads: the seats of workers, the passes of clients, and the tickets
//! that hint at what a processor may deliver. The hub has the counterpart of each.
#![tactic(auto)]

mod passes;
mod seats;
mod tickets;

pub use crate::passes::{ClientPass, GhostPass, PassTable, PassesOut, steps_keep_passes};
pub use crate::seats::{DeliveryIds, GhostIds, Seat, SeatTable, SeatTableName, SeatsOut};
pub use crate::tickets::{CAPACITY, TicketQueue};
