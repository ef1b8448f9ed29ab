//! Seats of workers.
//!
//! A seat is the right to work for a processor, and holds the ids of the deliveries that were
//! committed with it. The table of seats has the same ids, and a list of its own, of the commits
//! without a seat. So it is known without a comparison that these lists are all deliveries: each is
//! in one of them, in the order of the commits.

mod ids;
mod seat;
mod table;

pub use crate::seats::ids::DeliveryIds;
pub use crate::seats::seat::{GhostIds, Seat, SeatTableName};
pub use crate::seats::table::{SeatTable, SeatsOut};
