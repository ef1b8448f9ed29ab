//! The replay of a log by several replayers, with the result of one.

mod chunks;
mod forget;
mod log_round;
mod replay_error;

pub use crate::log::log_round::replay_log_parallel;
pub use crate::log::replay_error::ReplayError;
