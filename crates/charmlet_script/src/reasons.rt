//! The reasons why a line of a script is malformed, and doubts about a script that is well formed.
//!
//! The readers of this crate report the number of the first malformed line, and no more. This
//! module has the one table of a script's lines in words, and the reasons that follow from it.

mod calls;
mod explanation;
mod line;
mod near;
mod place;
mod reason;
mod setting;
mod shown;
mod source;
mod table;
mod word;

pub use calls::{WellFormed, well_formed};
pub use explanation::{Explanation, explain};
pub use near::nearest;
pub use setting::{Purpose, Setting};
