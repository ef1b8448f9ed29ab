//! Objects of all kinds, which count their calls.

mod objects;

pub use crate::objects::objects::{AnyObject, Object, Tally, blanks};
