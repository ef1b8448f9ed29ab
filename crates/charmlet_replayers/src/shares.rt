//! Shares: the blanks that each of several replayers needs, and their sum.

pub mod laws;
