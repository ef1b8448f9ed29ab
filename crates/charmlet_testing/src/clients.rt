//! Passes of clients.

use crate::bench::Bench;
use crate::saying::say;
use crate::store::{Failed, Machine};
use crate::store_of::store_of;
use charmlet_model::Answer;
use std::io::Write;

/// Lends a client its pass, by which it goes from then on.
pub fn lend<M: Machine>(
    store: &mut Option<M>,
    client: u32,
    out: &mut Vec<u8>,
) -> Result<(), Failed> {
    store_of(store)?.lend(client)?;
    Ok(writeln!(out, "lent {client}")?)
}

/// Gives a client's pass back.
pub fn give<M: Machine>(
    store: &mut Option<M>,
    client: u32,
    out: &mut Vec<u8>,
) -> Result<(), Failed> {
    store_of(store)?.give(client)?;
    Ok(writeln!(out, "given {client}")?)
}

/// Prints the counts of a client's pass.
pub fn pass<M: Machine>(
    store: &mut Option<M>,
    client: u32,
    out: &mut Vec<u8>,
) -> Result<(), Failed> {
    let counts = store_of(store)?.pass(client)?;
    let (last, accepted) = (counts.last, counts.accepted);
    Ok(writeln!(out, "pass {client} last {last} accepted {accepted}")?)
}

impl Bench {
    /// Prints the knowledge of a client's pass about a request.
    pub fn known<M: Machine>(
        &self,
        store: &mut Option<M>,
        client: u32,
        number: u64,
        out: &mut Vec<u8>,
    ) -> Result<(), Failed> {
        let told = store_of(store)?.known(client, number)?;
        say(self.alloc, out, &Answer::Told(told))
    }
}
