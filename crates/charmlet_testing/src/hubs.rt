//! Lines of probes that only hubs have.

use crate::bench::Bench;
use crate::saying::say;
use crate::store::{Failed, Machine, Running, Turn};
use crate::store_of::store_of;
use charmlet_model::{Answer, Step};
use charmlet_script::{Line, Runner, read_restart_script};
use std::alloc::Global;
use std::io::Write;

impl Bench {
    /// Assigns a message to a processor, as the line `deliver` with these words delivers it.
    pub fn assign<M: Machine>(
        &mut self,
        store: &mut Option<M>,
        text: &str,
        out: &mut Vec<u8>,
    ) -> Result<(), Failed> {
        let script = read_restart_script(self.alloc, &mut text.as_bytes(), Runner::Engine)?;
        let Some(Line::Step(Step::Deliver { processor, id })) = script.lines().first() else {
            return Err(Failed::Malformed);
        };
        store_of(store)?.assign(*processor, *id)?;
        Ok(writeln!(out, "assigned {id}")?)
    }

    /// Flushes, with all passes lent to the flush.
    pub fn tell<M: Machine>(
        &mut self,
        store: &mut Option<M>,
        out: &mut Vec<u8>,
    ) -> Result<(), Failed> {
        let durable = store_of(store)?.tell()?;
        say(self.alloc, out, &Answer::Flushed(durable))
    }
}

/// Makes this call on a processor, and prints the name of the line once it is done.
pub fn turn<M: Machine>(
    store: &mut Option<M>,
    turn: Turn,
    name: &str,
    processor: u16,
    out: &mut Vec<u8>,
) -> Result<(), Failed> {
    store_of(store)?.turn(turn, processor)?;
    Ok(writeln!(out, "{name} {processor} done")?)
}

/// Lends the seat of a processor.
pub fn lend_seat<M: Machine>(
    store: &mut Option<M>,
    processor: u16,
    out: &mut Vec<u8>,
) -> Result<(), Failed> {
    store_of(store)?.lend_seat(processor)?;
    Ok(writeln!(out, "seat {processor} lent")?)
}

/// Prints the ids of the seat of a processor.
pub fn held<M: Machine>(
    store: &mut Option<M>,
    processor: u16,
    out: &mut Vec<u8>,
) -> Result<(), Failed> {
    let ids = store_of(store)?.held(processor)?;
    write!(out, "held {processor}")?;
    for id in ids {
        write!(out, " {id}")?;
    }
    Ok(writeln!(out)?)
}

/// Makes this call of a checkpoint that runs while others work, and prints that it is done.
pub fn checkpoint<M: Machine>(
    alloc: Global,
    store: &mut Option<M>,
    call: Running,
    out: &mut Vec<u8>,
) -> Result<(), Failed> {
    let sealed = store_of(store)?.running(call)?;
    if let Some(generation) = sealed {
        return say(alloc, out, &Answer::Checkpointed(generation));
    }
    match call {
        Running::Begin => Ok(writeln!(out, "begun")?),
        Running::Image(processor) => Ok(writeln!(out, "imaged {processor}")?),
        _ => Ok(writeln!(out, "abandoned")?),
    }
}
