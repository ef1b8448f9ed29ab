//! Lines of scripts.

use crate::bench::Bench;
use crate::objects::blanks;
use crate::saying::say;
use crate::showing::{say_census, say_pending, say_state};
use crate::store::{Call, Failed, Machine};
use crate::store_of::store_of;
use charmlet_model::{Answer, Kind, Step};
use charmlet_script::{Drained, Line, Runner, Supplied, read_restart_script};
use std::sync::Wait;

impl Bench {
    /// Runs a line of a script.
    pub fn script<M: Machine, R: Wait>(
        &mut self,
        rt: &R,
        store: &mut Option<M>,
        text: &str,
        out: &mut Vec<u8>,
    ) -> Result<(), Failed> {
        let script = read_restart_script(self.alloc, &mut text.as_bytes(), Runner::Engine)?;
        match script.lines().first() {
            Some(line) => self.run(rt, store_of(store)?, line, out),
            None => Ok(()),
        }
    }

    fn run<M: Machine, R: Wait>(
        &mut self,
        rt: &R,
        machine: &mut M,
        line: &Line,
        out: &mut Vec<u8>,
    ) -> Result<(), Failed> {
        match line {
            Line::Supply { kind, count } => self.supply(machine, *kind, *count, out),
            Line::Drain { count } => self.drain(machine, *count, out),
            Line::Step(Step::Checkpoint) => {
                let generation = machine.checkpoint(rt)?;
                say(self.alloc, out, &Answer::Checkpointed(generation))
            }
            Line::Step(step) => {
                let answer = machine.step(step)?;
                say(self.alloc, out, &answer)
            }
            Line::Call {
                client,
                number,
                name,
                index,
                words,
            } => {
                let call = Call {
                    client: *client,
                    number: *number,
                    name: name.as_str(),
                    index: *index,
                    words: words.as_slice(),
                };
                let told = machine.call(&self.handlers, &call)?;
                say(self.alloc, out, &Answer::Told(told))
            }
            Line::State(elem) => say_state(self.alloc, machine, *elem, out),
            Line::Pending => say_pending(self.alloc, machine, out),
            Line::Census => say_census(self.alloc, machine, out),
        }
    }

    /// Supplies this many blanks to the store.
    fn supply<M: Machine>(
        &mut self,
        machine: &mut M,
        kind: Kind,
        count: u32,
        out: &mut Vec<u8>,
    ) -> Result<(), Failed> {
        let brought = blanks(self.alloc, &self.tally, &[(kind, u64::from(count))])?;
        machine.supply(brought)?;
        say(self.alloc, out, &Supplied { kind, count })
    }

    /// Delivers the oldest message that can be delivered, and once more if it is refused memory and
    /// that is asked for.
    fn deliver_again<M: Machine>(&mut self, machine: &mut M) -> Result<bool, Failed> {
        let result = deliver_next(machine);
        match &result {
            Err(failed) if self.again && failed.is_memory() => deliver_next(machine),
            _ => result,
        }
    }

    /// Delivers the oldest message that can be delivered, up to `most` times. Returns how often it
    /// did, and the refusal that ended it, if there was one.
    fn deliver<M: Machine>(&mut self, machine: &mut M, most: u32) -> (u32, Result<(), Failed>) {
        for delivered in 0..most {
            match self.deliver_again(machine) {
                Ok(true) => {}
                Ok(false) => return (delivered, Ok(())),
                Err(failed) => return (delivered, Err(failed)),
            }
        }
        (most, Ok(()))
    }

    fn drain<M: Machine>(
        &mut self,
        machine: &mut M,
        most: u32,
        out: &mut Vec<u8>,
    ) -> Result<(), Failed> {
        let (delivered, result) = self.deliver(machine, most);
        let left = machine.counts().pending;
        say(self.alloc, out, &Drained { delivered, left })?;
        result
    }
}

/// Delivers the oldest message that can be delivered, and returns whether there was one.
fn deliver_next<M: Machine>(machine: &mut M) -> Result<bool, Failed> {
    let Some((processor, id)) = machine.next() else {
        return Ok(false);
    };
    machine.step(&Step::Deliver { processor, id })?;
    Ok(true)
}
