//! Lines of probes over an engine.

use crate::disk::ProbeDisk;
use crate::objects::Object;
use crate::store::failed::Failed;
use crate::store::machine::{Call, Counts, Ended, Machine, PassCounts, Running, Turn, Without};
use crate::store::parts::Parts;
use crate::store::probe_store::ProbeStore;
use charmlet_engine::{Closed, Engine};
use charmlet_model::{Answer, Elem, Kind, MsgId, Refusal, Step, Told};
use charmlet_requests::{ClientPass, Handlers, Passes, Request};
use charmlet_store::{Census, Look};
use std::alloc::{AllocError, Global};
use std::collections::BTreeMap;
use std::sync::Wait;

/// What is lacking for a line that only hubs have.
const HUB: Failed = Failed::Lacks("hub");

/// An engine, and the passes of its clients.
pub struct EngineMachine {
    engine: Engine<ProbeDisk, Object>,
    passes: Passes,
    held: BTreeMap<u32, ClientPass>,
}

// Written by hand, so that dropping an engine is proved here, and not in each crate that drops such
// a machine.
impl Drop for EngineMachine {
    fn drop(self) {
        let EngineMachine {
            engine,
            passes,
            held,
        } = self;
        drop(engine);
        drop(passes);
        drop(held);
    }
}

/// The answer to a client's request or question.
fn answer_of(told: Result<Told, Refusal>) -> Result<Answer, Failed> {
    match told {
        Ok(told) => Ok(Answer::Told(told)),
        Err(refusal) => Err(Failed::Refused(refusal)),
    }
}

impl EngineMachine {
    /// The machine over a store with no pass out.
    pub fn new(alloc: Global, store: ProbeStore) -> EngineMachine {
        EngineMachine {
            engine: store.into_engine(),
            passes: Passes::new(alloc),
            held: BTreeMap::new(alloc),
        }
    }

    /// Takes a step, without a pass.
    fn take(&mut self, step: &Step) -> Result<Answer, Failed> {
        match self.engine.step(step) {
            Answer::Refused(refusal) => Err(Failed::Refused(refusal)),
            answer => Ok(answer),
        }
    }

    /// Keeps a client's pass, which is given back at once if memory is refused.
    fn keep(&mut self, client: u32, pass: ClientPass) -> Result<(), Failed> {
        match self.held.insert(client, pass) {
            Ok(_) => Ok(()),
            Err(failed) => {
                let (_, pass) = failed.value;
                self.passes.give_back(pass);
                Err(Failed::MEMORY)
            }
        }
    }
}

impl Machine for EngineMachine {
    fn step(&mut self, step: &Step) -> Result<Answer, Failed> {
        match step {
            Step::Request {
                client,
                number,
                to,
                entry,
                words,
            } => match self.held.get_mut(client) {
                Some(pass) => {
                    let request = Request {
                        number: *number,
                        to: *to,
                        entry: *entry,
                        words: words.as_slice(),
                    };
                    answer_of(self.engine.request(pass, &request))
                }
                None => self.take(step),
            },
            Step::Status { client, number } => match self.held.get_mut(client) {
                Some(pass) => answer_of(self.engine.status(pass, *number)),
                None => self.take(step),
            },
            _ => self.take(step),
        }
    }

    fn checkpoint<R: Wait>(&mut self, _rt: &R) -> Result<u64, Failed> {
        match self.engine.step(&Step::Checkpoint) {
            Answer::Checkpointed(generation) => Ok(generation),
            Answer::Refused(refusal) => Err(Failed::Refused(refusal)),
            _ => Err(Failed::Lacks("checkpoint")),
        }
    }

    fn call(&mut self, handlers: &Handlers, call: &Call<'_>) -> Result<Told, Failed> {
        let Some(pass) = self.held.get_mut(&call.client) else {
            return Err(Failed::Lacks("pass"));
        };
        let (number, index) = (call.number, call.index);
        Ok(
            self.engine
                .call(pass, handlers, number, call.name, index, call.words)?,
        )
    }

    fn supply(&mut self, blanks: Vec<Object>) -> Result<(), Failed> {
        match self.engine.supply(blanks) {
            Ok(()) => Ok(()),
            Err(_) => Err(Failed::MEMORY),
        }
    }

    fn next(&self) -> Option<(u16, MsgId)> {
        self.engine.next()
    }

    fn pending(&self) -> Result<Vec<MsgId>, AllocError> {
        self.engine.pending()
    }

    fn look(&mut self, elem: Elem) -> Result<Look, Failed> {
        Ok(self.engine.look(elem)?)
    }

    fn census(&self, kind: Kind) -> Census {
        self.engine.census(kind)
    }

    fn counts(&self) -> Counts {
        Counts {
            generation: self.engine.generation(),
            durable: self.engine.durable(),
            events: self.engine.event_count(),
            pending: self.engine.pending_count() as u64,
            is_halted: self.engine.is_halted(),
        }
    }

    fn image(&mut self) -> Result<Vec<u8>, Failed> {
        Ok(self.engine.image()?)
    }

    fn lend(&mut self, client: u32) -> Result<(), Failed> {
        let pass = self.engine.lend(&mut self.passes, client)?;
        self.keep(client, pass)
    }

    fn give(&mut self, client: u32) -> Result<(), Failed> {
        let Some(pass) = self.held.remove(&client) else {
            return Err(Failed::Lacks("pass"));
        };
        self.passes.give_back(pass);
        Ok(())
    }

    fn pass(&self, client: u32) -> Result<PassCounts, Failed> {
        match self.held.get(&client) {
            Some(pass) => Ok(PassCounts {
                last: pass.last(),
                accepted: pass.accept_count(),
            }),
            None => Err(Failed::Lacks("pass")),
        }
    }

    fn known(&self, client: u32, number: u64) -> Result<Told, Failed> {
        match self.held.get(&client) {
            Some(pass) => Ok(pass.known(number)?),
            None => Err(Failed::Lacks("pass")),
        }
    }

    fn close(self, _without: Without) -> Result<Ended, (Refusal, EngineMachine)> {
        let EngineMachine {
            engine,
            passes,
            held,
        } = self;
        match engine.close() {
            Ok(Closed { disk, parts }) => Ok(Ended {
                disk,
                parts: Some(Parts::new(parts)),
            }),
            Err(engine) => Err((
                Refusal::Memory,
                EngineMachine {
                    engine,
                    passes,
                    held,
                },
            )),
        }
    }

    fn into_disk(self) -> Option<ProbeDisk> {
        let EngineMachine {
            engine,
            passes: _,
            held: _,
        } = self;
        Some(engine.into_disk())
    }

    fn assign(&mut self, _processor: u16, _id: MsgId) -> Result<(), Failed> {
        Err(HUB)
    }

    fn turn(&mut self, _turn: Turn, _processor: u16) -> Result<(), Failed> {
        Err(HUB)
    }

    fn lend_seat(&mut self, _processor: u16) -> Result<(), Failed> {
        Err(HUB)
    }

    fn held(&self, _processor: u16) -> Result<&[MsgId], Failed> {
        Err(HUB)
    }

    fn tell(&mut self) -> Result<u64, Failed> {
        Err(HUB)
    }

    fn running(&mut self, _call: Running) -> Result<Option<u64>, Failed> {
        Err(HUB)
    }
}
