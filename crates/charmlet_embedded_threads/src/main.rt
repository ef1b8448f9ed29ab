//! Uses a runtime with threads: clients, workers and a checkpoint at once, and then a restart.
#![tactic(auto)]

use anyhow::{Context, Result, bail};
use charmlet_service::{
    Answer, Ask, CONSTRUCT, Client, Counter, Elem, Kind, Manifest, MemDisk, Ran, Refusal, Told,
    Words, manifest, serve_new, serve_restarted, stock_from_objects,
};
use std::alloc::{AllocError, Global};

/// The entry of a counter that adds its first word, and replies the count.
const ADD: u16 = 0;

/// The number of a client's last request.
const LAST: u64 = 4;

/// A client makes a counter with its own number, adds that to it again and again, and waits until
/// it is told the count. Client 0 has no counter, and makes a checkpoint.
#[derive(Drop)]
struct Counting {
    alloc: Global,
    number: u32,
    sent: u64,
    count: Option<u64>,
}

impl Client for Counting {
    fn number(&self) -> u32 {
        self.number
    }

    fn next(&mut self, answer: Option<&Answer>) -> Result<Option<Ask>, Refusal> {
        if let Some(Answer::Refused(refusal)) = answer {
            return Err(*refusal);
        }
        if self.number == 0 {
            return Ok(if answer.is_none() {
                Some(Ask::Checkpoint)
            } else {
                None
            });
        }
        if self.sent < LAST {
            self.sent += 1;
            let index = u64::from(self.number);
            return Ok(Some(Ask::Request {
                number: self.sent,
                to: Elem { array: 0, index },
                entry: if self.sent == 1 { CONSTRUCT } else { ADD },
                words: Words::from_slice(self.alloc, &[index])?,
            }));
        }
        match answer {
            Some(Answer::Told(Told::Replied(words))) => {
                self.count = words.as_slice().first().copied();
                Ok(None)
            }
            Some(Answer::Flushed(_)) => Ok(Some(Ask::Status(LAST))),
            _ => Ok(Some(Ask::Flush)),
        }
    }
}

/// Client 0, and five that count.
fn clients(alloc: Global) -> Result<Vec<Counting>, AllocError> {
    let mut clients = Vec::new(alloc);
    for number in 0..=5 {
        clients.push(Counting {
            alloc,
            number,
            sent: 0,
            count: None,
        })?;
    }
    Ok(clients)
}

/// So many counters, all blank.
fn blanks(alloc: Global, count: u64) -> Result<Vec<Counter>, AllocError> {
    let mut blanks = Vec::new(alloc);
    for _ in 0..count {
        blanks.push(Counter::blank())?;
    }
    Ok(blanks)
}

/// Prints what clients were told and what is on the disk, which comes back.
fn tell(rt: HostRuntime, ran: Ran<MemDisk, Counting>) -> Result<MemDisk> {
    for client in ran.clients? {
        let client = client?;
        if let Some(count) = client.count {
            println!(rt; "client {} counts {count}", client.number)?;
        }
    }
    Ok(ran.disk)
}

fn main(rt: HostRuntime) -> Result<()> {
    let alloc = rt.alloc();
    let disk = MemDisk::new(alloc);
    let arrays = Manifest::of(alloc, &[(0, Kind::Counter.number())])?.context("no such arrays")?;
    let blank = blanks(alloc, 5)?;
    let mut disk = tell(
        rt,
        serve_new(&rt, alloc, disk, arrays, 4, blank, clients(alloc)?)?,
    )?;
    let found = manifest(alloc, &mut disk)?;
    println!(rt; "generation {}", found.generation)?;
    let Ok(stock) = stock_from_objects(alloc, blanks(alloc, found.wanted.of(Kind::Counter))?) else {
        bail!("no memory");
    };
    tell(
        rt,
        serve_restarted(&rt, alloc, disk, stock, 2, clients(alloc)?)?,
    )?;
    Ok(())
}
