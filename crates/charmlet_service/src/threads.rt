//! Threads that serve the clients of a runtime.

use crate::client::{Ask, Client};
use charmlet_chare::Chare;
use charmlet_disk::Disk;
use charmlet_history::Request;
use charmlet_hub::PassesOf;
use charmlet_leases::ClientPass;
use charmlet_model::{Answer, Refusal, Told};
use charmlet_sequencer::RuntimeName;
use charmlet_workers::{OpenGate, Runtime, Worked, WorkerSlot};
use std::alloc::Global;
use std::sync::Wait;
use std::sync::atomic::{AtomicBool, Ordering};
use std::thread;
use std::thread::{Threads, for_each_mut, join, map_vec};

/// How many turns a worker takes before it checks whether all clients have ended.
const TURNS: u64 = 64;

/// The results of clients: each client as it ended, or the refusal that ended it. If memory was
/// lacking for their threads or for the workers' seats, it is that refusal alone.
pub type Served<A> = Result<Vec<Result<A, Refusal>>, Refusal>;

/// Serves each client in a thread of its own, while a worker for each processor delivers in
/// another. It returns once all clients have ended.
pub(crate) fn serve_all<
    D: Disk,
    C: Chare,
    A: Client + Send,
    B: RuntimeName + Send + Sync,
    R: Threads + Wait + Sync,
>(
    rt: &R,
    alloc: Global,
    runtime: &Runtime<D, C, B>,
    processors: u16,
    clients: Vec<A>,
) -> Served<A> {
    let mut slots = Vec::new(alloc);
    for processor in 0..processors {
        match runtime.seat(rt, processor) {
            Ok(seat) => {
                let worked = Worked {
                    count: 0,
                    refusal: None,
                };
                if slots.push(WorkerSlot { seat, worked }).is_err() {
                    return Err(Refusal::Memory);
                }
            }
            Err(refusal) => return Err(refusal),
        }
    }
    let seats = slots.as_mut_slice();
    let ended = AtomicBool::new(false);
    let (served, ()) = join(
        rt,
        || {
            let served = serve_each(rt, runtime, clients);
            ended.store(true, Ordering::SeqCst);
            served
        },
        || work_until(rt, runtime, seats, &ended),
    );
    served
}

/// Serves each client in a thread of its own.
fn serve_each<
    D: Disk,
    C: Chare,
    A: Client + Send,
    B: RuntimeName + Send + Sync,
    R: Threads + Wait + Sync,
>(rt: &R, runtime: &Runtime<D, C, B>, clients: Vec<A>) -> Served<A> {
    match map_vec(rt, clients, &|client: A| serve(rt, runtime, client)) {
        Ok(served) => Ok(served),
        Err(_) => Err(Refusal::Memory),
    }
}

/// Answers a client's questions and requests until it has ended. `PassOut` if another client has
/// its number.
fn serve<D: Disk, C: Chare, A: Client, B: RuntimeName, R: Wait>(
    rt: &R,
    runtime: &Runtime<D, C, B>,
    client: A,
) -> Result<A, Refusal> {
    let mut client = client;
    let mut pass = match runtime.client(rt, client.number()) {
        Ok(pass) => pass,
        Err(refusal) => return Err(refusal),
    };
    let mut last = None;
    for _ in rt.forever() {
        match client.next(last.as_ref()) {
            Ok(Some(ask)) => last = Some(answer_to(rt, runtime, &mut pass, &ask)),
            Ok(None) => return Ok(client),
            Err(refusal) => return Err(refusal),
        }
    }
    unreachable!()
}

/// The answer to a client's question or request, by its pass.
fn answer_to<D: Disk, C: Chare, B: RuntimeName, R: Wait>(
    rt: &R,
    runtime: &Runtime<D, C, B>,
    pass: &mut ClientPass<PassesOf<B>>,
    ask: &Ask,
) -> Answer {
    match ask {
        Ask::Request {
            number,
            to,
            entry,
            words,
        } => {
            let request = Request {
                number: *number,
                to: *to,
                entry: *entry,
                words: words.as_slice(),
            };
            told_or_refused(runtime.request(rt, pass, &request))
        }
        Ask::Status(number) => told_or_refused(runtime.status(rt, pass, *number)),
        Ask::Move { elem, processor } => {
            match runtime.move_to(rt, *elem, *processor) {
                Ok(()) => Answer::Moved {
                    elem: *elem,
                    processor: *processor,
                },
                Err(refusal) => Answer::Refused(refusal),
            }
        }
        Ask::Flush => {
            let mut none: [ClientPass<PassesOf<B>>; 0] = [];
            match runtime.flush(rt, &mut none) {
                Ok(count) => Answer::Flushed(count),
                Err(refusal) => Answer::Refused(refusal),
            }
        }
        Ask::Checkpoint => {
            match runtime.checkpoint(rt) {
                Ok(generation) => Answer::Checkpointed(generation),
                Err(refusal) => Answer::Refused(refusal),
            }
        }
    }
}

/// The answer to a client: what it is told, or the refusal.
fn told_or_refused(told: Result<Told, Refusal>) -> Answer {
    match told {
        Ok(told) => Answer::Told(told),
        Err(refusal) => Answer::Refused(refusal),
    }
}

/// Has the worker of each of these seats deliver, in a thread of its own, until all clients have
/// ended.
fn work_until<D: Disk, C: Chare, B: RuntimeName + Send + Sync, R: Threads + Wait + Sync>(
    rt: &R,
    runtime: &Runtime<D, C, B>,
    slots: &mut [WorkerSlot<B>],
    ended: &AtomicBool,
) {
    let count = slots.len();
    if count == 0 {
        return;
    }
    for_each_mut(
        rt,
        slots,
        count,
        &|_place: usize, slot: &mut WorkerSlot<B>| deliver_until(rt, runtime, slot, ended),
    );
}

/// Has a worker deliver until all clients have ended. A refused worker goes on, since what it lacks
/// may come.
fn deliver_until<D: Disk, C: Chare, B: RuntimeName, R: Wait>(
    rt: &R,
    runtime: &Runtime<D, C, B>,
    slot: &mut WorkerSlot<B>,
    ended: &AtomicBool,
) {
    for _ in rt.forever() {
        if ended.load(Ordering::SeqCst) {
            return;
        }
        slot.worked = runtime.work(rt, &mut slot.seat, &OpenGate, TURNS);
        if slot.worked.refusal.is_some() {
            thread::yield_now();
        }
    }
}
