//! Workers, which deliver messages.

ghost use Rattle.std.specs.Prelude.{◌≡◌, ℕ, ◌<◌, ◌≤◌, None, Some, false, true, IfErr, IfOk, IfSome, OnErr, OnOk, length, slice_index_or};
ghost use Rattle.charmlet_model.specs.declared.refusal.Refusal.TheVariants as refusals;
ghost use Rattle.charmlet_history.specs.Kept.{oldest_on_in};
ghost use Rattle.charmlet_migrate.specs.Moving.{IsIdle};
ghost use Rattle.charmlet_shelf.specs.Shelf.{is_assigned};
ghost use Rattle.charmlet_sequencer.specs.Shelf.{is_done};
ghost use Rattle.charmlet_hub.specs.Hub.{roomless};
ghost use Rattle.charmlet_workers.specs.Working.{HasServed, Takes};
ghost use Rattle.charmlet_workers.specs.Refusals.{is_work_refusal};

use crate::gate::{Gate, wait_at};
use crate::runtime::Runtime;
use charmlet_chare::Chare;
use charmlet_disk::Disk;
use charmlet_hub::{Hub, SeatsOf};
use charmlet_leases::{CAPACITY, Seat};
use charmlet_model::{MsgId, Refusal};
use charmlet_ready_queue::Ticks;
use charmlet_sequencer::{ProcessorState, RuntimeName};
use std::marker::Brand;
use std::sync::ledger::{Blank, Ledger};
use std::sync::{MutexGuard, Wait};
use std::thread::Threads;
use std::{hint, thread};

/// The result of a worker's work: how many deliveries were committed with its seat, and the refusal
/// that ended it, if one did.
#[derive(Debug, Drop)]
pub struct Worked {
    pub count: u64,
    pub refusal: Option<Refusal>,
}

/// The number of turns without a ticket in which the hub is asked once.
pub const IDLE_TURNS: u64 = 16;

/// The fewest times that a worker spins after a try of the hub's lock.
const LEAST_SPINS: u32 = 16;

/// The most times that a worker spins after a try of the hub's lock.
const MOST_SPINS: u32 = 1_024;

/// How often a worker spins and tries again before it waits for the hub's lock.
const MOST_TRIES: u32 = 40;

/// The pace of a worker's turns.
#[derive(Clone, Copy, Debug, Drop)]
struct Pace {
    /// The message that was assigned for the next turn.
    ahead: Option<MsgId>,
    /// How many turns have found nothing since a turn found something.
    idle: u64,
    /// Whether there is one more turn.
    goes_on: bool,
    /// How often the worker spins when it finds the hub's lock taken.
    spins: u32,
}

impl Pace {
    /// The pace of a worker that begins.
    fn new() -> Self {
        Pace {
            ahead: None,
            idle: 0,
            goes_on: false,
            spins: LEAST_SPINS,
        }
    }
}

impl<D: Disk, C: Chare, B: RuntimeName> Runtime<D, C, B> {
    /// Delivers messages on the seat's processor, in at most `turns` turns. In each turn the worker
    /// gets the oldest message that can be delivered there, if there is one, asks the gate, lets
    /// the receiver react, commits, and tells the gate. The seat holds the ids of the committed
    /// deliveries. The first refusal ends the work: an assigned message is released then, and a
    /// delivery that can't be committed, since the store is halted, stays on its shelf. The refusal
    /// is one of `Halted`, `HistoryFull`, `NoBlank` and `Memory`.
    ///
    /// The message of the next turn is assigned in the hold of the hub in which a delivery is
    /// committed. Between two turns the shelf is free, and a thread that takes its lock then may
    /// release that message. After a turn that found nothing the hub is asked again once there is a
    /// ticket in the processor's queue. Without a ticket, which may be lost, the hub is asked in
    /// one of [`IDLE_TURNS`] turns, and the others let other threads run.
    pub fn work<G: Gate, R: Wait>(
        &self,
        rt: &R,
        seat: &mut Seat<SeatsOf<B>>,
        gate: &G,
        turns: u64,
    ) -> Worked
        ensures { HasServed seat.old seat.new turns result }
    {
        let mut pace = Pace::new();
        let mut count = 0;
        for turn in 0..turns {
            pace.goes_on = turn + 1 < turns;
            match self.turn(rt, seat, gate, &mut pace) {
                Ok(Some(_id)) => count += 1,
                Ok(None) => {}
                Err(refusal) => {
                    return Worked {
                        count,
                        refusal: Some(refusal),
                    };
                }
            }
        }
        Worked {
            count,
            refusal: None,
        }
    }

    /// Takes one turn. The gate is told once the shelf is free again.
    fn turn<G: Gate, R: Wait>(
        &self,
        rt: &R,
        seat: &mut Seat<SeatsOf<B>>,
        gate: &G,
        pace: &mut Pace,
    ) -> Result<Option<MsgId>, Refusal>
        ensures ok { IfOk result (Takes seat.old seat.new) }
        ensures err { OnErr result (Takes seat.old seat.new None) }
        ensures refused { IfErr result (λ refusal. is_work_refusal refusal ≡ true) }
    {
        if !is_called(seat, pace) {
            thread::yield_now();
            return Ok(None);
        }
        let delivered = self.deliver_there(rt, seat, gate, pace);
        if let Ok(Some(id)) = &delivered {
            gate.committed(seat.processor(), id);
        }
        delivered
    }

    /// Makes a delivery on the seat's processor, whose shelf is locked for it.
    fn deliver_there<G: Gate, R: Wait>(
        &self,
        rt: &R,
        seat: &mut Seat<SeatsOf<B>>,
        gate: &G,
        pace: &mut Pace,
    ) -> Result<Option<MsgId>, Refusal>
        ensures ok { IfOk result (Takes seat.old seat.new) }
        ensures err { OnErr result (Takes seat.old seat.new None) }
        ensures refused { IfErr result (λ refusal. is_work_refusal refusal ≡ true) }
    {
        let mut held = self.shelves.lock(rt, usize::from(seat.processor()));
        self.deliver(rt, held.grip.get_mut(), seat, gate, pace)
    }

    /// Makes a delivery on the locked shelf of the seat's processor. The hub is taken only while a
    /// message is assigned and while its delivery is committed or released.
    fn deliver<G: Gate, R: Wait>(
        &self,
        rt: &R,
        locked: &mut ProcessorState<C, B>,
        seat: &mut Seat<SeatsOf<B>>,
        gate: &G,
        pace: &mut Pace,
    ) -> Result<Option<MsgId>, Refusal>
        requires { locked.old.number ≡ seat.old.processor }
        ensures number { locked.new.number ≡ locked.old.number }
        ensures ok { IfOk result (Takes seat.old seat.new) }
        ensures err { OnErr result (Takes seat.old seat.new None) }
        ensures refused { IfErr result (λ refusal. is_work_refusal refusal ≡ true) }
    {
        let id = match self.next_on(rt, locked, pace) {
            Ok(Some(id)) => id,
            Ok(None) => {
                pace.idle = pace.idle.saturating_add(1);
                return Ok(None);
            }
            Err(refusal) => return Err(refusal),
        };
        pace.ahead = None;
        pace.idle = 0;
        if seat.reserve(1).is_err() {
            self.lock_hub(rt, pace).release(locked);
            return Err(Refusal::Memory);
        }
        wait_at(gate, locked, seat.processor(), &id);
        if locked.enter().is_err() {
            self.lock_hub(rt, pace).release(locked);
            return Err(Refusal::Memory);
        }
        let committed = commit_and_go_on(&mut self.lock_hub(rt, pace), locked, seat, pace);
        match committed {
            Ok(id) => Ok(Some(id)),
            Err(refusal) => Err(refusal),
        }
    }

    /// The message that is assigned on a locked shelf. If none is assigned yet, the oldest that can
    /// be delivered there is assigned, if there is one.
    fn next_on<R: Wait>(
        &self,
        rt: &R,
        locked: &mut ProcessorState<C, B>,
        pace: &mut Pace,
    ) -> Result<Option<MsgId>, Refusal>
        ensures number { locked.new.number ≡ locked.old.number }
        ensures assigned { IfOk result (λ o. IfSome o (λ _. is_assigned locked.new.phase ≡ true)) }
        ensures refused { IfErr result (λ refusal. is_work_refusal refusal ≡ true) }
    {
        if let Some(id) = pace.ahead {
            if locked.is_assigned() {
                return Ok(Some(id));
            }
        }
        if let Err(refusal) = self.settle(rt, locked) {
            return Err(refusal);
        }
        assign_oldest(&mut self.lock_hub(rt, pace), locked)
    }

    /// Takes the hub's lock.
    ///
    /// Each try takes the bytes of the lock, and of the hub next to it, from the processor that has
    /// them; and a waiting worker has to be woken by another one. So a worker that finds the lock
    /// taken stays away for longer and longer, while another worker makes several deliveries, and
    /// waits only after many tries. It begins with half of the time that it stayed away before it
    /// last got the lock, so that it comes back soon if others seldom take the lock.
    fn lock_hub<R: Wait>(&self, rt: &R, pace: &mut Pace) -> MutexGuard<'_, Hub<D, C, B>> {
        if let Some(guard) = self.hub.try_lock() {
            return guard;
        }
        let mut spins = pace.spins;
        for _ in 0..MOST_TRIES {
            stay_away(spins);
            pace.spins = (spins / 2).max(LEAST_SPINS);
            if let Some(guard) = self.hub.try_lock() {
                return guard;
            }
            spins = spins.saturating_mul(2).min(MOST_SPINS);
        }
        self.hub.lock(rt)
    }

    /// Commits a performed delivery on a locked shelf that couldn't be committed, without a seat.
    /// Each call that takes a shelf's lock does so first. The only refusal is `Halted`.
    pub(crate) fn catch_up<R: Wait>(
        &self,
        rt: &R,
        locked: &mut ProcessorState<C, B>,
    ) -> Result<(), Refusal>
        ensures number { locked.new.number ≡ locked.old.number }
        ensures settled { OnOk result (is_done locked.new.phase ≡ false) }
        ensures err { IfErr result (λ refusal. refusal ≡ refusals.Halted) }
    {
        if !locked.is_done() {
            return Ok(());
        }
        let committed = self.hub.lock(rt).commit_without_seat(locked);
        match committed {
            Ok(_id) => Ok(()),
            Err(refusal) => Err(refusal),
        }
    }
}

/// Spins this often, without a look at anything that other threads write.
fn stay_away(spins: u32) {
    for _ in 0..spins {
        hint::spin_loop();
    }
}

/// Whether to ask the hub in this turn. All tickets of the processor's queue are taken, unless the
/// message of the turn is assigned already.
fn is_called<B: RuntimeName>(seat: &mut Seat<SeatsOf<B>>, pace: &mut Pace) -> bool
    ensures { seat.new ≡ seat.old }
{
    if pace.ahead.is_some() || pace.idle == 0 {
        return true;
    }
    if takes_tickets(seat) || pace.idle % IDLE_TURNS == 0 {
        return true;
    }
    pace.idle = pace.idle.saturating_add(1);
    false
}

/// Takes all tickets of the processor's queue, and returns whether there was one.
fn takes_tickets<B: RuntimeName>(seat: &mut Seat<SeatsOf<B>>) -> bool
    ensures { seat.new ≡ seat.old }
{
    let mut any = false;
    for _ticket in 0..CAPACITY {
        if seat.next_ticket().is_none() {
            return any;
        }
        any = true;
    }
    any
}

/// Commits the performed delivery on the shelf. If it is committed and there is one more turn, the
/// message of that turn is assigned: the oldest that can be delivered there, if there is one and it
/// isn't refused.
fn commit_and_go_on<D: Disk, C: Chare, B: RuntimeName>(
    hub: &mut Hub<D, C, B>,
    locked: &mut ProcessorState<C, B>,
    seat: &mut Seat<SeatsOf<B>>,
    pace: &mut Pace,
) -> Result<MsgId, Refusal>
    requires done { is_done locked.old.phase ≡ true }
    requires room { 0 < seat.old.room }
    ensures number { locked.new.number ≡ locked.old.number }
    ensures seat { IfOk result (λ id. Takes seat.old seat.new (Some id)) }
    ensures same { OnErr result (seat.new ≡ seat.old) }
    ensures err { IfErr result (λ refusal. refusal ≡ refusals.Halted) }
{
    let committed = hub.commit(locked, seat);
    if committed.is_ok() && pace.goes_on {
        if let Ok(ahead) = assign_oldest(hub, locked) {
            pace.ahead = ahead;
        }
    }
    committed
}

/// Assigns the oldest message that can be delivered on the shelf's processor, if there is one. If
/// no delivery is under way there, the refusal is the first that applies of `Halted`,
/// `HistoryFull`, `NoBlank` and `Memory`. If refused, nothing changes, except the room in the hub's
/// own list.
fn assign_oldest<D: Disk, C: Chare, B: RuntimeName>(
    hub: &mut Hub<D, C, B>,
    locked: &mut ProcessorState<C, B>,
) -> Result<Option<MsgId>, Refusal>
    ensures number { locked.new.number ≡ locked.old.number }
    ensures oldest { IfOk result (λ o. o ≡ oldest_on_in hub.old.core locked.old.number) }
    ensures assigned { IfOk result (λ o. IfSome o (λ _. is_assigned locked.new.phase ≡ true)) }
    ensures err { OnErr result ((roomless hub.new ≡ roomless hub.old)
        × (locked.new ≡ locked.old)) }
    ensures refused { IsIdle locked.old →
        IfErr result (λ refusal. is_work_refusal refusal ≡ true) }
{
    assign_counted::<Brand, D, C, B>(hub, locked, Blank::new(1))
}

/// Assigns a message as `assign_oldest` does, with a count of its own of the looks at pending
/// messages.
fn assign_counted<L: Ledger, D: Disk, C: Chare, B: RuntimeName>(
    hub: &mut Hub<D, C, B>,
    locked: &mut ProcessorState<C, B>,
    blank: Blank,
) -> Result<Option<MsgId>, Refusal>
    requires name { blank.name ≡ L.name }
    requires parts { blank.parts ≡ L.parts }
    requires some { 0 < blank.parts }
    ensures number { locked.new.number ≡ locked.old.number }
    ensures oldest { IfOk result (λ o. o ≡ oldest_on_in hub.old.core locked.old.number) }
    ensures assigned { IfOk result (λ o. IfSome o (λ _. is_assigned locked.new.phase ≡ true)) }
    ensures err { OnErr result ((roomless hub.new ≡ roomless hub.old)
        × (locked.new ≡ locked.old)) }
    ensures refused { IsIdle locked.old →
        IfErr result (λ refusal. is_work_refusal refusal ≡ true) }
{
    let mut ticks = Ticks::<L>::new(blank);
    hub.facts();
    let Some(id) = hub.oldest_on(locked.number(), &mut ticks) else {
        return Ok(None);
    };
    match hub.assign(locked, id) {
        Ok(()) => Ok(Some(id)),
        Err(refusal) => {
            // If no delivery is under way there, this shows that nothing is assigned there.
            hub.agree(locked);
            Err(refusal)
        }
    }
}

/// A seat, and the result of its worker's work.
#[derive(Drop)]
pub struct WorkerSlot<B: RuntimeName> {
    pub seat: Seat<SeatsOf<B>>,
    pub worked: Worked,
}

/// Has each seat's worker work in a thread of its own, and notes its result beside the seat.
pub fn work_all<D: Disk, C: Chare, B: RuntimeName + Send + Sync, G: Gate, R: Threads + Wait + Sync>(
    rt: &R,
    runtime: &Runtime<D, C, B>,
    slots: &mut [WorkerSlot<B>],
    gate: &G,
    turns: u64,
)
    ensures { (i : ℕ) (d : _) → i < length slots.old →
        HasServed (slice_index_or slots.old i d).seat (slice_index_or slots.new i d).seat
        turns (slice_index_or slots.new i d).worked }
{
    let count = slots.len();
    if count == 0 {
        return;
    }
    thread::for_each_mut(
        rt,
        slots,
        count,
        &|_place: usize, slot: &mut WorkerSlot<B>|
            ensures { HasServed slot.entry.now.seat slot.exit.now.seat turns
                slot.exit.now.worked }
        { serve(rt, runtime, slot, gate, turns) },
    );
}

/// Has a seat's worker work, and notes its result.
fn serve<D: Disk, C: Chare, B: RuntimeName, G: Gate, R: Wait>(
    rt: &R,
    runtime: &Runtime<D, C, B>,
    slot: &mut WorkerSlot<B>,
    gate: &G,
    turns: u64,
)
    ensures { HasServed slot.old.seat slot.new.seat turns slot.new.worked }
{
    slot.worked = runtime.work(rt, &mut slot.seat, gate, turns);
}
