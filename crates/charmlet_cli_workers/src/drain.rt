//! The running of `drain` lines.

ghost use Rattle.std.specs.Prelude.{◌≡◌, ℕ, ◌-◌, ◌^◌, ◌<◌, min, sum_by, true, List, IfSome, length, map, slice_index_or};
ghost use Rattle.charmlet_workers.specs.Refusals.{is_work_refusal};
ghost use Rattle.charmlet_leases.specs.Passes.Passes.{HeldPass};
ghost use Rattle.charmlet_script_output.specs.Named.{Names};
ghost use Rattle.charmlet_cli_workers.specs.Heard.{known_by};
ghost use Rattle.charmlet_cli_workers.specs.Said.{Deeds, IsDrained, IsWritten};

use charmlet_chare::Chare;
use charmlet_disk::Disk;
use charmlet_model::{Answer, Refusal};
use charmlet_script::Drained;
use charmlet_script_output::{write_answer, write_line};
use charmlet_sequencer::RuntimeName;
use charmlet_workers::{OpenGate, Runtime, WorkerSlot, work_all};
use std::alloc::Global;
use std::io;
use std::io::Write;
use std::sync::Wait;
use std::thread::Threads;

/// Has each worker take `turns` turns, in a thread of its own. Once all have ended it writes how
/// many messages they delivered together, and how many are still pending. If a worker was refused,
/// the refusal is written too; if several were, that of the least processor. Fails as `write_line`
/// does, after all deliveries. The writer is flushed before, since deliveries may take long; if
/// that flush fails, the next one reports it.
pub(crate) fn drain_line<
    D: Disk,
    C: Chare,
    B: RuntimeName + Send + Sync,
    W: Write,
    R: Threads + Wait + Sync,
>(
    rt: &R,
    alloc: Global,
    runtime: &Runtime<D, C, B>,
    slots: &mut [WorkerSlot<B>],
    turns: u32,
    writer: &mut W,
) -> io::Result<()>
    ensures { (named : Names) (passes : List HeldPass) (before : Deeds) →
        before.delivered ≡ map (λ slot. slot.seat.ids) slots.old →
        IsWritten result (IsDrained (known_by runtime.now named passes) turns before
        (record before {
          delivered = map (λ slot. slot.seat.ids) slots.new;
        })) (W.contents writer.old) (W.contents writer.new) }
{
    let _ = writer.flush();
    work_all(rt, runtime, slots, &OpenGate, u64::from(turns));
    let line = Drained {
        delivered: delivered_by(slots),
        left: runtime.pending_count(rt) as u64,
    };
    write_line(alloc, writer, &line)?;
    match first_refusal(slots) {
        Some(refusal) => write_answer(alloc, writer, &Answer::Refused(refusal)),
        None => Ok(()),
    }
}

/// How many messages the workers delivered together, or 2^32-1 if there are more.
fn delivered_by<B: RuntimeName>(slots: &[WorkerSlot<B>]) -> u32
    ensures { result ≡ min (sum_by (λ slot. slot.worked.count) slots.now) (2 ^ 32 - 1) }
{
    let mut total: u64 = 0;
    for slot in slots {
        total = total.saturating_add(slot.worked.count);
    }
    let Ok(count) = u32::try_from(total) else {
        return u32::MAX;
    };
    count
}

/// The refusal of the first of these workers that was refused.
fn first_refusal<B: RuntimeName>(slots: &[WorkerSlot<B>]) -> Option<Refusal>
    ensures { ((i : ℕ) (d : _) → i < length slots.now →
        IfSome (slice_index_or slots.now i d).worked.refusal
        (λ refusal. is_work_refusal refusal ≡ true)) →
        IfSome result (λ refusal. is_work_refusal refusal ≡ true) }
{
    for slot in slots {
        if let Some(refusal) = slot.worked.refusal {
            return Some(refusal);
        }
    }
    None
}
