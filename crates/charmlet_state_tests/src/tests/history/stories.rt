//! The answers of histories that open with a small world, at their limits and after they were
//! halted.

ghost use Rattle.std.specs.Prelude.{◌≡◌, ◌≤◌, ◌<◌, ◌^◌};

use super::opening::opened;
use super::steps::{Step, run};
use charmlet_history::History;
use charmlet_model::Elem;
use std::process::Abort;

// The history that opens with the small world on four processors.
fn open(rt: &(impl AllocGlobal + Abort), before: u64, generation: u64, log_end: u64) -> History
    requires before { before ≤ 2 ^ 40 }
    requires some_generation { 1 ≤ generation }
    requires few_generations { generation ≤ 2 ^ 40 }
{
    let history = opened(rt.alloc(), before, generation, log_end, 4);
    history.ok().expect(rt, "memory")
}

// Such a history's answers to the steps are this text.
fn answers_from(
    rt: &(impl AllocGlobal + Abort),
    before: u64,
    generation: u64,
    log_end: u64,
    steps: &[Step],
    wanted: &str,
)
    requires before { before ≤ 2 ^ 40 }
    requires some_generation { 1 ≤ generation }
    requires few_generations { generation ≤ 2 ^ 40 }
{
    let mut history = open(rt, before, generation, log_end);
    run(rt, &mut history, steps, wanted);
}

// Such answers for the first file, whose log has no bytes.
fn answers(rt: &(impl AllocGlobal + Abort), before: u64, steps: &[Step], wanted: &str)
    requires { before ≤ 2 ^ 40 }
{
    answers_from(rt, before, 1, 0, steps, wanted);
}

// Such answers for the last file, whose log has room for this many more bytes.
fn answers_at_limits(
    rt: &(impl AllocGlobal + Abort),
    before: u64,
    room: u32,
    steps: &[Step],
    wanted: &str,
)
    requires { before ≤ 2 ^ 40 }
{
    let end = ((1u64 << 31) - 1).saturating_sub(room as u64);
    answers_from(rt, before, 1 << 40, end, steps, wanted);
}

// How many bytes a batch of one request with one word takes.
const ONE_REQUEST: u32 = 46;

const FIRST: Elem = Elem { array: 0, index: 0 };

// It is no longer there.
const ABSENT: Elem = Elem { array: 0, index: 1 };

const LAST: Elem = Elem { array: 0, index: 5 };

// An assigned message counts as an event until it is released.
#[test]
fn assigned_deliveries_count_at_the_last_event(rt: HostRuntime) {
    let steps = [
        Step::Assign(0, 7, 2),
        Step::Ask(7, 3),
        Step::Test(1, 8, 2),
        Step::Release(0),
        Step::Deliver(1, 8, 2),
        Step::Ask(8, 10),
        Step::Flush,
        Step::Status(8, 2),
    ];
    let wanted = "done\n\
         HistoryFull\n\
         HistoryFull\n\
         done\n\
         done\n\
         HistoryFull\n\
         durable 1099511627776\n\
         told replied\n";
    answers(&rt, (1 << 40) - 1, &steps, wanted);
}

// A log with room for one byte too few takes no batch, and all else goes on.
#[test]
fn full_logs_refuse_a_flush(rt: HostRuntime) {
    let steps = [
        Step::Flush,
        Step::Ask(7, 3),
        Step::Flush,
        Step::Status(7, 3),
        Step::Deliver(0, 7, 2),
        Step::Flush,
        Step::Status(7, 2),
        Step::Pending,
    ];
    let wanted = "durable 5\n\
         told unknown\n\
         LogFull\n\
         told unknown\n\
         done\n\
         LogFull\n\
         told accepted\n\
         pending 3\n";
    answers_at_limits(&rt, 5, ONE_REQUEST - 1, &steps, wanted);
}

// Two batches fill a log to its last byte, and then it takes none.
#[test]
fn logs_fill_to_their_last_byte(rt: HostRuntime) {
    let steps = [
        Step::Ask(7, 3),
        Step::Flush,
        Step::Ask(9, 1),
        Step::Flush,
        Step::Flush,
        Step::Ask(10, 1),
        Step::Flush,
        Step::Status(9, 1),
    ];
    let wanted = "told unknown\n\
         durable 6\n\
         told unknown\n\
         durable 7\n\
         durable 7\n\
         told unknown\n\
         LogFull\n\
         told accepted\n";
    answers_at_limits(&rt, 5, 2 * ONE_REQUEST, &steps, wanted);
}

// A message that was assigned before a store is halted stays assigned until it is released; its
// commit is refused, and nothing comes back with it. Each other step is refused, and calls that
// change nothing answer as before.
#[test]
fn halted_stores_release_and_show(rt: HostRuntime) {
    let steps = [
        Step::IsHalted,
        Step::HaltAssigned(1, 8, 2),
        Step::IsHalted,
        Step::Ask(7, 3),
        Step::Ask(7, 1),
        Step::Status(7, 1),
        Step::Test(1, 7, 2),
        Step::Move(FIRST, 1),
        Step::Flush,
        Step::Assigned(1),
        Step::Release(1),
        Step::Assigned(1),
        Step::Release(1),
        Step::Release(4),
        Step::Test(1, 8, 2),
        Step::Flush,
        Step::Halt,
        Step::IsHalted,
        Step::WhereIs(LAST),
        Step::Counts(LAST),
        Step::Pending,
        Step::Next,
    ];
    let wanted = "halted false\n\
         Halted\n\
         halted true\n\
         Halted\n\
         Halted\n\
         Halted\n\
         Halted\n\
         Halted\n\
         Halted\n\
         assigned c8.2\n\
         done\n\
         assigned none\n\
         done\n\
         done\n\
         Halted\n\
         Halted\n\
         done\n\
         halted true\n\
         Some(1)\n\
         Some(1) sent 2 received 1\n\
         pending 3\n\
         next 0 c7.2\n";
    answers(&rt, 0, &steps, wanted);
}

// While a message is assigned to a processor, no other one can be, and no element comes to it or
// leaves it. All else goes on.
#[test]
fn one_message_is_assigned_at_a_time(rt: HostRuntime) {
    let steps = [
        Step::Assign(0, 7, 2),
        Step::Test(0, 7, 2),
        Step::Move(FIRST, 4),
        Step::Move(ABSENT, 2),
        Step::Move(FIRST, 0),
        Step::Move(FIRST, 2),
        Step::Move(LAST, 0),
        Step::Move(LAST, 2),
        Step::Next,
        Step::Release(0),
        Step::Assign(1, 8, 2),
        Step::Relocate(FIRST, 1),
        Step::Relocate(LAST, 1),
        Step::Relocate(FIRST, 2),
        Step::Counts(FIRST),
        Step::Pending,
        Step::Assigned(1),
    ];
    let wanted = "done\n\
         Uncommitted\n\
         BadPes\n\
         Absent\n\
         can\n\
         Uncommitted\n\
         Uncommitted\n\
         can with a blank of kind 1\n\
         next 0 c7.2\n\
         done\n\
         done\n\
         Uncommitted\n\
         done\n\
         done\n\
         Some(2) sent 0 received 2\n\
         pending 3\n\
         assigned c8.2\n";
    answers(&rt, 0, &steps, wanted);
}
