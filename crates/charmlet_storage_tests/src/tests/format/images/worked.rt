ghost use Rattle.std.specs.Prelude.{IsOk};
ghost use Rattle.charmlet_record.specs.Reading.{read_log};

use super::stores::{CAUGHT_STORE, FLUSHED_STORE, IMAGE_STORE, NEW_STORE, WAITING_STORE};
use crate::tests::format::{are_bytes, is_count};
use charmlet_image::{HalfView, KnownLog, LogBatches, Mark, OpenHalf, read_half, reread_half};
use charmlet_model::{Effect, KindVersion, Logged, Origin};
use charmlet_record::Positioned;
use std::alloc::AllocGlobal;
use std::process::Abort;

// The open half of these bytes.
pub fn opened<'a>(rt: &(impl AllocGlobal + Abort), bytes: &'a [u8]) -> OpenHalf<'a>
    ensures { IsOk (read_log result.image.manifest result.log.rest.now) }
{
    match read_half(rt.alloc(), bytes).expect(rt, "memory") {
        HalfView::Open(half) => half,
        HalfView::Closed => panic!(rt; "closed"),
        HalfView::Damaged(_) => panic!(rt; "damaged"),
    }
}

// The open half of these bytes, read once more with what is known of its log.
fn reread<'a>(rt: &(impl AllocGlobal + Abort), bytes: &'a [u8]) -> OpenHalf<'a>
    ensures { IsOk (read_log result.image.manifest result.log.rest.now) }
{
    let HalfView::Open(half) = read_half(rt.alloc(), bytes).expect(rt, "memory") else {
        panic!(rt; "not open")
    };
    let known = KnownLog {
        events: half.log.events,
        ends: half.log.ends,
    };
    reread_half(rt.alloc(), bytes, known).expect(rt, "memory")
}

// The number is this one.
fn is_number(rt: &impl Abort, found: u64, wanted: u64) {
    assert_eq!(rt; found, wanted);
}

// The header has this mark, and the counters of array 0 are of this version.
fn has_mark(rt: &impl Abort, half: &OpenHalf<'_>, mark: Mark, kind_version: KindVersion) {
    assert_eq!(rt; half.header.mark, mark);
    assert_eq!(rt; half.image.manifest.kind_version_of(0), Some(kind_version));
}

// The image has this many clients and elements.
fn has_rows(rt: &impl Abort, half: &OpenHalf<'_>, clients: usize, elements: usize) {
    is_count(rt, half.image.clients.len(), clients);
    is_count(rt, half.image.entries.len(), elements);
}

// The log has `events` events, and ends at `ends`.
fn has_log(rt: &impl Abort, half: &OpenHalf<'_>, events: u64, ends: u64) {
    is_number(rt, half.log.events, events);
    is_number(rt, half.log.ends, ends);
}

// The log begins there.
fn has_log_at(rt: &impl Abort, half: &OpenHalf<'_>, begins: u64) {
    is_number(rt, half.log.begins, begins);
}

// An image with no clients and no elements, and a log with no events.
fn is_new(rt: &impl Abort, half: &OpenHalf<'_>) {
    has_mark(rt, half, Mark::Third, KindVersion::Counter);
    is_number(rt, half.header.generation, 1);
    is_number(rt, u64::from(half.header.size), 26);
    has_rows(rt, half, 0, 0);
    has_log_at(rt, half, 51);
    has_log(rt, half, 0, 51);
}

#[test]
fn new_store_is_read(rt: HostRuntime) {
    is_new(&rt, &opened(&rt, &NEW_STORE));
    is_new(&rt, &reread(&rt, &NEW_STORE));
}

// Two events, with this many bytes left at each.
pub fn are_events(rt: &impl Abort, events: &[Positioned<Logged>], first: usize, second: usize) {
    let [earlier, later] = events else {
        panic!(rt; "not two events");
    };
    is_count(rt, earlier.bytes_left, first);
    is_count(rt, later.bytes_left, second);
}

// The only batch of a log has two events, with this many bytes left at each.
fn has_batch(rt: &(impl AllocGlobal + Abort), half: &OpenHalf<'_>, first: usize, second: usize)
    requires { IsOk (read_log half.now.image.manifest half.now.log.rest.now) }
{
    let mut batches = LogBatches::new(&half.log);
    let batch = batches
        .next_batch(rt.alloc(), &half.image.manifest)
        .expect(rt, "memory");
    let events = batch.expect(rt, "a batch");
    are_events(rt, &events, first, second);
    let none = batches
        .next_batch(rt.alloc(), &half.image.manifest)
        .expect(rt, "memory");
    assert!(rt; none.is_none());
}

// The request is at offset 60, with 65 bytes left, and the delivery at 97, with 28.
#[test]
fn log_is_read_batch_by_batch(rt: HostRuntime) {
    let half = opened(&rt, &FLUSHED_STORE);
    has_log(&rt, &half, 2, 124);
    has_batch(&rt, &half, 65, 28);
}

#[test]
fn log_is_read_once_more(rt: HostRuntime) {
    let half = reread(&rt, &FLUSHED_STORE);
    has_log_at(&rt, &half, 51);
    has_log(&rt, &half, 2, 124);
    has_batch(&rt, &half, 65, 28);
}

// One client that made a request, and one element that received it.
fn is_image(rt: &impl Abort, half: &OpenHalf<'_>) {
    has_mark(rt, half, Mark::Third, KindVersion::Counter);
    is_number(rt, half.header.generation, 2);
    is_number(rt, half.header.events, 2);
    is_number(rt, half.log.ends, 116);
    let Some((client, row)) = half.image.clients.first() else {
        panic!(rt; "no client");
    };
    is_number(rt, u64::from(*client), 7);
    is_number(rt, row.last, 1);
    is_count(rt, row.window.len(), 1);
    let Some(entry) = half.image.entries.first() else {
        panic!(rt; "no element");
    };
    is_number(rt, entry.received, 1);
    let packed = entry.packed.expect(rt, "an object");
    are_bytes(
        rt,
        packed,
        &[5, 0, 0, 0, 0, 0, 0, 0, 5, 0, 0, 0, 0, 0, 0, 0],
    );
}

#[test]
fn image_is_read(rt: HostRuntime) {
    is_image(&rt, &opened(&rt, &IMAGE_STORE));
    is_image(&rt, &reread(&rt, &IMAGE_STORE));
}

// Two deliveries were made while the image was taken.
fn is_caught(rt: &impl Abort, half: &OpenHalf<'_>) {
    has_mark(rt, half, Mark::First, KindVersion::FirstCounter);
    has_rows(rt, half, 2, 2);
    let [caught, skipped] = half.image.caught_up.as_slice() else {
        panic!(rt; "not two deliveries");
    };
    is_count(rt, caught.bytes_left, 93);
    is_count(rt, skipped.bytes_left, 47);
    is_number(rt, skipped.item.received, 2);
    assert_eq!(rt; skipped.item.effect, Effect::Stayed);
}

// The two deliveries are at offsets 177 and 223, with 93 and 47 bytes left.
#[test]
fn catch_up_list_is_read(rt: HostRuntime) {
    is_caught(&rt, &opened(&rt, &CAUGHT_STORE));
    is_caught(&rt, &reread(&rt, &CAUGHT_STORE));
}

// Two messages are pending, and an element is gone.
fn is_waiting(rt: &impl Abort, half: &OpenHalf<'_>) {
    has_mark(rt, half, Mark::Second, KindVersion::FirstCounter);
    let [first, second] = half.image.pending.as_slice() else {
        panic!(rt; "not two messages");
    };
    assert_eq!(rt; first.item.id.origin, Origin::Client(7));
    is_number(rt, first.item.id.number, 2);
    is_number(rt, second.item.id.number, 3);
    is_count(rt, first.bytes_left, 149);
    is_count(rt, second.bytes_left, 112);
    let Some(gone) = half.image.entries.last() else {
        panic!(rt; "no element");
    };
    assert!(rt; gone.packed.is_none());
}

#[test]
fn pending_messages_are_read(rt: HostRuntime) {
    is_waiting(&rt, &opened(&rt, &WAITING_STORE));
}
