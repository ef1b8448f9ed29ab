ghost use Rattle.std.specs.Prelude.{◌≤◌, length};
ghost use Rattle.charmlet_record.specs.Limits.{IsShort};

use super::worked::{FIRST_FLUSH, has_counts};
use crate::tests::format::are_bytes;
use charmlet_model::{Effect, Elem, Logged, MsgId, Origin, Sends, Words};
use charmlet_record::{OPEN, WalBuffer};
use std::alloc::{AllocGlobal, Global};
use std::process::Abort;

// The request of client 7 with this number and these words.
fn request(rt: &(impl AllocGlobal + Abort), number: u64, words: &[u64]) -> Logged
    requires { length words.now ≤ 512 }
    ensures { IsShort result }
{
    let words = Words::from_slice(rt.alloc(), words).expect(rt, "memory");
    Logged::Accept {
        client: 7,
        number,
        to: Elem { array: 0, index: 0 },
        entry: 65535,
        words,
    }
}

// The delivery of the first one.
pub fn delivery(alloc: Global) -> Logged
    ensures { IsShort result }
{
    Logged::Deliver {
        id: MsgId {
            origin: Origin::Client(7),
            number: 1,
        },
        received: 1,
        effect: Effect::Constructed,
        sends: Sends::new(Vec::new(alloc)),
    }
}

// Makes room for the event, and adds it.
fn add(rt: &impl Abort, wal_buffer: &mut WalBuffer, event: &Logged)
    requires { IsShort event.now }
{
    wal_buffer.reserve(1).expect(rt, "memory");
    wal_buffer.push(event);
}

// Adds a request with one word.
fn add_request(rt: &(impl AllocGlobal + Abort), wal_buffer: &mut WalBuffer, number: u64) {
    add(rt, wal_buffer, &request(rt, number, &[5]));
}

// `count` requests, each with one word.
fn requests(rt: &(impl AllocGlobal + Abort), count: u64) -> WalBuffer {
    let mut wal_buffer = WalBuffer::new(rt.alloc());
    for number in 1..=count {
        add_request(rt, &mut wal_buffer, number);
    }
    wal_buffer
}

// The log that a flush makes of the batches.
fn log_of(rt: &(impl AllocGlobal + Abort), wal_buffer: &WalBuffer) -> Vec<u8> {
    let mut log = Vec::new(rt.alloc());
    for index in 0..wal_buffer.batches() {
        log.push(OPEN).expect(rt, "memory");
        log.extend_from_slice(wal_buffer.batch(index))
            .expect(rt, "memory");
        log.pop();
    }
    log.push(0).expect(rt, "memory");
    log
}

// Each batch has this many bytes with the closed gate after it.
fn has_lengths(rt: &impl Abort, wal_buffer: &WalBuffer, lengths: &[usize]) {
    for index in 0..wal_buffer.batches() {
        let length = wal_buffer.batch(index).len();
        assert_eq!(rt; lengths.get(index), Some(&length));
    }
}

// The WAL buffer takes `size` bytes, in `batches` batches. It is empty if it takes none.
fn has_size(rt: &impl Abort, wal_buffer: &WalBuffer, size: usize, batches: usize) {
    assert_eq!(rt; wal_buffer.is_empty(), size == 0);
    assert_eq!(rt; (wal_buffer.size(), wal_buffer.batches()), (size, batches));
}

#[test]
fn wal_buffers_are_logs(rt: HostRuntime) {
    let mut wal_buffer = WalBuffer::new(rt.alloc());
    has_size(&rt, &wal_buffer, 0, 0);
    add_request(&rt, &mut wal_buffer, 1);
    add(&rt, &mut wal_buffer, &delivery(rt.alloc()));
    has_size(&rt, &wal_buffer, 73, 1);
    are_bytes(&rt, &log_of(&rt, &wal_buffer), &FIRST_FLUSH);
    wal_buffer.clear();
    has_size(&rt, &wal_buffer, 0, 0);
}

// A batch has at most 4,096 events, and a new one begins after it.
#[test]
fn batches_are_filled(rt: HostRuntime) {
    let full = requests(&rt, 4096);
    has_size(&rt, &full, 9 + 4096 * 37, 1);
    let more = requests(&rt, 10_000);
    has_size(&rt, &more, 27 + 10_000 * 37, 3);
    let lengths = [9 + 4096 * 37, 9 + 4096 * 37, 9 + 1808 * 37];
    has_lengths(&rt, &more, &lengths);
    has_counts(&rt, &log_of(&rt, &more), 10_000, 0);
}

// A request with as many words as one may have.
#[test]
fn longest_request_is_kept(rt: HostRuntime) {
    let mut wal_buffer = WalBuffer::new(rt.alloc());
    add(
        &rt,
        &mut wal_buffer,
        &request(&rt, u64::MAX, &[u64::MAX; 512]),
    );
    has_size(&rt, &wal_buffer, 9 + 29 + 8 * 512, 1);
    has_counts(&rt, &log_of(&rt, &wal_buffer), 1, 0);
}
