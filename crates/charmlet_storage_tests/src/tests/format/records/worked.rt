ghost use Rattle.charmlet_record.specs.Limits.{AreFewWords, IsShort};

use crate::tests::format::{are_bytes, is_count, is_text};
use charmlet_model::{
    CatchUpEntry, Effect, Elem, Logged, Manifest, Message, MsgId, Origin, Outgoing, Sends, Words,
};
use charmlet_record::{
    OPEN, Reader, append_batch, append_caught_up, append_event, append_message, batch_size,
    caught_up_size, event_size, message_size, read_batch, read_caught_up, read_elem, read_event,
    read_id, read_log, read_message, read_message_of, read_words, words_size, write_elem,
    write_words,
};
use std::alloc::{AllocGlobal, Global};
use std::fmt::Debug;
use std::process::Abort;

// The log of a first flush, from its first gate on: client 7 constructs element (0, 0) with 5, and
// the request is delivered.
pub const FIRST_FLUSH: [u8; 74] = [
    1, 0x40, 0, 0, 0, 2, 0, 0, 0, // an open gate, 64 bytes, 2 events
    1, 7, 0, 0, 0, 1, 0, 0, 0, 0, 0, 0, 0, // the request
    0, 0, 0, 0, 0, 0, 0, 0, 0, 0, 0xff, 0xff, // where to, and its entry
    1, 0, 0, 0, 5, 0, 0, 0, 0, 0, 0, 0, // its words
    2, 0, 7, 0, 0, 0, 1, 0, 0, 0, 0, 0, 0, 0, // the delivery
    1, 0, 0, 0, 0, 0, 0, 0, 1, 0, 0, 0, 0, // its count, its effect and its sends
    0, // a closed gate
];

// A delivery of a catch-up list: client 8 adds 1 to element (0, 1).
const CATCH_UP: [u8; 46] = [
    0, 8, 0, 0, 0, 2, 0, 0, 0, 0, 0, 0, 0, // the message's id
    0, 0, 1, 0, 0, 0, 0, 0, 0, 0, 0, 0, // where to, and its entry
    1, 0, 0, 0, 1, 0, 0, 0, 0, 0, 0, 0, // its words
    2, 0, 0, 0, 0, 0, 0, 0, 0, // the receiver's count, and the effect
];

// A message of element (2, 3) to element (2, 258), with no words.
const MESSAGE: [u8; 35] = [
    1, 2, 0, 3, 0, 0, 0, 0, 0, 0, 0, 9, 0, 0, 0, 0, 0, 0, 0, // its id
    2, 0, 2, 1, 0, 0, 0, 0, 0, 0, 4, 0, // where to, and its entry
    0, 0, 0, 0,
];

const COUNTER: Elem = Elem { array: 0, index: 0 };

const FIRST_REQUEST: MsgId = MsgId {
    origin: Origin::Client(7),
    number: 1,
};

// A delivery that destroys its element, which sends a message.
const LAST_DELIVERY: [u8; 51] = [
    2, 0, 7, 0, 0, 0, 1, 0, 0, 0, 0, 0, 0, 0, // the delivery
    2, 0, 0, 0, 0, 0, 0, 0, 2, 1, 0, 0, 0, // its count, its effect and how many sends
    2, 0, 1, 0, 0, 0, 0, 0, 0, 0, 0, 0, // where to, and its entry
    1, 0, 0, 0, 3, 0, 0, 0, 0, 0, 0, 0, // its words
];

// The word 258.
const WORDS: [u8; 12] = [1, 0, 0, 0, 2, 1, 0, 0, 0, 0, 0, 0];

// Arrays 0 and 2, of counters and rings.
pub fn arrays(rt: &(impl AllocGlobal + Abort)) -> Manifest {
    let manifest = Manifest::of(rt.alloc(), &[(0, 1), (2, 2)]).expect(rt, "memory");
    manifest.expect(rt, "a manifest")
}

// The bytes with another byte at this place.
pub fn changed(rt: &(impl AllocGlobal + Abort), bytes: &[u8], at: usize, byte: u8) -> Vec<u8> {
    let mut copy = bytes.to_vec(rt.alloc()).expect(rt, "memory");
    if let Some(place) = copy.get_mut(at) {
        *place = byte;
    }
    copy
}

// `count` events are read from a log, and `left` bytes are left.
pub fn has_counts(rt: &(impl AllocGlobal + Abort), log: &[u8], count: usize, left: usize) {
    let manifest = arrays(rt);
    let mut reader = Reader::new(log);
    let events = read_log(&mut reader, rt.alloc(), &manifest).expect(rt, "a log");
    are_counts(rt, (events.len(), reader.left()), (count, left));
}

// Both numbers are these.
fn are_counts(rt: &impl Abort, found: (usize, usize), wanted: (usize, usize)) {
    assert_eq!(rt; found, wanted);
}

// One word.
fn word(rt: &(impl AllocGlobal + Abort), word: u64) -> Words
    ensures { AreFewWords result }
{
    Words::from_slice(rt.alloc(), &[word]).expect(rt, "memory")
}

// The request of the first flush.
fn first_request(rt: &(impl AllocGlobal + Abort)) -> Logged
    ensures { IsShort result }
{
    let words = word(rt, 5);
    Logged::Accept {
        client: 7,
        number: 1,
        to: COUNTER,
        entry: 65535,
        words,
    }
}

// Its delivery.
fn first_delivery(alloc: Global) -> Logged
    ensures { IsShort result }
{
    Logged::Deliver {
        id: FIRST_REQUEST,
        received: 1,
        effect: Effect::Constructed,
        sends: Sends::new(Vec::new(alloc)),
    }
}

// The event is written as these bytes, and its size is their number.
fn is_written(rt: &(impl AllocGlobal + Abort), event: &Logged, wanted: &[u8])
    requires { IsShort event.now }
{
    is_count(rt, event_size(event), wanted.len());
    let mut bytes = Vec::new(rt.alloc());
    append_event(&mut bytes, event).expect(rt, "memory");
    are_bytes(rt, &bytes, wanted);
}

// The value that was read, in words. No byte is left after it.
fn in_words<T: Debug>(rt: &(impl AllocGlobal + Abort), read: &T, left: usize) -> String {
    assert_eq!(rt; left, 0);
    format!(in rt.alloc(); "{read:?}").expect(rt, "memory")
}

// The batch of the first flush, which takes 72 bytes, after an open gate and before a closed one.
fn first_log(rt: &(impl AllocGlobal + Abort)) -> Vec<u8> {
    let batch = [first_request(rt), first_delivery(rt.alloc())];
    is_count(rt, batch_size(&batch), 72);
    let mut log = Vec::new(rt.alloc());
    log.push(OPEN).expect(rt, "memory");
    append_batch(&mut log, &batch).expect(rt, "memory");
    log.push(0).expect(rt, "memory");
    log
}

#[test]
fn first_flush_is_written(rt: HostRuntime) {
    is_written(&rt, &first_request(&rt), &FIRST_FLUSH[9..46]);
    is_written(&rt, &first_delivery(rt.alloc()), &FIRST_FLUSH[46..73]);
    are_bytes(&rt, &first_log(&rt), &FIRST_FLUSH);
}

// The events of a log in words.
fn log_in(rt: &(impl AllocGlobal + Abort), log: &[u8]) -> String {
    let manifest = arrays(rt);
    let mut reader = Reader::new(log);
    let events = read_log(&mut reader, rt.alloc(), &manifest).expect(rt, "a log");
    in_words(rt, &events, reader.left())
}

#[test]
fn first_flush_is_read(rt: HostRuntime) {
    is_text(
        &rt,
        &log_in(&rt, &FIRST_FLUSH),
        "[Positioned { bytes_left: 65, item: Accept { client: 7, number: 1, to: Elem { array: 0, index: 0 }, entry: 65535, words: Words { items: [5] } } }, \
         Positioned { bytes_left: 28, item: Deliver { id: MsgId { origin: Client(7), number: 1 }, received: 1, effect: Constructed, sends: Sends { items: [] } } }]",
    );
}

// With this byte for the first gate the log has no event.
fn is_closed(rt: &(impl AllocGlobal + Abort), gate: u8) {
    has_counts(rt, &changed(rt, &FIRST_FLUSH, 0, gate), 0, 73);
}

// Two events are read from a batch, and one byte is left.
fn is_batch(rt: &(impl AllocGlobal + Abort), batch: &[u8]) {
    let manifest = arrays(rt);
    let mut reader = Reader::new(batch);
    let events = read_batch(&mut reader, rt.alloc(), &manifest).expect(rt, "a batch");
    are_counts(rt, (events.len(), reader.left()), (2, 1));
}

#[test]
fn closed_gate_ends_the_log(rt: HostRuntime) {
    is_closed(&rt, 0);
    is_closed(&rt, 2);
    is_closed(&rt, 7);
    is_closed(&rt, 255);
    is_batch(&rt, &FIRST_FLUSH[1..]);
}

// A delivery of a catch-up list in words.
fn caught_up_in(rt: &(impl AllocGlobal + Abort), bytes: &[u8]) -> String {
    let manifest = arrays(rt);
    let mut reader = Reader::new(bytes);
    let delivery = read_caught_up(&mut reader, rt.alloc(), &manifest).expect(rt, "a delivery");
    in_words(rt, &delivery, reader.left())
}

// The delivery of client 8 as it is written. It takes 46 bytes.
fn caught_up_bytes(rt: &(impl AllocGlobal + Abort)) -> Vec<u8> {
    let message = Message {
        id: MsgId {
            origin: Origin::Client(8),
            number: 2,
        },
        to: Elem { array: 0, index: 1 },
        entry: 0,
        words: word(rt, 1),
    };
    let delivery = CatchUpEntry {
        message,
        received: 2,
        effect: Effect::Stayed,
    };
    is_count(rt, caught_up_size(&delivery), 46);
    let mut bytes = Vec::new(rt.alloc());
    append_caught_up(&mut bytes, &delivery).expect(rt, "memory");
    bytes
}

#[test]
fn catch_up_delivery_has_46_bytes(rt: HostRuntime) {
    is_text(
        &rt,
        &caught_up_in(&rt, &CATCH_UP),
        "CatchUpEntry { message: Message { id: MsgId { origin: Client(8), number: 2 }, to: Elem { array: 0, index: 1 }, entry: 0, words: Words { items: [1] } }, received: 2, effect: Stayed }",
    );
    are_bytes(&rt, &caught_up_bytes(&rt), &CATCH_UP);
}

// The message of an element as it is written. It takes 35 bytes.
fn message_bytes(rt: &(impl AllocGlobal + Abort)) -> Vec<u8> {
    let from = Elem { array: 2, index: 3 };
    let message = Message {
        id: MsgId {
            origin: Origin::Element(from),
            number: 9,
        },
        to: Elem {
            array: 2,
            index: 258,
        },
        entry: 4,
        words: Words::new(Vec::new(rt.alloc())),
    };
    is_count(rt, message_size(&message), 35);
    let mut bytes = Vec::new(rt.alloc());
    append_message(&mut bytes, &message).expect(rt, "memory");
    bytes
}

// A message in words.
fn message_in(rt: &(impl AllocGlobal + Abort), bytes: &[u8]) -> String {
    let manifest = arrays(rt);
    let mut reader = Reader::new(bytes);
    let message = read_message(&mut reader, rt.alloc(), &manifest).expect(rt, "a message");
    in_words(rt, &message, reader.left())
}

// A message in words, with its id read first.
fn message_after_id(rt: &(impl AllocGlobal + Abort), bytes: &[u8]) -> String {
    let manifest = arrays(rt);
    let mut reader = Reader::new(bytes);
    let id = read_id(&mut reader, &manifest).expect(rt, "an id");
    let message = read_message_of(&mut reader, rt.alloc(), &manifest, id).expect(rt, "a message");
    in_words(rt, &message, reader.left())
}

// What the bytes of the message say.
const SAID: &str =
    "Message { id: MsgId { origin: Element(Elem { array: 2, index: 3 }), number: 9 }, to: Elem { array: 2, index: 258 }, entry: 4, words: Words { items: [] } }";

#[test]
fn message_of_an_element_has_35_bytes(rt: HostRuntime) {
    are_bytes(&rt, &message_bytes(&rt), &MESSAGE);
    is_text(&rt, &message_in(&rt, &MESSAGE), SAID);
    is_text(&rt, &message_after_id(&rt, &MESSAGE), SAID);
}

// The element that the bytes begin with.
fn elem_in(rt: &(impl AllocGlobal + Abort), bytes: &[u8]) -> Elem {
    let manifest = arrays(rt);
    read_elem(&mut Reader::new(bytes), &manifest).expect(rt, "an element")
}

// An element as it is written.
fn elem_bytes(rt: &(impl AllocGlobal + Abort), elem: Elem) -> Vec<u8> {
    let mut bytes = Vec::new(rt.alloc());
    bytes.reserve(10).expect(rt, "memory");
    write_elem(&mut bytes, elem);
    bytes
}

// One word as it is written.
fn word_bytes(rt: &(impl AllocGlobal + Abort), number: u64) -> Vec<u8> {
    let words = word(rt, number);
    let mut bytes = Vec::new(rt.alloc());
    bytes.reserve(words_size(&words)).expect(rt, "memory");
    write_words(&mut bytes, &words);
    bytes
}

// The words that the bytes begin with are the word 258.
fn are_words(rt: &(impl AllocGlobal + Abort), bytes: &[u8]) {
    let words = read_words(&mut Reader::new(bytes), rt.alloc()).expect(rt, "words");
    assert!(rt; matches!(words.as_slice(), [258]));
}

#[test]
fn parts_are_read_and_written(rt: HostRuntime) {
    let from = elem_in(&rt, &MESSAGE[1..]);
    assert_eq!(rt; from, Elem { array: 2, index: 3 });
    are_bytes(&rt, &elem_bytes(&rt, from), &MESSAGE[1..11]);
    are_bytes(&rt, &word_bytes(&rt, 258), &WORDS);
    are_words(&rt, &WORDS);
}

// The delivery of the bytes above.
fn last_delivery(rt: &(impl AllocGlobal + Abort)) -> Logged
    ensures { IsShort result }
{
    let sent = Outgoing {
        to: Elem { array: 2, index: 1 },
        entry: 0,
        words: word(rt, 3),
    };
    let mut sends = Vec::new(rt.alloc());
    sends.push(sent).expect(rt, "memory");
    Logged::Deliver {
        id: FIRST_REQUEST,
        received: 2,
        effect: Effect::Destroyed,
        sends: Sends::new(sends),
    }
}

// An event in words.
fn event_in(rt: &(impl AllocGlobal + Abort), bytes: &[u8]) -> String {
    let manifest = arrays(rt);
    let mut reader = Reader::new(bytes);
    let event = read_event(&mut reader, rt.alloc(), &manifest).expect(rt, "an event");
    in_words(rt, &event, reader.left())
}

#[test]
fn delivery_has_its_sends(rt: HostRuntime) {
    is_written(&rt, &last_delivery(&rt), &LAST_DELIVERY);
    is_text(
        &rt,
        &event_in(&rt, &LAST_DELIVERY),
        "Deliver { id: MsgId { origin: Client(7), number: 1 }, received: 2, effect: Destroyed, sends: Sends { items: [Outgoing { to: Elem { array: 2, index: 1 }, entry: 0, words: Words { items: [3] } }] } }",
    );
}
