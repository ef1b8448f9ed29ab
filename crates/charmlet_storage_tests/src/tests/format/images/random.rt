ghost use Rattle.std.specs.Prelude.{◌≤◌, ◌<◌, ◌^◌, All, IfSome, IsOk, length};
ghost use Rattle.charmlet_record.specs.Limits.{AreFewWords};
ghost use Rattle.charmlet_record.specs.Reading.{read_log};

use super::worked::opened;
use crate::tests::format::records::random::{
    some_delivery, some_elem, some_number, some_request, some_words,
};
use crate::tests::format::{is_count, is_text};
use charmlet_image::{
    Entry, HEADER_SIZE, Header, LogBatches, Mark, OpenHalf, arrays_size, client_size, entry_size,
    write_arrays, write_client, write_entry, write_header,
};
use charmlet_model::{
    CatchUpEntry, ClientRow, Effect, Elem, KindVersion, Manifest, Message, MsgId, Origin, Window,
    Words,
};
use charmlet_record::{
    OPEN, append_batch, append_caught_up, append_message, batch_size, write_u32,
};
use rand_core::utils::NextWord;
use rand_pcg::Pcg32;
use std::alloc::AllocGlobal;
use std::fmt::Debug;
use std::process::Abort;

// An array of each kind in each of its versions.
const ARRAYS: [(u16, KindVersion); 7] = [
    (0, KindVersion::Counter),
    (1, KindVersion::Ring),
    (2, KindVersion::Account),
    (3, KindVersion::Sum),
    (4, KindVersion::Tree),
    (5, KindVersion::Tape),
    (6, KindVersion::FirstCounter),
];

// A reply, or none.
fn some_item(rt: &(impl AllocGlobal + Abort), rng: &mut Pcg32) -> Option<Words>
    ensures { IfSome result AreFewWords }
{
    if rng.next_word() % 2 == 0 {
        return None;
    }
    Some(some_words(rt, rng))
}

// One to eight items.
fn some_window(rt: &(impl AllocGlobal + Abort), rng: &mut Pcg32) -> Window
    ensures { All (λ item. IfSome item AreFewWords) result }
{
    let mut window = Window::new();
    let count = 1 + rng.next_word() % 8;
    for _ in 0..count {
        let item = some_item(rt, rng);
        window.push(item);
    }
    window
}

// A message that some client sent under this number.
fn some_message(rt: &(impl AllocGlobal + Abort), rng: &mut Pcg32, number: u64) -> Message
    ensures { AreFewWords result.words }
{
    let origin = Origin::Client(rng.next_word());
    let to = some_elem(rng);
    let entry = (rng.next_word() % 65536) as u16;
    let words = some_words(rt, rng);
    Message {
        id: MsgId { origin, number },
        to,
        entry,
        words,
    }
}

// The four bytes of a tape's number of items, which is 4, and 32 bytes of any numbers.
fn some_packed(rng: &mut Pcg32) -> [u8; 36] {
    let mut packed = [0; 36];
    packed[0] = 4;
    for place in 4..36 {
        packed[place] = (rng.next_word() % 256) as u8;
    }
    packed
}

// The first of these bytes, as many as an object of this kind version packs to.
fn packed_of(kind_version: KindVersion, packed: &[u8; 36]) -> &[u8]
    ensures { length result.now ≤ 36 }
{
    match kind_version {
        KindVersion::FirstCounter | KindVersion::Account | KindVersion::Tree => &packed[4..12],
        KindVersion::Counter | KindVersion::Ring => &packed[4..20],
        KindVersion::Sum => &packed[4..36],
        KindVersion::Tape => &packed[..],
    }
}

// Notes a value, in a line.
fn note<T: Debug>(rt: &impl Abort, said: &mut String, value: &T) {
    write!(said, "{value:?}\n").expect(rt, "memory");
}

// Notes the arrays, each with its kind and version.
fn note_arrays(rt: &impl Abort, said: &mut String, arrays: &[(u16, KindVersion)]) {
    for array in arrays {
        note(rt, said, array);
    }
}

// Appends how many items a list has.
fn append_count(rt: &impl Abort, out: &mut Vec<u8>, count: u32) {
    out.reserve(4).expect(rt, "memory");
    write_u32(out, count);
}

// `size` bytes were appended.
fn has_grown(rt: &impl Abort, out: &[u8], before: usize, size: usize) {
    assert_eq!(rt; out.len().checked_sub(before), Some(size));
}

// Appends a client, and notes it.
fn append_client(
    rt: &impl Abort,
    out: &mut Vec<u8>,
    said: &mut String,
    client: u32,
    row: &ClientRow,
)
    requires { All (λ item. IfSome item AreFewWords) row.now.window }
{
    let before = out.len();
    let size = client_size(row);
    out.reserve(size).expect(rt, "memory");
    write_client(out, client, row);
    has_grown(rt, out, before, size);
    note(rt, said, &(client, row));
}

// Appends an element with these packed bytes, or one that is gone, and notes it.
fn append_entry(
    rt: &impl Abort,
    rng: &mut Pcg32,
    out: &mut Vec<u8>,
    said: &mut String,
    element: Elem,
    packed: Option<&[u8]>,
)
    requires { IfSome packed (λ packed. length packed.now < 2 ^ 32) }
{
    let entry = Entry {
        element,
        sent: some_number(rng),
        received: some_number(rng) | 1,
        packed,
    };
    let before = out.len();
    let size = entry_size(&entry);
    out.reserve(size).expect(rt, "memory");
    write_entry(out, &entry);
    has_grown(rt, out, before, size);
    note(rt, said, &entry);
}

// Appends eight clients.
fn append_clients(
    rt: &(impl AllocGlobal + Abort),
    rng: &mut Pcg32,
    out: &mut Vec<u8>,
    said: &mut String,
) {
    append_count(rt, out, 8);
    for client in 0..8 {
        let window = some_window(rt, rng);
        let last = some_number(rng) | 8;
        let row = ClientRow { last, window };
        append_client(rt, out, said, client, &row);
    }
}

// Appends five pending messages with distinct ids.
fn append_pending(
    rt: &(impl AllocGlobal + Abort),
    rng: &mut Pcg32,
    out: &mut Vec<u8>,
    said: &mut String,
) {
    append_count(rt, out, 5);
    for number in 1..6 {
        let message = some_message(rt, rng, number);
        append_message(out, &message).expect(rt, "memory");
        note(rt, said, &message);
    }
}

// Appends five deliveries of a catch-up list.
fn append_catch_up(
    rt: &(impl AllocGlobal + Abort),
    rng: &mut Pcg32,
    out: &mut Vec<u8>,
    said: &mut String,
) {
    append_count(rt, out, 5);
    for received in 1..6 {
        let message = some_message(rt, rng, 1);
        let delivery = CatchUpEntry {
            message,
            received,
            effect: Effect::Constructed,
        };
        append_caught_up(out, &delivery).expect(rt, "memory");
        note(rt, said, &delivery);
    }
}

// Appends two elements of an array: one that is there, and one that is gone.
fn append_two(
    rt: &impl Abort,
    rng: &mut Pcg32,
    out: &mut Vec<u8>,
    said: &mut String,
    array: u16,
    kind_version: KindVersion,
) {
    let packed = some_packed(rng);
    let there = Elem { array, index: 7 };
    let bytes = packed_of(kind_version, &packed);
    append_entry(rt, rng, out, said, there, Some(bytes));
    let gone = Elem {
        array,
        index: some_number(rng) | 8,
    };
    append_entry(rt, rng, out, said, gone, None);
}

// Appends two elements of each array.
fn append_entries(rt: &impl Abort, rng: &mut Pcg32, out: &mut Vec<u8>, said: &mut String) {
    append_count(rt, out, 14);
    for (array, kind_version) in &ARRAYS {
        append_two(rt, rng, out, said, *array, *kind_version);
    }
}

// An image, with a note of its contents.
fn some_image(rt: &(impl AllocGlobal + Abort), rng: &mut Pcg32, said: &mut String) -> Vec<u8> {
    note_arrays(rt, said, &ARRAYS);
    let mut out = Vec::new(rt.alloc());
    let size = arrays_size(&ARRAYS);
    out.reserve(size).expect(rt, "memory");
    write_arrays(&mut out, &ARRAYS);
    is_count(rt, out.len(), size);
    append_clients(rt, rng, &mut out, said);
    append_pending(rt, rng, &mut out, said);
    append_entries(rt, rng, &mut out, said);
    append_catch_up(rt, rng, &mut out, said);
    out
}

// Appends a batch of a request and a delivery after its open gate.
fn append_events(
    rt: &(impl AllocGlobal + Abort),
    rng: &mut Pcg32,
    out: &mut Vec<u8>,
    said: &mut String,
) {
    let events = [some_request(rt, rng), some_delivery(rt, rng)];
    out.push(OPEN).expect(rt, "memory");
    let before = out.len();
    append_batch(out, &events).expect(rt, "memory");
    has_grown(rt, out, before, batch_size(&events));
    for event in &events {
        note(rt, said, event);
    }
}

// A header of an image of `size` bytes.
fn some_header(rt: &impl Abort, rng: &mut Pcg32, size: usize) -> Header {
    Header {
        mark: Mark::Third,
        generation: u64::from(rng.next_word()) | 1,
        events: u64::from(rng.next_word()),
        size: u32::try_from(size).expect(rt, "a short image"),
    }
}

// A half with an image and two batches, with a note of their contents.
fn some_half(rt: &(impl AllocGlobal + Abort), rng: &mut Pcg32, said: &mut String) -> Vec<u8> {
    let image = some_image(rt, rng, said);
    let header = some_header(rt, rng, image.len());
    note(rt, said, &header);
    let mut out = Vec::new(rt.alloc());
    out.push(OPEN).expect(rt, "memory");
    out.reserve(HEADER_SIZE).expect(rt, "memory");
    write_header(&mut out, &header);
    out.extend_from_slice(image.as_slice()).expect(rt, "memory");
    append_events(rt, rng, &mut out, said);
    append_events(rt, rng, &mut out, said);
    out.push(0).expect(rt, "memory");
    out
}

// Notes the contents of an image and its header, as they were read.
fn read_again(rt: &(impl AllocGlobal + Abort), half: &OpenHalf<'_>, said: &mut String) {
    let arrays = half.image.manifest.arrays(rt.alloc()).expect(rt, "memory");
    note_arrays(rt, said, arrays.as_slice());
    for (client, row) in &half.image.clients {
        note(rt, said, &(client, row));
    }
    for placed in &half.image.pending {
        note(rt, said, &placed.item);
    }
    for entry in &half.image.entries {
        note(rt, said, entry);
    }
    for placed in &half.image.caught_up {
        note(rt, said, &placed.item);
    }
    note(rt, said, &half.header);
}

// Notes the contents of the next batch, as it was read.
fn read_events_again(
    rt: &(impl AllocGlobal + Abort),
    manifest: &Manifest,
    batches: &mut LogBatches<'_>,
    said: &mut String,
)
    requires { IsOk (read_log manifest.now batches.old) }
    ensures { IsOk (read_log manifest.now batches.new) }
{
    let batch = batches
        .next_batch(rt.alloc(), manifest)
        .expect(rt, "memory");
    let events = batch.expect(rt, "a batch");
    for placed in &events {
        note(rt, said, &placed.item);
    }
}

// No batch is left.
fn has_ended(rt: &(impl AllocGlobal + Abort), manifest: &Manifest, batches: &mut LogBatches<'_>)
    requires { IsOk (read_log manifest.now batches.old) }
{
    let batch = batches
        .next_batch(rt.alloc(), manifest)
        .expect(rt, "memory");
    assert!(rt; batch.is_none());
}

// The contents of a half with two batches, a line for each part.
fn said_by(rt: &(impl AllocGlobal + Abort), bytes: &[u8]) -> String {
    let half = opened(rt, bytes);
    let mut said = String::new(rt.alloc());
    read_again(rt, &half, &mut said);
    let mut batches = LogBatches::new(&half.log);
    read_events_again(rt, &half.image.manifest, &mut batches, &mut said);
    read_events_again(rt, &half.image.manifest, &mut batches, &mut said);
    has_ended(rt, &half.image.manifest, &mut batches);
    said
}

// A half is read back as it was written, in 44 parts.
fn is_read_back(rt: &(impl AllocGlobal + Abort), rng: &mut Pcg32) {
    let mut said = String::new(rt.alloc());
    let bytes = some_half(rt, rng, &mut said);
    let again = said_by(rt, &bytes);
    is_count(rt, again.lines().count(), 44);
    is_text(rt, &again, &said);
}

#[test]
fn random_halves_are_read_back(rt: HostRuntime) {
    let mut rng = Pcg32::new(42, 54);
    for _ in 0..20 {
        is_read_back(&rt, &mut rng);
    }
}
